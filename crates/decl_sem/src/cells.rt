//! Numbers of cells.
ghost use Rattle.std.specs.Prelude.{◌≡◌, []};
ghost use Rattle.m2_base.specs.States.{State};
ghost use Rattle.m2_base.specs.Statics.Cells.{capped as spec_capped, fitting};
ghost use Rattle.m2_base.specs.Statics.Makes.{only_gives};
ghost use Rattle.decl_sem.specs.Making.{next_ordinal};
ghost use Rattle.decl_sem.specs.Pieces.{Declares, IsBehind, IsMaking, known_of};

use crate::making::Made;
use crate::names::refuse;
use m2_base::{Diagnostic, Memory, Place, Site, TOO_MANY_CELLS};
use type_rules::BROKEN;

/// What would be more than too many is counted as too many.
pub(crate) fn capped(cells: u64) -> u32
    ensures { result ≡ spec_capped cells }
{
    if cells < TOO_MANY_CELLS as u64 {
        cells as u32
    } else {
        TOO_MANY_CELLS
    }
}

/// A type of too many cells is refused at its first token, and in error.
pub(crate) fn fit(
    site: &Site,
    at: u32,
    size: u32,
    of: Place,
    made: &mut Made,
) -> Result<Place, Memory>
    ensures { (a : State) → IsMaking a.frame site.now made.old [] → IsBehind a.frame (next_ordinal made.old) of
        → Declares a a made.old made.new site.now (known_of result) [] IsBehind
        (λ c. only_gives (fitting c at size of)) }
{
    if size < TOO_MANY_CELLS {
        return Ok(of);
    }
    put!(refuse(site, at, Diagnostic::TooManyCells, &mut made.notes));
    Ok(BROKEN)
}
