//! The rows of a set, and the types that its base may be.
ghost use Rattle.std.specs.Prelude.{◌≡◌, ◌∷◌, [], option_map, if◌then◌else◌};
ghost use Rattle.m2_base.specs.Gives.{gives};
ghost use Rattle.m2_base.specs.Rows.{set_kind};
ghost use Rattle.m2_base.specs.Standard.{broken};
ghost use Rattle.m2_base.specs.States.{State};
ghost use Rattle.m2_base.specs.Statics.Arrays.{checked_base as spec_base, is_set_range as spec_is_set_range};
ghost use Rattle.m2_base.specs.Statics.Contexts.{refuse as refuses};
ghost use Rattle.m2_base.specs.Statics.Diagnostics.{wrong_index};
ghost use Rattle.m2_base.specs.Statics.Makes.{make_then, makes_row, only_gives};
ghost use Rattle.m2_base.specs.Statics.Ranges.{range};
ghost use Rattle.m2_base.specs.Statics.Shapes.{nameless};
ghost use Rattle.m2_base.specs.declared.rows.RowMeaning.TheVariants as meanings;
ghost use Rattle.decl_sem.specs.Making.{next_ordinal};
ghost use Rattle.decl_sem.specs.Pieces.{Declares, IsBehind, IsMaking, known_of};
ghost use Rattle.decl_sem.specs.Stood.{may_be_base as spec_may_be_base};

use crate::making::{Made, put_plain};
use crate::names::refuse;
use crate::standing::stand_in;
use m2_base::{Ask, Diagnostic, GREATEST_ELEMENT, Memory, Place, RowMeaning, Scopes, Site};
use type_rules::{BROKEN, range_by};

/// Whether a range lies within that of a set's elements.
fn is_set_range(ends: Option<(i64, i64)>) -> bool
    ensures { result ≡ spec_is_set_range (option_map (λ ends. range ends.0 ends.1) ends) }
{
    match ends {
        Some((low, high)) => 0 <= low && high <= GREATEST_ELEMENT,
        None => false,
    }
}

/// Whether the base of a set may be this, or is in error.
fn may_be_base(stood: (Place, RowMeaning)) -> bool
    ensures { result ≡ spec_may_be_base stood }
{
    let fits = is_set_range(range_by(stood.1));
    stood.0 == BROKEN || fits
}

/// A type that is kept, or refused and then in error.
pub(crate) fn keep_or_refuse(
    site: &Site,
    at: u32,
    keep: bool,
    of: Place,
    made: &mut Made,
) -> Result<Place, Memory>
    ensures { (a : State) → IsMaking a.frame site.now made.old [] → IsBehind a.frame (next_ordinal made.old) of
        → Declares a a made.old made.new site.now (known_of result) [] IsBehind
        (λ c. only_gives (if keep then gives of else refuses c at wrong_index broken)) }
{
    if keep {
        return Ok(of);
    }
    put!(refuse(site, at, Diagnostic::WrongIndex, &mut made.notes));
    Ok(BROKEN)
}

/// The row of a set of this base, whose first token is given. The base is ordinal, within 0..31.
pub(crate) fn make_set<S: Scopes>(
    scopes: &mut S,
    site: &Site,
    at: u32,
    base_at: u32,
    of: Place,
    made: &mut Made,
) -> Result<Ask<Place>, Memory>
    requires making { IsMaking (S.state scopes.old).frame site.now made.old (nameless set_kind at ∷ []) }
    requires there { IsBehind (S.state scopes.old).frame (next_ordinal made.old) of }
    ensures { Declares (S.state scopes.old) (S.state scopes.new) made.old made.new site.now result
        (nameless set_kind at ∷ []) IsBehind
        (λ c. make_then c (only_gives (spec_base c base_at of)) (λ e base. makes_row e at (meanings.Set base))) }
{
    let stood = asked!(stand_in(scopes, site, made, of));
    let keep = may_be_base(stood);
    let base = put!(keep_or_refuse(site, base_at, keep, of, made));
    let set = put!(put_plain(site, made, at, RowMeaning::Set(base)));
    Ok(Ask::Known(set))
}
