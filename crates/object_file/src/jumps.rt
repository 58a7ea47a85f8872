//! What is wrong with the jumps of a code.
ghost use Rattle.std.specs.Prelude.{◌≡◌};
ghost use Rattle.code_form.specs.Valid.{first_not};
ghost use Rattle.object_file.specs.Firsts.{kept as spec_kept, earlier as spec_earlier, is_landing, is_landing_level};
ghost use Rattle.object_file.specs.Firsts.{AreJumpsFrom};
ghost use Rattle.object_file.specs.Points.{AreMarks, OfPoints};
ghost use Rattle.object_file.specs.Views.{procedure_of, world_in};

use crate::findings::kept;
use crate::levels::{lands, lands_level};
use crate::parts::Parts;
use crate::point::Place;
use crate::walk::{behind, point_at};
use m2_base::ProcCode;

/// The places of the first jumps that are wrong.
#[derive(Clone, Copy)]
pub(crate) struct JumpFaults {
    /// That of the first jump which goes to no instruction.
    pub(crate) nowhere: Option<usize>,
    /// That of the first jump which goes to no instruction of its height.
    pub(crate) uneven: Option<usize>,
}

/// With one instruction more, which passes or fails.
fn with(faults: JumpFaults, lands: bool, level: bool, at: usize) -> JumpFaults
    ensures nowhere { result.nowhere ≡ spec_kept faults.nowhere lands at }
    ensures uneven { result.uneven ≡ spec_kept faults.uneven level at }
{
    JumpFaults {
        nowhere: kept(faults.nowhere, lands, at),
        uneven: kept(faults.uneven, level, at),
    }
}

/// Those of a code in which nothing jumps before this place.
pub(crate) fn jump_faults(parts: &Parts, own: &ProcCode, marks: &[Place], from: Place) -> JumpFaults
    requires marks { AreMarks (world_in parts.now) (procedure_of own.now) marks.now }
    requires from { AreJumpsFrom (world_in parts.now) (procedure_of own.now) from.at from.height }
    ensures nowhere { OfPoints (world_in parts.now) (procedure_of own.now)
        (λ all. result.nowhere ≡ first_not (is_landing all) all) }
    ensures uneven { OfPoints (world_in parts.now) (procedure_of own.now)
        (λ all. result.uneven ≡ first_not (is_landing_level all) all) }
{
    let mut faults = JumpFaults {
        nowhere: None,
        uneven: None,
    };
    let mut place = from;
    while let Some(point) = point_at(parts, own, place) {
        let lands = lands(parts, own, marks, &point);
        let level = lands_level(parts, own, marks, &point);
        faults = with(faults, lands, level, point.at);
        place = behind(&point);
    }
    faults
}

/// The earlier of two places.
pub(crate) fn earlier(x: Option<usize>, y: Option<usize>) -> Option<usize>
    ensures { result ≡ spec_earlier x y }
{
    match (x, y) {
        (None, _) => y,
        (Some(m), Some(n)) if n < m => Some(n),
        (Some(m), _) => Some(m),
    }
}
