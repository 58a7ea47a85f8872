//! Whether a jump lands, and level; and whether the greatest height is told.
ghost use Rattle.std.specs.Prelude.{◌≡◌, pos, ◌-ℤ◌};
ghost use Rattle.code_form.specs.Valid.{same_height};
ghost use Rattle.object_file.specs.Firsts.{is_landing, is_landing_level};
ghost use Rattle.object_file.specs.Points.{point_of, AreMarks, OfPoints};
ghost use Rattle.object_file.specs.Views.{procedure_of, world_in};

use crate::flow::jump_of;
use crate::parts::Parts;
use crate::point::{Place, Point};
use crate::survey::Survey;
use crate::targets::target;
use m2_base::ProcCode;

/// A jump goes to an instruction.
pub(crate) fn lands(parts: &Parts, own: &ProcCode, marks: &[Place], point: &Point) -> bool
    requires { AreMarks (world_in parts.now) (procedure_of own.now) marks.now }
    ensures { OfPoints (world_in parts.now) (procedure_of own.now)
        (λ all. result ≡ is_landing all (point_of point.now)) }
{
    match jump_of(&point.instr) {
        None => true,
        Some((distance, _)) => target(parts, own, marks, point.end, distance).is_some(),
    }
}

/// The height with this much gone is that of the other place.
fn agree(point: &Point, gone: u32, other: Place) -> bool
    ensures { result ≡ same_height (point.now.height -ℤ pos gone) other.height }
{
    point.height - gone as i128 == other.height
}

/// After a jump the height is that at its target.
pub(crate) fn lands_level(parts: &Parts, own: &ProcCode, marks: &[Place], point: &Point) -> bool
    requires { AreMarks (world_in parts.now) (procedure_of own.now) marks.now }
    ensures { OfPoints (world_in parts.now) (procedure_of own.now)
        (λ all. result ≡ is_landing_level all (point_of point.now)) }
{
    match jump_of(&point.instr) {
        None => true,
        Some((distance, gone)) => {
            match target(parts, own, marks, point.end, distance) {
                Some(other) => agree(point, gone, other),
                None => false,
            }
        }
    }
}

/// The greatest height is this one.
pub(crate) fn is_high(survey: &Survey, high: u32) -> bool
    ensures { result ≡ same_height survey.now.highest (pos high) }
{
    survey.highest == high as i128
}
