//! Where jumps go.
ghost use Rattle.std.specs.Prelude.{◌≡◌, ◌≢◌, ◌<◌, ◌≤◌, ◌+ℤ◌, ℕ, pos, slice_get, ◌^◌, IfSome, IfNone};
ghost use Rattle.std.specs.Option.{option_map};
ghost use Rattle.object_file.specs.Points.{AreMarks, IsKnown, OfPoints};
ghost use Rattle.object_file.specs.Targets.{height_at};
ghost use Rattle.object_file.specs.Views.{procedure_of, world_in};

use crate::parts::Parts;
use crate::point::Place;
use crate::survey::SPACING;
use crate::walk::{behind, first, point_at};
use m2_base::ProcCode;

fn mark(marks: &[Place], k: usize) -> Option<Place>
    ensures { result ≡ slice_get marks.now k }
{
    marks.get(k).copied()
}

/// A place that is known to be no further than this one.
fn start(marks: &[Place], to: usize) -> Place
    ensures before { result.at ≤ to }
    ensures known { IsKnown marks.now result }
{
    match mark(marks, to / SPACING) {
        Some(place) if place.at <= to => place,
        _ => first(),
    }
}

/// This place, if an instruction begins there.
fn place_at(parts: &Parts, own: &ProcCode, marks: &[Place], to: usize) -> Option<Place>
    requires { AreMarks (world_in parts.now) (procedure_of own.now) marks.now }
    ensures { OfPoints (world_in parts.now) (procedure_of own.now)
        (λ all. option_map (λ m. m.height) result ≡ height_at all (pos to)) }
{
    let mut place = start(marks, to);
    while place.at < to {
        let Some(point) = point_at(parts, own, place) else {
            return None;
        };
        place = behind(&point);
    }
    if to < place.at {
        return None;
    }
    if own.code.len() <= to {
        return None;
    }
    Some(place)
}

/// The place so many bytes behind another, or before it.
fn place_of(end: usize, distance: i32) -> Option<usize>
    ensures some { IfSome result (λ to. pos end +ℤ distance ≡ pos to) }
    ensures none { IfNone result ((n : ℕ) → n < 2 ^ 64 → pos end +ℤ distance ≢ pos n) }
{
    end.checked_add_signed(distance as isize)
}

/// The place so many bytes behind this one, or before it, if an instruction begins there.
pub(crate) fn target(
    parts: &Parts,
    own: &ProcCode,
    marks: &[Place],
    end: usize,
    distance: i32,
) -> Option<Place>
    requires { AreMarks (world_in parts.now) (procedure_of own.now) marks.now }
    ensures { OfPoints (world_in parts.now) (procedure_of own.now)
        (λ all. option_map (λ m. m.height) result ≡ height_at all (pos end +ℤ distance)) }
{
    let Some(to) = place_of(end, distance) else {
        return None;
    };
    place_at(parts, own, marks, to)
}
