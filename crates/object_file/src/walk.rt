//! A walk over a code, from each instruction to the next.
ghost use Rattle.std.specs.Prelude.{◌≡◌, ◌≤◌, ℕ, List, pos, length, drop, IfSome, IfNone};
ghost use Rattle.code_form.specs.declared.instr.Instr.{Instr as InstrOf};
ghost use Rattle.code_form.specs.Bytes.{BeginsWith};
ghost use Rattle.code_form.specs.Valid.{height_behind};
ghost use Rattle.object_file.specs.Points.{point_of, IsPointAt};
ghost use Rattle.object_file.specs.Views.{procedure_of, world_in};

use crate::naming::step;
use crate::parts::Parts;
use crate::point::{Place, Point};
use code_form::decode;
use m2_base::ProcCode;

/// Where a code begins.
pub(crate) fn first() -> Place
    ensures at { result.at ≡ 0 }
    ensures height { result.height ≡ pos 0 }
{
    Place { at: 0, height: 0 }
}

/// The instruction that begins at a place of a procedure's code.
#[inline(always)]
pub(crate) fn point_at(parts: &Parts, own: &ProcCode, place: Place) -> Option<Point>
    requires { place.at ≤ length own.now.code.items }
    ensures found { IfSome result
        (λ q. IsPointAt (world_in parts.now) (procedure_of own.now) place.at place.height q) }
    ensures none { IfNone result
        ((i : InstrOf) (rest : List ℕ) → BeginsWith (drop place.at own.now.code.items) i rest → ⊥) }
{
    let (instr, end) = decode(&own.code, place.at)?;
    let (takes, leaves) = step(parts, own, &instr);
    Some(Point {
        at: place.at,
        end,
        height: place.height,
        takes,
        leaves,
        instr,
    })
}

/// The place behind an instruction.
#[inline(always)]
pub(crate) fn behind(point: &Point) -> Place
    ensures at { result.at ≡ point.now.end }
    ensures height { result.height ≡ height_behind (point_of point.now) }
{
    Place {
        at: point.end,
        height: point.height - point.takes as i128 + point.leaves as i128,
    }
}
