//! What a walk over a code finds wherever its jumps go.
ghost use Rattle.std.specs.Prelude.{◌≡◌, is_some};
ghost use Rattle.code_form.specs.Valid.{jump_of as spec_jump, same_height, returns_all as spec_returns};
ghost use Rattle.object_file.specs.Firsts.{kept as spec_kept, first_jump as spec_first, is_named as spec_named};
ghost use Rattle.object_file.specs.Firsts.{is_stocked as spec_stocked};
ghost use Rattle.object_file.specs.Links.{AreLinksOf};
ghost use Rattle.object_file.specs.Points.{point_of};
ghost use Rattle.object_file.specs.Views.{procedure_of, world_in};

use crate::flow::{is_end, jumps};
use crate::links::Links;
use crate::naming::names_what_is_there;
use crate::parts::Parts;
use crate::point::{Place, Point};
use code_form::Instr;
use m2_base::ProcCode;

/// The first places where something is, as far as the walk has come.
#[derive(Clone, Copy)]
pub(crate) struct Findings {
    /// Where operands name what isn't there, or the code ends without an end.
    pub(crate) wrong: Option<usize>,
    /// Where less is on the stack than is taken, or more than a return takes.
    pub(crate) low: Option<usize>,
    /// Where an instruction jumps.
    pub(crate) jump: Option<Place>,
}

fn same(x: i128, y: i128) -> bool
    ensures { result ≡ same_height x y }
{
    x == y
}

/// The operands name what is there, and the last instruction ends.
#[inline(always)]
fn is_named(parts: &Parts, links: &Links, k: u32, own: &ProcCode, point: &Point) -> bool
    requires { AreLinksOf (world_in parts.now) links.now }
    ensures { result ≡ spec_named (world_in parts.now) k (procedure_of own.now) (point_of point.now) }
{
    names_what_is_there(parts, links, k, own, &point.instr)
        && (point.end < own.code.len() || is_end(&point.instr))
}

/// What a return finds is the result alone.
fn returns_all(point: &Point) -> bool
    ensures { result ≡ spec_returns point.now.instr point.now.height point.now.takes }
{
    match point.instr {
        Instr::Return => same(point.height, point.takes as i128),
        _ => true,
    }
}

/// The height has what the instruction takes, and a return takes all of it.
#[inline(always)]
fn is_stocked(point: &Point) -> bool
    ensures { result ≡ spec_stocked (point_of point.now) }
{
    point.takes as i128 <= point.height && returns_all(point)
}

/// The first place that failed, where the next passes or fails.
#[inline(always)]
pub(crate) fn kept(known: Option<usize>, passes: bool, at: usize) -> Option<usize>
    ensures { result ≡ spec_kept known passes at }
{
    match known {
        Some(n) => Some(n),
        None => { if passes { None } else { Some(at) } }
    }
}

fn first_jump(known: Option<Place>, jumps: bool, here: Place) -> Option<Place>
    ensures { result ≡ spec_first known jumps here }
{
    match known {
        Some(place) => Some(place),
        None => { if jumps { Some(here) } else { None } }
    }
}

/// What is found with one instruction more, which begins at this place.
#[inline(always)]
pub(crate) fn with(
    found: Findings,
    parts: &Parts,
    links: &Links,
    k: u32,
    own: &ProcCode,
    here: Place,
    point: &Point,
) -> Findings
    requires { AreLinksOf (world_in parts.now) links.now }
    ensures wrong { result.wrong ≡ spec_kept found.wrong
        (spec_named (world_in parts.now) k (procedure_of own.now) (point_of point.now)) point.now.at }
    ensures low { result.low ≡ spec_kept found.low (spec_stocked (point_of point.now)) point.now.at }
    ensures jump { result.jump ≡ spec_first found.jump (is_some (spec_jump point.now.instr)) here }
{
    Findings {
        wrong: kept(found.wrong, is_named(parts, links, k, own, point), point.at),
        low: kept(found.low, is_stocked(point), point.at),
        jump: first_jump(found.jump, jumps(&point.instr), here),
    }
}
