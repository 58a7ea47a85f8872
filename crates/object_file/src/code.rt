//! Whether a procedure's code is valid.
ghost use Rattle.object_file.specs.Links.{AreLinksOf};
ghost use Rattle.object_file.specs.Points.{Tells};
ghost use Rattle.object_file.specs.Views.{procedure_of, world_in};

use crate::fault::CodeFault;
use crate::jumps::{earlier, jump_faults};
use crate::levels::is_high;
use crate::links::Links;
use crate::parts::Parts;
use crate::survey::survey_of;
use m2_base::ProcCode;
use std::alloc::Global;

/// The code of procedure k is valid, or this is its first fault.
pub(crate) fn check(
    alloc: Global,
    parts: &Parts,
    links: &Links,
    k: u32,
    own: &ProcCode,
) -> Result<(), CodeFault>
    requires { AreLinksOf (world_in parts.now) links.now }
    ensures { Tells (world_in parts.now) k (procedure_of own.now) result }
{
    let survey = survey_of(alloc, parts, links, k, own)?;
    if own.code.is_empty() {
        return Err(CodeFault::InCode(0, 6));
    }
    let jumps = jump_faults(parts, own, &survey.marks, survey.jumps);
    if let Some(at) = earlier(survey.found.wrong, jumps.nowhere) {
        return Err(CodeFault::InCode(at, 6));
    }
    if let Some(at) = earlier(survey.found.low, jumps.uneven) {
        return Err(CodeFault::InCode(at, 7));
    }
    if !is_high(&survey, own.high) {
        return Err(CodeFault::OfHigh);
    }
    Ok(())
}
