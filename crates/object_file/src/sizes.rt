//! How many bytes procedures take, and where their code is at fault.
ghost use Rattle.std.specs.Prelude.{◌≡◌, ◌+◌, ◌<◌, ◌^◌, length, map, flat_map};
ghost use Rattle.object_file.specs.Contents.{procedure_bytes, body_bytes};
ghost use Rattle.object_file.specs.Links.{OutersBelow};
ghost use Rattle.object_file.specs.Telling.{stop_of, TellsAll};
ghost use Rattle.object_file.specs.Views.{procedure_of, world_in};

use crate::code::check;
use crate::fault::{CodeFault, Stop};
use crate::links::Links;
use crate::parts::Parts;
use m2_base::ProcCode;
use std::alloc::Global;

/// The bytes of a procedure from the greatest height on.
#[tactic(auto, using(crate::proofs::Lengths::body_length))]
fn body_size(own: &ProcCode) -> usize
    requires { length (body_bytes (procedure_of own.now)) < 2 ^ 63 }
    ensures { result ≡ length (body_bytes (procedure_of own.now)) }
{
    12 + own.bytes.len() + own.code.len()
}

/// The bytes of a procedure.
#[tactic(auto, using(crate::proofs::Lengths::procedure_length))]
fn size(own: &ProcCode) -> usize
    requires { length (procedure_bytes (procedure_of own.now)) < 2 ^ 63 }
    ensures { result ≡ length (procedure_bytes (procedure_of own.now)) }
{
    16 + body_size(own)
}

/// The bytes of procedures.
pub(crate) fn sizes(procedures: &[ProcCode]) -> usize
    requires { length (flat_map procedure_bytes (map procedure_of procedures.now)) < 2 ^ 63 }
    ensures { result ≡ length (flat_map procedure_bytes (map procedure_of procedures.now)) }
{
    let mut total = 0;
    for own in procedures {
        total += size(own);
    }
    total
}

/// The place of a code's fault in the file, if so many bytes follow the procedure.
fn stop(fault: CodeFault, own: &ProcCode, behind: usize) -> Stop
    requires { length (body_bytes (procedure_of own.now)) + behind < 2 ^ 63 }
    ensures { result ≡ stop_of fault (procedure_of own.now) behind }
{
    match fault {
        CodeFault::Memory => Stop::Memory,
        CodeFault::InCode(at, code) => Stop::Bad(own.code.len().saturating_sub(at) + behind, code),
        CodeFault::OfHigh => Stop::Bad(body_size(own) + behind, 8),
    }
}

/// The code of all procedures is valid, or this is the first fault. They take so many bytes.
pub(crate) fn check_all(alloc: Global, parts: &Parts, size_of_all: usize) -> Result<(), Stop>
    requires size { size_of_all ≡ length (flat_map procedure_bytes (map procedure_of parts.now.procedures.items)) }
    requires few { length parts.now.procedures.items < 2 ^ 32 }
    requires short { size_of_all < 2 ^ 63 }
    requires outers { OutersBelow (world_in parts.now) }
    ensures { TellsAll (world_in parts.now) 0 (map procedure_of parts.now.procedures.items) result }
{
    let links = Links::new(alloc, parts)?;
    let procedures = parts.procedures.as_slice();
    let mut behind = size_of_all;
    for k in 0..procedures.len() {
        let own = &procedures[k];
        behind -= size(own);
        if let Err(fault) = check(alloc, parts, &links, k as u32, own) {
            return Err(stop(fault, own, behind));
        }
    }
    Ok(())
}
