//! What is counted of a unit.
ghost use Rattle.std.specs.Prelude.{◌≡◌, ◌≤◌, IfOk, length, sum_by};
ghost use Rattle.m2_base.specs.Units.{IsUnit};
ghost use Rattle.object_file.specs.Contents.{object_bytes};
ghost use Rattle.module_outcome.specs.Counts.{code_of, tokens_of as spec_tokens};

use m2_base::{Memory, ProcCode, Texts};
use object_file::{Object, write_object};
use std::alloc::Global;

/// How many tokens the texts of a unit have.
pub fn tokens_of(texts: &Texts) -> usize
    ensures tokens { result ≡ spec_tokens texts.now }
    ensures unit { IsUnit texts.now }
{
    let _main = texts.main();
    texts.list.iter().map(|text| text.tokens.len()).sum()
}

/// How many bytes the code of the procedures has, which are no more than fit into memory.
fn code_bytes(procedures: &[ProcCode], most: usize) -> usize
    requires { sum_by (λ p. length p.code.items) procedures.now ≤ most }
    ensures { result ≡ sum_by (λ p. length p.code.items) procedures.now }
{
    procedures
        .iter()
        .map(|procedure| procedure.code.len())
        .sum()
}

/// How many bytes the code of an object's procedures has, and how many the object.
pub fn sizes_of(alloc: Global, object: &Object) -> Result<(usize, usize), Memory>
    ensures code { IfOk result (λ sizes. sizes.0 ≡ code_of object.now) }
    ensures object { IfOk result (λ sizes. sizes.1 ≡ length (object_bytes object.now)) }
{
    let bytes = write_object(alloc, object)?;
    Ok((code_bytes(object.procedures(), bytes.len()), bytes.len()))
}
