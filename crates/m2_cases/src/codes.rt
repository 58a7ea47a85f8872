//! The code of an object's procedures.
use crate::case::Case;
use crate::escapes::{bytes_of, digits_of};
use anyhow::{Context, Result};
use code_form::{decode, encode};
use m2_base::ProcCode;
use object_file::read_object;
use std::alloc::Global;
use std::fmt::Write;

/// Code, once it was decoded and encoded again.
fn recoded(alloc: Global, code: &[u8]) -> Result<Vec<u8>> {
    let mut out = Vec::new(alloc);
    let mut at = 0;
    for _ in 0..code.len() {
        if at >= code.len() {
            break;
        }
        let (instr, after) = decode(code, at).context("no instruction")?;
        encode(&instr, &mut out).ok().context("out of memory")?;
        at = after;
    }
    Ok(out)
}

/// Writes what an object says of a procedure: its cells, its greatest height, its data or a dash, and its code.
fn write_procedure(alloc: Global, lines: &mut String, procedure: &ProcCode) -> Result<()> {
    let mut data = digits_of(alloc, &procedure.bytes)?;
    if data.is_empty() {
        data.push('-')?;
    }
    let code = digits_of(alloc, &recoded(alloc, &procedure.code)?)?;
    writeln!(
        lines,
        "{} {} {data} {code}",
        procedure.locals, procedure.high
    )?;
    Ok(())
}

pub fn answer(alloc: Global, case: &Case) -> Result<Option<String>> {
    let Some(digits) = case.first("object") else {
        return Ok(None);
    };
    let object = read_object(alloc, &bytes_of(alloc, digits)?)?;
    let mut lines = String::new(alloc);
    for procedure in object.procedures() {
        write_procedure(alloc, &mut lines, procedure)?;
    }
    Ok(Some(lines))
}
