//! Runs of programs of one object.
use crate::case::Case;
use crate::escapes::{bytes_of, escaped, unescaped};
use anyhow::{Context, Result, bail, ensure};
use m2_io::{MemSink, MemSource, Source};
use object_file::{Object, Program, ProgramFault, read_object};
use stack_machine::{End, Machine, StartFault};
use std::alloc::Global;

/// The most bytes that a run prints, and that are left of its input.
const ROOM: usize = 4096;

/// The number behind a mark.
fn number_of(case: &Case, mark: &str) -> Result<u64> {
    Ok(
        case.first(mark)
            .context("a run without its limits")?
            .parse()?,
    )
}

/// What stands within quotes behind the mark of the input.
fn input_of(alloc: Global, case: &Case) -> Result<Vec<u8>> {
    let quoted = case.first("input").context("no input")?;
    let inner = quoted
        .strip_prefix('"')
        .and_then(|rest| rest.strip_suffix('"'));
    unescaped(alloc, inner.context("no quotes")?)
}

/// How a run of the module with this name ended.
fn end_of(alloc: Global, name: &str, end: End) -> Result<String> {
    match end {
        End::Halted => Ok(String::from_str(alloc, "halted")?),
        End::StepsSpent => Ok(String::from_str(alloc, "steps spent")?),
        End::ReadFailed => bail!("a read failed"),
        End::WriteFailed => bail!("a write failed"),
        End::Trapped {
            code,
            module,
            procedure,
            offset,
        } => {
            ensure!(module == 0, "a trap in another module");
            Ok(format!(in alloc; "trap {code} in {name} procedure {procedure} at {offset}")?)
        }
    }
}

/// Runs a machine, and tells how it ends, what it has printed and what it has left of its input.
fn run(alloc: Global, machine: &mut Machine, name: &str, case: &Case) -> Result<String> {
    let print = MemSink::new(alloc, Vec::new(alloc), ROOM, ROOM);
    let mut print = print.ok().context("out of memory")?;
    let mut keys = MemSource::new(input_of(alloc, case)?, Vec::new(alloc));
    let end = machine.run(number_of(case, "steps")?, &mut print, &mut keys);
    let end = end_of(alloc, name, end)?;
    let printed = escaped(alloc, print.bytes())?;
    let mut buf = [0; ROOM];
    let count = keys.read(&mut buf).ok().context("a read failed")?;
    let left = escaped(alloc, &buf[..count])?;
    Ok(format!(in alloc; "{end}\nprinted \"{printed}\"\nleft \"{left}\"\n")?)
}

/// Runs an object that needs no other.
fn run_object(alloc: Global, object: Object, case: &Case) -> Result<Option<String>> {
    let name = escaped(alloc, object.name())?;
    let program = match Program::single(alloc, object) {
        Ok(program) => program,
        Err(ProgramFault::NeedsLink(_)) => return Ok(None),
        Err(ProgramFault::Memory) => bail!("out of memory"),
    };
    let cells = u32::try_from(number_of(case, "cells")?)?;
    ensure!(cells > 0, "no cells");
    match Machine::new(alloc, program, cells) {
        Ok(mut machine) => Ok(Some(run(alloc, &mut machine, &name, case)?)),
        Err(StartFault::NoRoom) => Ok(Some(format!(in alloc; "limit cells {cells}\n")?)),
        Err(StartFault::Memory) => bail!("out of memory"),
    }
}

/// What linking refuses isn't told yet, and several objects can't be run yet.
pub fn answer(alloc: Global, case: &Case) -> Result<Option<String>> {
    let objects = case.lines(alloc, "object")?;
    let Some((_file, digits)) = objects.trim_end().split_once(' ') else {
        return Ok(None);
    };
    let is_refused = case
        .first(">")
        .is_some_and(|told| told.starts_with("link "));
    if is_refused || digits.contains('\n') {
        return Ok(None);
    }
    let object = read_object(alloc, &bytes_of(alloc, digits)?)?;
    run_object(alloc, object, case)
}
