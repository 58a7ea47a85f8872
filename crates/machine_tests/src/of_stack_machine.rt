//! Runs in pieces, and runs in which a call of the sink or the source fails.
mod worked;

use self::worked::{SUMS, WORDS, Worked};
use m2_io::{MemSink, MemSource};
use object_file::{Program, read_object};
use stack_machine::{End, Machine};
use std::alloc::Global;
use std::test::Fail;

/// No call of a sink or a source has this number.
const NEVER: u32 = 1000;

/// The machine of a program, before its first step.
fn machine(alloc: Global, worked: &Worked) -> Result<Machine, Fail> {
    let object = read_object(alloc, worked.object).ok().ok_or("no object")?;
    let program = Program::single(alloc, object).ok().ok_or("no program")?;
    let machine = Machine::new(alloc, program, 1000).ok().ok_or("no machine")?;
    Ok(machine)
}

/// Runs a machine with so many steps at a time until it ends.
fn end_of(machine: &mut Machine, steps: u64, print: &mut MemSink, keys: &mut MemSource) -> End {
    for _ in 0..1000 {
        let end = machine.run(steps, print, keys);
        if end != End::StepsSpent {
            return end;
        }
    }
    End::StepsSpent
}

/// How a program ends that makes so many steps at a time, and its sink, which takes a byte at a time. The calls of the
/// sink and the source with these numbers fail.
fn ended(
    alloc: Global,
    worked: &Worked,
    steps: u64,
    (write, read): (u32, u32),
) -> Result<(End, MemSink), Fail> {
    let mut machine = machine(alloc, worked)?;
    let mut print = MemSink::new(alloc, [write].to_vec(alloc)?, 1, 4096)?;
    let mut keys = MemSource::new(worked.input.to_vec(alloc)?, [read].to_vec(alloc)?);
    let end = end_of(&mut machine, steps, &mut print, &mut keys);
    Ok((end, print))
}

/// A machine whose steps are spent goes on where it stood.
#[test]
fn programs_run_in_pieces(rt: HostRuntime) -> Result<(), Fail> {
    for steps in [1, 2, 7] {
        for worked in [&SUMS, &WORDS] {
            let (end, print) = ended(rt.alloc(), worked, steps, (NEVER, NEVER))?;
            assert!(rt; end == End::Halted, "in pieces of {steps}");
            assert!(rt; print.bytes() == worked.printed, "in pieces of {steps}");
        }
    }
    Ok(())
}

/// What is printed before is a front of all.
#[test]
fn a_sink_fails_at_each_byte(rt: HostRuntime) -> Result<(), Fail> {
    for k in 0..WORDS.printed.len() {
        let (end, print) = ended(rt.alloc(), &WORDS, 1000, (k as u32 + 1, NEVER))?;
        assert!(rt; end == End::WriteFailed, "at byte {k}");
        assert!(rt; print.bytes() == &WORDS.printed[..k], "at byte {k}");
    }
    Ok(())
}

/// It reads six times.
#[test]
fn a_source_fails_at_each_call(rt: HostRuntime) -> Result<(), Fail> {
    for k in 1..=6 {
        let (end, print) = ended(rt.alloc(), &SUMS, 1000, (NEVER, k))?;
        assert!(rt; end == End::ReadFailed, "at call {k}");
        assert!(rt; print.bytes().is_empty(), "at call {k}");
    }
    let (end, _print) = ended(rt.alloc(), &SUMS, 1000, (NEVER, 7))?;
    assert!(rt; end == End::Halted);
    Ok(())
}
