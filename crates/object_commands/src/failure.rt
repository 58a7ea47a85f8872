//! What is said where there is no program.
ghost use Rattle.std.specs.Prelude.{◌≡◌, ◌≤◌, Some, IfErr, IfOk, IfSome, IsErrOf, OnErr};
ghost use Rattle.m2_io.specs.Causes.{Rose};
ghost use Rattle.program_load.specs.Answers.{refusal_told, told};
ghost use Rattle.object_commands.specs.Failures.{failure_answer, line_told, Says, SaysPart};

use crate::answer::{Answer, Stop};
use crate::lines::{broken_line, named_line, no_object_line};
use m2_io::{Sink, write_all};
use m2_link::LinkFault;
use program_load::LoadFault;
use std::alloc::Global;

/// The line that says why objects aren't linked.
fn refusal_line(alloc: Global, main: &str, fault: &LinkFault) -> Result<Vec<u8>, Stop>
    ensures line { IfOk result (λ text. line_told main.now (LoadFault.Refused fault.now) ≡ Some text.items) }
    ensures stop { IfErr result (λ stop. stop ≡ Stop.Memory) }
{
    match fault {
        LinkFault::Twice(name) => Ok(named_line(alloc, b"link twice ", name)?),
        LinkFault::Missing(name) => Ok(named_line(alloc, b"link missing ", name)?),
        LinkFault::KeyDiffers(name) => Ok(named_line(alloc, b"link key differs ", name)?),
        LinkFault::Memory => Err(Stop::Memory),
    }
}

/// The line that says why there is no program.
fn failure_line(alloc: Global, main: &str, fault: &LoadFault) -> Result<Vec<u8>, Stop>
    ensures line { IfOk result (λ text. line_told main.now fault.now ≡ Some text.items) }
    ensures read { IsErrOf result Stop.Read → fault.now ≡ LoadFault.Read }
    ensures no_write { IsErrOf result Stop.Write → ⊥ }
{
    match fault {
        LoadFault::NoObject => Ok(no_object_line(alloc, main)?),
        LoadFault::TooLong => Ok(b"limit object bytes 67108864\n".to_vec(alloc)?),
        LoadFault::TooMany => Ok(b"limit objects 256\n".to_vec(alloc)?),
        LoadFault::Bad { name, offset, code } => Ok(broken_line(alloc, name, *offset, *code)?),
        LoadFault::Refused(fault) => refusal_line(alloc, main, fault),
        LoadFault::Read => Err(Stop::Read),
        LoadFault::Memory => Err(Stop::Memory),
    }
}

/// The answer where objects aren't linked.
fn answer_to_refusal(fault: &LinkFault) -> Answer
    ensures { IfSome (refusal_told fault.now) (λ f. result ≡ failure_answer f) }
{
    match fault {
        LinkFault::Twice(_) => Answer::BadObjects,
        LinkFault::Missing(_) => Answer::BadObjects,
        LinkFault::KeyDiffers(_) => Answer::BadObjects,
        LinkFault::Memory => Answer::BadObjects,
    }
}

/// The answer where there is no program.
fn answer_to(fault: &LoadFault) -> Answer
    ensures { IfSome (told fault.now) (λ f. result ≡ failure_answer f) }
{
    match fault {
        LoadFault::NoObject => Answer::NoObject,
        LoadFault::TooLong => Answer::OverLimit,
        LoadFault::TooMany => Answer::OverLimit,
        LoadFault::Bad { .. } => Answer::BadObjects,
        LoadFault::Refused(fault) => answer_to_refusal(fault),
        LoadFault::Read => Answer::NoObject,
        LoadFault::Memory => Answer::NoObject,
    }
}

/// Prints why there is no program of the module `main`.
pub fn print_failure<P: Sink>(
    alloc: Global,
    main: &str,
    fault: &LoadFault,
    print: &mut P,
) -> Result<Answer, Stop>
    ensures says { IfOk result (λ answer. Says main.now fault.now answer (P.written print.old) (P.written print.new)) }
    ensures part { OnErr result (SaysPart main.now fault.now (P.written print.old) (P.written print.new)) }
    ensures read { IsErrOf result Stop.Read → fault.now ≡ LoadFault.Read }
    ensures write { IsErrOf result Stop.Write → Rose (P.faults print.old) (P.faults print.new) }
    ensures later { P.faults print.old ≤ P.faults print.new }
{
    let line = failure_line(alloc, main, fault)?;
    write_all(print, &line)?;
    Ok(answer_to(fault))
}
