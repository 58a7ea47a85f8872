//! Running.
ghost use Rattle.std.specs.Prelude.{◌≡◌, ◌⊎◌, ◌<◌, ◌≤◌, IfOk, IfSome, IsErrOf, OnErr, Some, length};
ghost use Rattle.m2_io.specs.Causes.{Rose};
ghost use Rattle.stack_machine.specs.Machines.{TrapsWithin};
ghost use Rattle.object_commands.specs.Outcomes.{Leaves, LeavesPart, ReadsPart};
ghost use Rattle.object_commands.specs.Runs.{Finishes, FinishesPart, HasCode, Runs, RunsProgram};

use crate::answer::{Answer, Stop};
use crate::failure::print_failure;
use crate::lines::{Site, cells_line, trap_line};
use m2_io::{Shelf, Sink, Source, write_all};
use object_file::Program;
use program_load::load;
use stack_machine::{End, Machine, StartFault};
use std::alloc::Global;

/// Which module is run, in how many steps at most, and with how many cells.
#[derive(Clone, Copy, Drop)]
pub struct Settings<'a> {
    pub name: &'a str,
    pub steps: u64,
    pub cells: u32,
}

/// Prints what is said of how a program ran.
fn finish<P: Sink>(
    alloc: Global,
    machine: &Machine,
    end: End,
    print: &mut P,
) -> Result<Answer, Stop>
    requires within { TrapsWithin end (length machine.now.objects) }
    ensures finishes { HasCode end
        → IfOk result (λ answer. Finishes machine.now.objects end answer (P.written print.old) (P.written print.new)) }
    ensures part { OnErr result (FinishesPart machine.now.objects end (P.written print.old) (P.written print.new)) }
    ensures read { IsErrOf result Stop.Read → end ≡ End.ReadFailed }
    ensures write { IsErrOf result Stop.Write
        → (end ≡ End.WriteFailed) ⊎ Rose (P.faults print.old) (P.faults print.new) }
    ensures later { P.faults print.old ≤ P.faults print.new }
{
    match end {
        End::Halted => Ok(Answer::Done),
        End::StepsSpent => {
            write_all(print, b"steps spent\n")?;
            Ok(Answer::StepsSpent)
        }
        End::Trapped {
            code,
            module,
            procedure,
            offset,
        } => {
            let site = Site {
                name: machine.module_name(module),
                procedure,
                offset,
            };
            let line = trap_line(alloc, code, &site)?;
            write_all(print, &line)?;
            Ok(Answer::Trapped)
        }
        End::ReadFailed => Err(Stop::Read),
        End::WriteFailed => Err(Stop::Write),
    }
}

/// Runs a program.
#[tactic(auto, using(crate::proofs::Rears::nothing_read))]
fn run_program<P: Sink, K: Source>(
    alloc: Global,
    settings: &Settings,
    program: Program,
    print: &mut P,
    keys: &mut K,
) -> Result<Answer, Stop>
    requires { 0 < settings.now.cells }
    ensures leaves { IfOk result
        (λ answer. IfSome (K.left keys.old) (λ input. Leaves (RunsProgram program settings.now.steps settings.now.cells
        input) answer (P.written print.old) (P.written print.new) (K.left keys.new))) }
    ensures part { OnErr result (IfSome (K.left keys.old) (λ input. LeavesPart (RunsProgram program settings.now.steps
        settings.now.cells input) (P.written print.old) (P.written print.new))) }
    ensures left { IfSome (K.left keys.old) (λ input. ReadsPart input (K.left keys.new)) }
    ensures read { IsErrOf result Stop.Read → Rose (K.faults keys.old) (K.faults keys.new) }
    ensures write { IsErrOf result Stop.Write → Rose (P.faults print.old) (P.faults print.new) }
    ensures later { P.faults print.old ≤ P.faults print.new }
{
    match Machine::new(alloc, program, settings.cells) {
        Ok(mut machine) => {
            let end = machine.run(settings.steps, print, keys);
            finish(alloc, &machine, end, print)
        }
        Err(StartFault::NoRoom) => {
            let line = cells_line(alloc, settings.cells)?;
            write_all(print, &line)?;
            Ok(Answer::OverLimit)
        }
        Err(StartFault::Memory) => Err(Stop::Memory),
    }
}

/// Runs the program of a module: what it prints goes to the sink as it comes,
/// and it reads from the source no further than it asks.
#[tactic(auto, using(crate::proofs::Rears::nothing_read))]
pub fn run<H: Shelf, P: Sink, K: Source>(
    alloc: Global,
    settings: &Settings,
    shelf: &mut H,
    print: &mut P,
    keys: &mut K,
) -> Result<Answer, Stop>
    requires { 0 < settings.now.cells }
    ensures leaves { IfOk result (λ answer. IfSome (K.left keys.old)
        (λ input. Leaves (Runs (H.holds shelf.old) settings.now.name.now settings.now.steps settings.now.cells input)
        answer (P.written print.old) (P.written print.new) (K.left keys.new))) }
    // After a fault a front of it was printed.
    ensures part { OnErr result (IfSome (H.holds shelf.old)
        (λ files. IfSome (K.left keys.old) (λ input. LeavesPart (Runs (Some files) settings.now.name.now
        settings.now.steps settings.now.cells input) (P.written print.old) (P.written print.new)))) }
    // However it ends, a front of the input was read.
    ensures left { IfSome (K.left keys.old) (λ input. ReadsPart input (K.left keys.new)) }
    ensures read { IsErrOf result Stop.Read
        → Rose (H.faults shelf.old) (H.faults shelf.new) ⊎ Rose (K.faults keys.old) (K.faults keys.new) }
    ensures write { IsErrOf result Stop.Write → Rose (P.faults print.old) (P.faults print.new) }
    ensures later { P.faults print.old ≤ P.faults print.new }
    // The shelf stays as it is.
    ensures holds { H.holds shelf.new ≡ H.holds shelf.old }
    ensures put_faults { H.put_faults shelf.new ≡ H.put_faults shelf.old }
{
    match load(alloc, shelf, settings.name) {
        Ok(program) => run_program(alloc, settings, program, print, keys),
        Err(fault) => print_failure(alloc, settings.name, &fault, print),
    }
}
