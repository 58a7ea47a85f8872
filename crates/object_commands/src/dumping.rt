//! Dumping.
ghost use Rattle.std.specs.Prelude.{◌≡◌, ◌≤◌, IfOk, IfSome, IsErrOf, OnErr, Some};
ghost use Rattle.m2_io.specs.Causes.{Rose};
ghost use Rattle.object_commands.specs.Dumps.{Dumps};
ghost use Rattle.object_commands.specs.Outcomes.{Prints, PrintsPart};

use crate::answer::{Answer, Stop};
use crate::failure::print_failure;
use m2_io::{Shelf, Sink};
use object_file::Object;
use object_text::print_object;
use program_load::load_object;
use std::alloc::Global;

/// Prints the object of a module in words.
pub fn dump<H: Shelf, P: Sink>(
    alloc: Global,
    name: &str,
    shelf: &mut H,
    print: &mut P,
) -> Result<Answer, Stop>
    ensures prints { IfOk result
        (λ answer. Prints (Dumps (H.holds shelf.old) name.now) answer (P.written print.old) (P.written print.new)) }
    // After a fault a front of it was printed.
    ensures part { OnErr result (IfSome (H.holds shelf.old)
        (λ files. PrintsPart (Dumps (Some files) name.now) (P.written print.old) (P.written print.new))) }
    ensures read { IsErrOf result Stop.Read → Rose (H.faults shelf.old) (H.faults shelf.new) }
    ensures write { IsErrOf result Stop.Write → Rose (P.faults print.old) (P.faults print.new) }
    ensures later { P.faults print.old ≤ P.faults print.new }
    // The shelf stays as it is.
    ensures holds { H.holds shelf.new ≡ H.holds shelf.old }
    ensures put_faults { H.put_faults shelf.new ≡ H.put_faults shelf.old }
{
    match load_object(alloc, shelf, name) {
        Ok(object) => {
            print_object(alloc, &object, print)?;
            Ok(Answer::Done)
        }
        Err(fault) => print_failure(alloc, name, &fault, print),
    }
}
