//! Compiling.
ghost use Rattle.std.specs.Prelude.{◌≡◌, ◌↔◌, ◌⊎◌, ◌≤◌, ◌<◌, Some, IfOk, IfSome, IsErrOf, OnErr, length};
ghost use Rattle.m2_base.specs.Units.{IsIdentifier};
ghost use Rattle.m2_io.specs.Causes.{Rose};
ghost use Rattle.module_outcome.specs.Answers.{Comes};
ghost use Rattle.module_outcome.specs.declared.answer.Answer.{Answer as AnswerOf};
ghost use Rattle.module_outcome.specs.Outcome.{Compiles, HasObject, KeepsButObject, Leaves, PrintsPart};

use crate::judging::judge;
use m2_io::{Gate, Shelf, Sink};
use module_outcome::{Answer, Stop, deliver, one_outcome};
use std::alloc::Global;
use std::sync::Wait;
use std::thread::Threads;
use unit_workers::Crew;

/// Compiles the module of that name: reads its text and the definition modules that it rests on, and puts its object
/// on the shelf; or prints the listing of its diagnostics, which limit it passes, or that it has no text.
/// The crew works on the streams of its unit.
pub fn compile<R: Threads + Wait + Sync, G: Gate, H: Shelf, P: Sink>(
    crew: &Crew<R, G>,
    alloc: Global,
    name: &str,
    shelf: &mut H,
    print: &mut P,
) -> Result<Answer, Stop>
    requires named { IsIdentifier name.now }
    requires short { length name.now ≤ 1048576 }
    requires workers { (0 < crew.now.workers) × (crew.now.workers ≤ 64) }
    // The answer, what the shelf has then and what is printed are those of the definition;
    // and each answer comes exactly where that says so.
    ensures leaves { IfOk result (λ answer. Leaves (Compiles (H.holds shelf.old) name.now) answer (H.holds shelf.new)
        (P.written print.old) (P.written print.new)) }
    ensures answers { IfOk result
        (λ answer. IfSome (H.holds shelf.old) (λ files. (a : AnswerOf) → (answer ≡ a) ↔ Comes files name.now a)) }
    ensures object { IfOk result (λ answer. answer ≡ Answer.Done → IfSome (H.holds shelf.new) (HasObject name.now)) }

    // The files stay, but for the object where it is put, and a part of it where putting failed.
    ensures kept { IfOk result (λ answer. (answer ≡ Answer.Done → ⊥) → H.holds shelf.new ≡ H.holds shelf.old) }
    ensures unread { IsErrOf result Stop.Read → H.holds shelf.new ≡ H.holds shelf.old }
    ensures memory { IsErrOf result Stop.Memory → H.holds shelf.new ≡ H.holds shelf.old }
    ensures part { IsErrOf result Stop.Write → KeepsButObject name.now (H.holds shelf.old) (H.holds shelf.new) }

    // After a fault a front of what the definition prints was printed.
    // The shelf and the sink fail only where they count a fault.
    ensures prints { OnErr result (IfSome (H.holds shelf.old)
        (λ files. PrintsPart (Compiles (Some files) name.now) (P.written print.old) (P.written print.new))) }
    ensures read { IsErrOf result Stop.Read → Rose (H.faults shelf.old) (H.faults shelf.new) }
    ensures write { IsErrOf result Stop.Write
        → Rose (H.put_faults shelf.old) (H.put_faults shelf.new) ⊎ Rose (P.faults print.old) (P.faults print.new) }
    ensures later { P.faults print.old ≤ P.faults print.new }
{
    one_outcome();
    let verdict = judge(crew, alloc, shelf, name)?;
    deliver(alloc, name, &verdict, shelf, print)
}
