//! Compiling the module Big, and counting what comes out.
ghost use Rattle.std.specs.Prelude.{◌≡◌, ◌≤◌, ◌<◌, Some, IfOk, IfSome, IsErrOf, OnErr};
ghost use Rattle.m2_io.specs.Causes.{Rose};
ghost use Rattle.module_outcome.specs.Big.{LeavesSummary, PrintsSummaryPart};

use crate::telling::tell;
use m2_io::{Gate, Shelf, Sink};
use module_outcome::{Answer, Stop, one_summary, print_summary};
use std::alloc::Global;
use std::sync::Wait;
use std::thread::Threads;
use unit_workers::Crew;

/// Compiles the module Big of so many procedures over the files of a shelf, and prints what is counted of it, or which
/// limit it passes. The crew works on the streams of its unit. The object is put nowhere.
pub fn compile_big<R: Threads + Wait + Sync, G: Gate, H: Shelf, P: Sink>(
    crew: &Crew<R, G>,
    alloc: Global,
    procedures: u32,
    shelf: &mut H,
    print: &mut P,
) -> Result<Answer, Stop>
    requires most { procedures ≤ 16384 }
    requires workers { (0 < crew.now.workers) × (crew.now.workers ≤ 64) }
    // The answer and what is printed are those of the definition; after a fault a front of it was printed.
    ensures leaves { IfOk result
        (λ answer. LeavesSummary (H.holds shelf.old) procedures answer (P.written print.old) (P.written print.new)) }
    ensures prints { OnErr result (IfSome (H.holds shelf.old)
        (λ files. PrintsSummaryPart (Some files) procedures (P.written print.old) (P.written print.new))) }

    // The shelf and the sink fail only where they count a fault, and the files stay.
    ensures read { IsErrOf result Stop.Read → Rose (H.faults shelf.old) (H.faults shelf.new) }
    ensures write { IsErrOf result Stop.Write → Rose (P.faults print.old) (P.faults print.new) }
    ensures later { P.faults print.old ≤ P.faults print.new }
    ensures holds { H.holds shelf.new ≡ H.holds shelf.old }
    ensures put_faults { H.put_faults shelf.new ≡ H.put_faults shelf.old }
{
    one_summary();
    let summary = tell(crew, alloc, procedures, shelf)?;
    print_summary(alloc, procedures, &summary, print)
}
