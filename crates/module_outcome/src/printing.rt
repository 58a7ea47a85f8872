//! What goes with what is counted.
ghost use Rattle.std.specs.Prelude.{◌≡◌, ◌≤◌, ◌++◌, IfOk, IsErrOf, OnErr, OnOk, string_bytes};
ghost use Rattle.m2_io.specs.Causes.{Rose};
ghost use Rattle.m2_io.specs.Written.{WritesPart, with_bytes};
ghost use Rattle.module_outcome.specs.Counts.{answer_by, counted, counts_line as spec_line, printed_by};

use crate::answer::{Answer, Stop};
use crate::delivering::print_limit;
use crate::summary::{Counts, Summary};
use m2_io::{Sink, write_all};
use std::alloc::{AllocError, Global};

/// Adds a count with its word.
fn push_count(text: &mut String, count: usize, word: &str) -> Result<(), AllocError>
    ensures { OnOk result (string_bytes text.new ≡ string_bytes text.old ++ counted count word.now) }
{
    write!(text, "{count}{word}")
}

/// The line that tells the counts of the module of so many procedures.
fn counts_line(alloc: Global, procedures: u32, counts: &Counts) -> Result<String, AllocError>
    ensures { IfOk result (λ text. string_bytes text ≡ spec_line procedures counts.now) }
{
    let mut text = format!(in alloc; "big {procedures}: ")?;
    push_count(&mut text, counts.tokens, " tokens, ")?;
    push_count(&mut text, counts.streams, " streams, ")?;
    push_count(&mut text, counts.code, " code bytes, ")?;
    push_count(&mut text, counts.object, " object bytes, ")?;
    push_count(&mut text, counts.diags, " diagnostics\n")?;
    Ok(text)
}

/// Prints the counts of the module of so many procedures.
fn print_counts<P: Sink>(
    alloc: Global,
    procedures: u32,
    counts: &Counts,
    print: &mut P,
) -> Result<Answer, Stop>
    ensures answer { IfOk result (λ answer. answer ≡ Answer.Done) }
    ensures ok { OnOk result
        (P.written print.new ≡ with_bytes (P.written print.old) (spec_line procedures counts.now)) }
    ensures part { OnErr result
        (WritesPart (P.written print.old) (spec_line procedures counts.now) (P.written print.new)) }
    ensures no_read { IsErrOf result Stop.Read → ⊥ }
    ensures write { IsErrOf result Stop.Write → Rose (P.faults print.old) (P.faults print.new) }
    ensures later { P.faults print.old ≤ P.faults print.new }
{
    let text = counts_line(alloc, procedures, counts)?;
    write_all(print, text.as_bytes())?;
    Ok(Answer::Done)
}

/// Prints what is told of the module of so many procedures.
pub fn print_summary<P: Sink>(
    alloc: Global,
    procedures: u32,
    summary: &Summary,
    print: &mut P,
) -> Result<Answer, Stop>
    ensures answer { IfOk result (λ answer. answer ≡ answer_by summary.now) }
    ensures ok { OnOk result
        (P.written print.new ≡ with_bytes (P.written print.old) (printed_by procedures summary.now)) }
    ensures part { OnErr result
        (WritesPart (P.written print.old) (printed_by procedures summary.now) (P.written print.new)) }
    ensures no_read { IsErrOf result Stop.Read → ⊥ }
    ensures write { IsErrOf result Stop.Write → Rose (P.faults print.old) (P.faults print.new) }
    ensures later { P.faults print.old ≤ P.faults print.new }
{
    match summary {
        Summary::Counted(counts) => print_counts(alloc, procedures, counts, print),
        Summary::Limited(limit) => print_limit(*limit, print),
    }
}
