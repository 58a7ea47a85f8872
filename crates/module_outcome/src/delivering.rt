//! What goes with a verdict.
ghost use Rattle.std.specs.Prelude.{◌≡◌, ◌≤◌, ◌⊎◌, ◌++◌, codes, IfOk, IsErrOf, OnErr, OnOk};
ghost use Rattle.m2_io.specs.Causes.{Rose};
ghost use Rattle.m2_io.specs.Files.{HasPart, with_file};
ghost use Rattle.m2_io.specs.Written.{WritesPart, with_bytes};
ghost use Rattle.listings.specs.Listing.{unit_listing as spec_listing};
ghost use Rattle.object_file.specs.Contents.{object_bytes};
ghost use Rattle.object_file.specs.Validity.{IsValid};
ghost use Rattle.module_outcome.specs.Delivery.{Delivers, IsSound, PutsPart};
ghost use Rattle.module_outcome.specs.Limits.{limit_text};
ghost use Rattle.module_outcome.specs.Lines.{line};
ghost use Rattle.module_outcome.specs.Verdicts.{decision_of, object_name, printed_of};

use crate::answer::{Answer, Stop};
use crate::limit::{Limit, limit_line};
use crate::verdict::Verdict;
use listings::unit_listing;
use m2_base::{Diag, Texts};
use m2_io::{Shelf, ShelfError, Sink, write_all};
use object_file::{Object, write_object};
use std::alloc::Global;

/// Puts the object of the module on the shelf.
fn put_object<H: Shelf>(
    alloc: Global,
    name: &str,
    object: &Object,
    shelf: &mut H,
) -> Result<Answer, Stop>
    ensures answer { IfOk result (λ answer. answer ≡ Answer.Done) }
    ensures valid { IfOk result (λ answer. IsValid object.now) }
    ensures ok { OnOk result
        (H.holds shelf.new ≡ with_file (H.holds shelf.old) (object_name name.now) (object_bytes object.now)) }
    ensures part { IsErrOf result Stop.Write
        → HasPart (H.holds shelf.old) (object_name name.now) (object_bytes object.now) (H.holds shelf.new) }
    ensures memory { IsErrOf result Stop.Memory → H.holds shelf.new ≡ H.holds shelf.old }
    ensures no_read { IsErrOf result Stop.Read → ⊥ }
    ensures write { IsErrOf result Stop.Write → Rose (H.put_faults shelf.old) (H.put_faults shelf.new) }
{
    let bytes = write_object(alloc, object)?;
    let file = format!(in alloc; "{name}.m2o")?;
    match shelf.put(alloc, file.as_str(), bytes.as_slice()) {
        Ok(()) => Ok(Answer::Done),
        Err(ShelfError::Failed) => Err(Stop::Write),
        Err(ShelfError::Memory) => Err(Stop::Memory),
    }
}

/// Prints the listing of a unit's diagnostics.
fn print_listing<P: Sink>(
    alloc: Global,
    texts: &Texts,
    diags: &[Diag],
    print: &mut P,
) -> Result<Answer, Stop>
    ensures answer { IfOk result (λ answer. answer ≡ Answer.Diagnosed) }
    ensures ok { OnOk result
        (P.written print.new ≡ with_bytes (P.written print.old) (spec_listing texts.now diags.now)) }
    ensures part { OnErr result
        (WritesPart (P.written print.old) (spec_listing texts.now diags.now) (P.written print.new)) }
    ensures no_read { IsErrOf result Stop.Read → ⊥ }
    ensures write { IsErrOf result Stop.Write → Rose (P.faults print.old) (P.faults print.new) }
    ensures later { P.faults print.old ≤ P.faults print.new }
{
    let lines = unit_listing(alloc, texts, diags)?;
    write_all(print, lines.as_slice())?;
    Ok(Answer::Diagnosed)
}

/// Prints which limit is passed.
pub(crate) fn print_limit<P: Sink>(limit: Limit, print: &mut P) -> Result<Answer, Stop>
    ensures answer { IfOk result (λ answer. answer ≡ Answer.OverLimit) }
    ensures ok { OnOk result (P.written print.new ≡ with_bytes (P.written print.old) (line (limit_text limit))) }
    ensures part { OnErr result (WritesPart (P.written print.old) (line (limit_text limit)) (P.written print.new)) }
    ensures no_read { IsErrOf result Stop.Read → ⊥ }
    ensures write { IsErrOf result Stop.Write → Rose (P.faults print.old) (P.faults print.new) }
    ensures later { P.faults print.old ≤ P.faults print.new }
{
    write_all(print, limit_line(limit))?;
    Ok(Answer::OverLimit)
}

/// Says that there is no text of the module.
fn print_no_text<P: Sink>(alloc: Global, name: &str, print: &mut P) -> Result<Answer, Stop>
    ensures answer { IfOk result (λ answer. answer ≡ Answer.NoText) }
    ensures ok { OnOk result (P.written print.new
        ≡ with_bytes (P.written print.old) (line (codes "no text " ++ name.now ++ codes ".mod"))) }
    ensures part { OnErr result (WritesPart (P.written print.old) (line (codes "no text " ++ name.now ++ codes ".mod"))
        (P.written print.new)) }
    ensures no_read { IsErrOf result Stop.Read → ⊥ }
    ensures write { IsErrOf result Stop.Write → Rose (P.faults print.old) (P.faults print.new) }
    ensures later { P.faults print.old ≤ P.faults print.new }
{
    let text = format!(in alloc; "no text {name}.mod\n")?;
    write_all(print, text.as_bytes())?;
    Ok(Answer::NoText)
}

/// Puts the object of the module, or prints what is said of it.
pub fn deliver<H: Shelf, P: Sink>(
    alloc: Global,
    name: &str,
    verdict: &Verdict,
    shelf: &mut H,
    print: &mut P,
) -> Result<Answer, Stop>
    ensures delivers { IfOk result (λ answer. Delivers name.now (decision_of verdict.now) answer (H.holds shelf.old)
        (H.holds shelf.new) (P.written print.old) (P.written print.new)) }
    ensures sound { IfOk result (λ answer. IsSound (decision_of verdict.now)) }
    // After a fault a front of it was printed, or put.
    ensures prints { OnErr result
        (WritesPart (P.written print.old) (printed_of name.now (decision_of verdict.now)) (P.written print.new)) }
    ensures part { IsErrOf result Stop.Write
        → PutsPart name.now (decision_of verdict.now) (H.holds shelf.old) (H.holds shelf.new) }
    ensures memory { IsErrOf result Stop.Memory → H.holds shelf.new ≡ H.holds shelf.old }
    ensures no_read { IsErrOf result Stop.Read → ⊥ }
    ensures write { IsErrOf result Stop.Write
        → Rose (H.put_faults shelf.old) (H.put_faults shelf.new) ⊎ Rose (P.faults print.old) (P.faults print.new) }
    ensures later { P.faults print.old ≤ P.faults print.new }
{
    match verdict {
        Verdict::NoText => print_no_text(alloc, name, print),
        Verdict::Limited(limit) => print_limit(*limit, print),
        Verdict::Listed(texts, diags) => print_listing(alloc, texts, diags.as_slice(), print),
        Verdict::Compiled(object) => put_object(alloc, name, object, shelf),
    }
}
