//! Gathering the texts of a unit.
ghost use Rattle.std.specs.Prelude.{◌≡◌, ◌≤◌, IfErr, IfOk, IsErrOf, None, length};
ghost use Rattle.m2_io.specs.Causes.{Rose};
ghost use Rattle.m2_base.specs.Units.{IsIdentifier, IsUnit};
ghost use Rattle.def_import.specs.Answers.{IsTold, IsWholeWhereSaid, unit_given, wrongs_given};
ghost use Rattle.def_import.specs.Closure.{Progress as ProgressSoFar};
ghost use Rattle.def_import.specs.Outcomes.{IsGathered, IsGatheredFrom, Limit, Stops, StopsFrom, unit_in};
ghost use Rattle.def_import.specs.Outcomes.{own_text as spec_own_text};
ghost use Rattle.def_import.specs.Shelves.{Has, main_file};
ghost use Rattle.def_import.specs.Views.{IsAskFault, fault_of};
ghost use Rattle.def_import.specs.Wrongs.{wrongs_of as spec_wrongs_of};

use crate::begin::begin;
use crate::dependencies::dependency_order;
use crate::faults::GatherFault;
use crate::files::main_text;
use crate::progress::Progress;
use crate::wrongs::wrongs_of;
use m2_base::{Diag, Memory, Texts};
use m2_io::Shelf;
use std::alloc::Global;

/// The texts of a unit, with what is wrong with their imports.
#[derive(Drop)]
pub enum Gathered {
    /// Nothing is.
    Whole(Texts),
    Wrong(Texts, Vec<Diag>),
}

/// The number of the own definition of an implementation module.
fn own_text(progress: &Progress) -> Option<u32>
    ensures { result ≡ spec_own_text progress.now progress.now.found }
{
    match progress.texts() {
        [main, ..] => match main.own_name() {
            Some(own) => progress.text_of_module(own.name),
            None => None,
        },
        [] => None,
    }
}

/// These texts, with what is wrong with them, if anything is.
fn told(texts: Texts, wrongs: Vec<Diag>) -> Gathered
    ensures unit { unit_given result ≡ texts }
    ensures wrongs { wrongs_given result ≡ wrongs.items }
    ensures told { IsTold result }
{
    if wrongs.is_empty() {
        Gathered::Whole(texts)
    } else {
        Gathered::Wrong(texts, wrongs)
    }
}

/// The unit of all texts, which are read.
fn finish(alloc: Global, progress: Progress) -> Result<Gathered, Memory>
    requires { IsUnit (unit_in progress) }
    ensures unit { IfOk result (λ g. unit_given g ≡ unit_in progress) }
    ensures wrongs { IfOk result (λ g. wrongs_given g ≡ spec_wrongs_of progress) }
    ensures told { IfOk result IsTold }
{
    let order = dependency_order(alloc, &progress)?;
    let wrongs = wrongs_of(alloc, &progress, &order)?;
    let own = own_text(&progress);
    let texts = progress.parts.into_unit(alloc, order, own)?;
    Ok(told(texts, wrongs))
}

/// The texts of the unit whose main text is this one, in the file of that module.
/// The shelf has the definition modules.
pub fn gather_text<H: Shelf>(
    alloc: Global,
    shelf: &mut H,
    name: &str,
    main: &[u8],
) -> Result<Gathered, GatherFault>
    requires named { IsIdentifier name.now }
    requires short { length name.now ≤ 1048576 }
    ensures gathered { IfOk result (λ g.
        IsGathered (H.holds shelf.old) name.now main.now (unit_given g) (wrongs_given g)) }
    ensures told { IfOk result IsTold }
    ensures whole { IfOk result IsWholeWhereSaid }

    // A limit, only where a text passes it and none passes another before.
    ensures limits { (limit : Limit) → IsErrOf result (fault_of limit)
        → Stops (H.holds shelf.old) name.now main.now limit }
    ensures fault { IfErr result IsAskFault }

    // The shelf fails only where it counts a fault, and what it holds stays.
    ensures failed { IsErrOf result GatherFault.ReadFault → Rose (H.faults shelf.old) (H.faults shelf.new) }
    ensures holds { H.holds shelf.new ≡ H.holds shelf.old }
    ensures put_faults { H.put_faults shelf.new ≡ H.put_faults shelf.old }
    ensures later { H.faults shelf.old ≤ H.faults shelf.new }
{
    let (begun, number) = begin(alloc, name.as_bytes())?;
    let mut progress = begun.read(alloc, false, number, main)?;
    while let Some(name) = progress.next_module() {
        progress = progress.ask(alloc, shelf, name)?;
    }
    let gathered = finish(alloc, progress)?;
    Ok(gathered)
}

/// The texts of the unit whose main text is in the file of that module.
pub fn gather<H: Shelf>(alloc: Global, shelf: &mut H, name: &str) -> Result<Gathered, GatherFault>
    requires named { IsIdentifier name.now }
    requires short { length name.now ≤ 1048576 }
    ensures gathered { IfOk result (λ g. IsGatheredFrom (H.holds shelf.old) name.now (unit_given g) (wrongs_given g)) }
    ensures told { IfOk result IsTold }
    ensures whole { IfOk result IsWholeWhereSaid }

    // No text, only where the shelf has none; a limit, as in `gather_text`.
    ensures no_text { IsErrOf result GatherFault.NoText → Has (H.holds shelf.old) (main_file name.now) None }
    ensures limits { (limit : Limit) → IsErrOf result (fault_of limit) → StopsFrom (H.holds shelf.old) name.now limit }

    // The shelf fails only where it counts a fault, and what it holds stays.
    ensures failed { IsErrOf result GatherFault.ReadFault → Rose (H.faults shelf.old) (H.faults shelf.new) }
    ensures holds { H.holds shelf.new ≡ H.holds shelf.old }
    ensures put_faults { H.put_faults shelf.new ≡ H.put_faults shelf.old }
    ensures later { H.faults shelf.old ≤ H.faults shelf.new }
{
    match main_text(alloc, shelf, name)? {
        Some(main) => gather_text(alloc, shelf, name, &main),
        None => Err(GatherFault::NoText),
    }
}
