//! Where the texts of a unit come from.
ghost use Rattle.std.specs.Prelude.{◌≡◌, ◌≤◌, IfErr, IfOk, IsErrOf, List, ℕ, length, map, option_map};
ghost use Rattle.std.specs.Prelude.{slice_index_or, string_bytes};
ghost use Rattle.m2_io.specs.Causes.{Rose};
ghost use Rattle.m2_base.specs.Units.{IsIdentifier, IsNamed};
ghost use Rattle.def_import.specs.Shelves.{Has, HasDefinition, IsReadOf};
ghost use Rattle.def_import.specs.Shelves.{definition_file as spec_definition_file, main_file as spec_main_file};
ghost use Rattle.def_import.specs.Views.{IsShelfFault};

use crate::faults::GatherFault;
use crate::library::{LIBRARY_NAME, LIBRARY_TEXT};
use m2_base::{MOST_TEXT_BYTES, Names};
use m2_io::Shelf;
use std::alloc::{AllocError, Global};
use std::str::from_utf8;

/// The text of a file, and at most one byte more than a text may have.
fn read_file<H: Shelf>(
    alloc: Global,
    shelf: &mut H,
    file: &str,
) -> Result<Option<Vec<u8>>, GatherFault>
    ensures found { IfOk result (λ found.
        IsReadOf (Has (H.holds shelf.old) file.now) (option_map (λ text. text.items) found)) }
    ensures holds { H.holds shelf.new ≡ H.holds shelf.old }
    ensures put_faults { H.put_faults shelf.new ≡ H.put_faults shelf.old }
    ensures later { H.faults shelf.old ≤ H.faults shelf.new }
    ensures failed { IsErrOf result GatherFault.ReadFault → Rose (H.faults shelf.old) (H.faults shelf.new) }
    ensures fault { IfErr result IsShelfFault }
{
    let found = shelf.get(alloc, file, MOST_TEXT_BYTES + 1)?;
    Ok(found)
}

/// The file of a main module's text.
fn main_file(alloc: Global, name: &str) -> Result<String, AllocError>
    ensures { IfOk result (λ file. string_bytes file ≡ spec_main_file name.now) }
{
    format!(in alloc; "{name}.mod")
}

/// The file of a definition module's text.
fn definition_file(alloc: Global, name: &[u8]) -> Result<String, AllocError>
    requires { IsIdentifier name.now }
    ensures { IfOk result (λ file. string_bytes file ≡ spec_definition_file name.now) }
{
    match from_utf8(name) {
        Ok(name) => format!(in alloc; "{name}.def"),
        Err(_) => unreachable!(),
    }
}

/// The text of a main module.
pub fn main_text<H: Shelf>(
    alloc: Global,
    shelf: &mut H,
    name: &str,
) -> Result<Option<Vec<u8>>, GatherFault>
    ensures found { IfOk result (λ found.
        IsReadOf (Has (H.holds shelf.old) (spec_main_file name.now)) (option_map (λ text. text.items) found)) }
    ensures holds { H.holds shelf.new ≡ H.holds shelf.old }
    ensures put_faults { H.put_faults shelf.new ≡ H.put_faults shelf.old }
    ensures later { H.faults shelf.old ≤ H.faults shelf.new }
    ensures failed { IsErrOf result GatherFault.ReadFault → Rose (H.faults shelf.old) (H.faults shelf.new) }
    ensures fault { IfErr result IsShelfFault }
{
    let file = main_file(alloc, name)?;
    read_file(alloc, shelf, &file)
}

/// The text of a definition module. The library's is never read from the shelf.
pub fn definition_text<H: Shelf>(
    alloc: Global,
    shelf: &mut H,
    names: &Names,
    name: u32,
) -> Result<Option<Vec<u8>>, GatherFault>
    requires { IsNamed names.now name }
    ensures found { IfOk result (λ found.
        IsReadOf (HasDefinition (H.holds shelf.old) names.now name) (option_map (λ text. text.items) found)) }
    ensures holds { H.holds shelf.new ≡ H.holds shelf.old }
    ensures put_faults { H.put_faults shelf.new ≡ H.put_faults shelf.old }
    ensures later { H.faults shelf.old ≤ H.faults shelf.new }
    ensures failed { IsErrOf result GatherFault.ReadFault → Rose (H.faults shelf.old) (H.faults shelf.new) }
    ensures fault { IfErr result IsShelfFault }
{
    if name == LIBRARY_NAME {
        let text = LIBRARY_TEXT.to_vec(alloc)?;
        return Ok(Some(text));
    }
    let file = definition_file(alloc, names.bytes(name))?;
    read_file(alloc, shelf, &file)
}
