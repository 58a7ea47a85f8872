//! The objects of the shelf.
ghost use Rattle.std.specs.Prelude.{◌≡◌, ◌≤◌, IfErr, IfOk, IfSome, IsErrOf, OnOk, length, option_map, string_bytes};
ghost use Rattle.m2_io.specs.Causes.{Rose};
ghost use Rattle.object_file.specs.Validity.{IsObject};
ghost use Rattle.program_load.specs.Answers.{IsShelfFault, told};
ghost use Rattle.program_load.specs.Loads.{Spoils};
ghost use Rattle.program_load.specs.Shelves.{IsReadOf, object_file as spec_object_file};

use crate::fault::LoadFault;
use crate::limits::MOST_OBJECT_BYTES;
use m2_io::Shelf;
use object_file::{Object, ObjectFault, read_object};
use std::alloc::{AllocError, Global};

/// The file of a module's object.
fn object_file(alloc: Global, name: &str) -> Result<String, AllocError>
    ensures { IfOk result (λ file. string_bytes file ≡ spec_object_file name.now) }
{
    format!(in alloc; "{name}.m2o")
}

/// What the shelf has as the object of a module, and at most one byte more than an object may have.
pub fn object_bytes<H: Shelf>(
    alloc: Global,
    shelf: &mut H,
    name: &str,
) -> Result<Option<Vec<u8>>, LoadFault>
    ensures found { IfOk result
        (λ found. IsReadOf (H.holds shelf.old) name.now (option_map (λ bytes. bytes.items) found)) }
    ensures holds { H.holds shelf.new ≡ H.holds shelf.old }
    ensures put_faults { H.put_faults shelf.new ≡ H.put_faults shelf.old }
    ensures later { H.faults shelf.old ≤ H.faults shelf.new }
    ensures failed { IsErrOf result LoadFault.Read → Rose (H.faults shelf.old) (H.faults shelf.new) }
    ensures fault { IfErr result IsShelfFault }
{
    let file = object_file(alloc, name)?;
    let found = shelf.get(alloc, &file, MOST_OBJECT_BYTES + 1)?;
    Ok(found)
}

/// The object of a module that these bytes are.
pub fn object_in(alloc: Global, name: &str, bytes: &[u8]) -> Result<Object, LoadFault>
    ensures short { OnOk result (length bytes.now ≤ MOST_OBJECT_BYTES) }
    ensures object { IfOk result (λ o. IsObject bytes.now o) }
    // What a fault says is so.
    ensures fault { IfErr result (λ e. IfSome (told e) (Spoils name.now bytes.now)) }
    ensures no_read { IsErrOf result LoadFault.Read → ⊥ }
{
    if bytes.len() > MOST_OBJECT_BYTES {
        return Err(LoadFault::TooLong);
    }
    match read_object(alloc, bytes) {
        Ok(object) => Ok(object),
        Err(ObjectFault::Memory) => Err(LoadFault::Memory),
        Err(ObjectFault::BadObject { offset, code }) => {
            let name = name.to_string(alloc)?;
            Err(LoadFault::Bad { name, offset, code })
        }
    }
}
