//! Loading programs.
ghost use Rattle.std.specs.Prelude.{◌≡◌, ◌≤◌, IfErr, IfOk, IfSome, IsErrOf};
ghost use Rattle.m2_io.specs.Causes.{Rose};
ghost use Rattle.program_load.specs.Answers.{told};
ghost use Rattle.program_load.specs.Closure.{start};
ghost use Rattle.program_load.specs.Loads.{Finds, Loads, Stops, fails, linked};

use crate::fault::LoadFault;
use crate::files::{object_bytes, object_in};
use crate::progress::Progress;
use m2_io::Shelf;
use m2_link::link;
use object_file::{Object, Program};
use std::alloc::Global;

/// The program whose main module has that name.
pub fn load<H: Shelf>(alloc: Global, shelf: &mut H, name: &str) -> Result<Program, LoadFault>
    ensures linked { IfOk result (λ program. Loads (H.holds shelf.old) name.now (linked program)) }
    // What a fault says is so.
    ensures fault { IfErr result (λ e. IfSome (told e) (λ f. Loads (H.holds shelf.old) name.now (fails f))) }

    // The shelf fails only where it counts a fault, and what it holds stays.
    ensures failed { IsErrOf result LoadFault.Read → Rose (H.faults shelf.old) (H.faults shelf.new) }
    ensures holds { H.holds shelf.new ≡ H.holds shelf.old }
    ensures put_faults { H.put_faults shelf.new ≡ H.put_faults shelf.old }
    ensures later { H.faults shelf.old ≤ H.faults shelf.new }
{
    let mut progress = Progress::begin(alloc, name)?;
    while let Some(name) = progress.next_module() {
        let name = name.to_string(alloc)?;
        progress = progress.ask(alloc, shelf, &name)?;
    }
    let program = link(alloc, progress.into_objects())?;
    Ok(program)
}

/// The object of that module.
pub fn load_object<H: Shelf>(alloc: Global, shelf: &mut H, name: &str) -> Result<Object, LoadFault>
    ensures found { IfOk result (Finds (H.holds shelf.old) name.now) }
    // What a fault says is so: it would end the loading of a program there.
    ensures fault { IfErr result (λ e. IfSome (told e) (Stops (H.holds shelf.old) (start name.now) name.now)) }

    // The shelf fails only where it counts a fault, and what it holds stays.
    ensures failed { IsErrOf result LoadFault.Read → Rose (H.faults shelf.old) (H.faults shelf.new) }
    ensures holds { H.holds shelf.new ≡ H.holds shelf.old }
    ensures put_faults { H.put_faults shelf.new ≡ H.put_faults shelf.old }
    ensures later { H.faults shelf.old ≤ H.faults shelf.new }
{
    match object_bytes(alloc, shelf, name)? {
        Some(bytes) => object_in(alloc, name, &bytes),
        None => Err(LoadFault::NoObject),
    }
}
