//! Linking.
ghost use Rattle.std.specs.Prelude.{◌≡◌, ◌<◌, ◌-◌, ◌^◌, None, length, IfOk, IfErr, OnOk};
ghost use Rattle.object_file.specs.Directories.{IsDirectory};
ghost use Rattle.object_file.specs.Naming.{name_again};
ghost use Rattle.m2_link.specs.Refusals.{AreLinkedTo, refusal};
ghost use Rattle.m2_link.specs.Views.{IsRefusalOf};

use crate::fault::LinkFault;
use crate::imports::{first_differing, first_missing};
use crate::in_out::in_out_key;
use object_file::{Directory, DirectoryFault, Object, Program};
use std::alloc::Global;

/// Whether imports are met among objects whose names differ.
fn check_imports(alloc: Global, objects: &[Object], directory: &Directory) -> Result<(), LinkFault>
    requires directory { IsDirectory directory.now objects.now }
    requires differ { name_again objects.now ≡ None }
    ensures accepted { OnOk result (refusal objects.now ≡ None) }
    ensures refused { IfErr result (λ e. IsRefusalOf objects.now e) }
{
    if let Some(name) = first_missing(objects, directory) {
        return Err(LinkFault::Missing(name.to_vec(alloc)?));
    }
    let key = in_out_key();
    match first_differing(objects, directory, &key) {
        Some(name) => Err(LinkFault::KeyDiffers(name.to_vec(alloc)?)),
        None => Ok(()),
    }
}

/// Whether objects can be linked.
fn check(alloc: Global, objects: &[Object]) -> Result<(), LinkFault>
    ensures accepted { OnOk result (refusal objects.now ≡ None) }
    ensures refused { IfErr result (λ e. IsRefusalOf objects.now e) }
{
    match Directory::of(alloc, objects) {
        Ok(directory) => check_imports(alloc, objects, &directory),
        Err(DirectoryFault::Twice(k)) => Err(LinkFault::Twice(objects[k].name().to_vec(alloc)?)),
        Err(DirectoryFault::Memory) => Err(LinkFault::Memory),
    }
}

/// The program of objects, the first of which is the main module's.
#[tactic(auto, using(crate::proofs::Accepted::accepted_linked))]
pub fn link(alloc: Global, objects: Vec<Object>) -> Result<Program, LinkFault>
    requires some { 0 < length objects.items }
    requires few { length objects.items < 2 ^ 32 - 1 }
    ensures linked { IfOk result (λ program. AreLinkedTo objects.items program) }
    // Other than by want of memory they are refused exactly for what the definition says.
    ensures refused { IfErr result (λ e. IsRefusalOf objects.items e) }
{
    check(alloc, &objects)?;
    Ok(Program::join(alloc, objects)?)
}
