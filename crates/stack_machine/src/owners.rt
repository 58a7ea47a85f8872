//! What imports name.
ghost use Rattle.std.specs.Prelude.{◌≡◌, map, length, IfOk};
ghost use Rattle.object_file.specs.Views.{import_of};
ghost use Rattle.stack_machine.specs.Loading.{object_at as number_at, owner_of as owner_for, owner_named};

use crate::layout::is_in_out;
use object_file::{ImportNote, Object};
use std::alloc::{AllocError, Global};

/// Who has what an import names.
#[derive(Clone, Copy)]
pub(crate) enum Owner {
    InOut,
    /// The object with this number in running order.
    Object(usize),
}

/// The number of the object with a name.
fn object_at(objects: &[Object], name: &[u8]) -> usize
    ensures { result ≡ number_at objects.now name.now }
{
    for k in 0..objects.len() {
        if objects[k].name() == name {
            return k;
        }
    }
    objects.len()
}

fn owner_of(objects: &[Object], import: &ImportNote) -> Owner
    ensures { result ≡ owner_for objects.now (import_of import.now) }
{
    if is_in_out(&import.name) {
        Owner::InOut
    } else {
        Owner::Object(object_at(objects, &import.name))
    }
}

/// Who has what each import names.
pub(crate) fn owners(
    alloc: Global,
    objects: &[Object],
    imports: &[ImportNote],
) -> Result<Vec<Owner>, AllocError>
    ensures { IfOk result (λ v. v.items ≡ map (λ i. owner_for objects.now i) (map import_of imports.now)) }
{
    let mut all = Vec::new(alloc);
    for import in imports {
        all.push(owner_of(objects, import))?;
    }
    Ok(all)
}

/// The owner of what an instruction of object m names by i.
pub(crate) fn named(m: usize, owners: &[Owner], i: u32) -> Owner
    ensures { result ≡ owner_named m owners.now i }
{
    if i == 0 {
        return Owner::Object(m);
    }
    match owners.get(i as usize - 1) {
        Some(owner) => *owner,
        None => Owner::InOut,
    }
}
