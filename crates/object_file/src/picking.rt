//! Objects in another order.
ghost use Rattle.std.specs.Prelude.{◌≡◌, ◌<◌, length, map, None, Some, slice_index_or, slice_set, IfOk};
ghost use Rattle.std.specs.List.{AllByRecursion};
ghost use Rattle.object_file.specs.Picking.{AllDifferent, AreNumbers};
ghost use Rattle.object_file.specs.Running.{picked};
ghost use Rattle.object_file.specs.Validity.{IsValid};

use crate::object::Object;
use std::alloc::{AllocError, Global};

/// A place for each object, which has it.
fn in_places(alloc: Global, objects: Vec<Object>) -> Result<Vec<Option<Object>>, AllocError>
    ensures { IfOk result (λ places. places.items ≡ map Some objects.items) }
{
    let mut places = Vec::with_capacity(alloc, objects.len())?;
    for object in objects {
        places.push(Some(object))?;
    }
    Ok(places)
}

/// Takes an object out of its place.
fn take_out(places: &mut Vec<Option<Object>>, number: usize) -> Option<Object>
    requires { number < length places.old.items }
    ensures value { result ≡ slice_index_or places.old.items number None }
    ensures after { places.new.items ≡ slice_set places.old.items number None }
{
    places[number].take()
}

/// The objects with these numbers, in their order.
pub(crate) fn pick(
    alloc: Global,
    objects: Vec<Object>,
    order: &[usize],
) -> Result<Vec<Object>, AllocError>
    requires numbers { AreNumbers (length objects.items) order.now }
    requires differ { AllDifferent order.now }
    ensures picked { IfOk result (λ chosen. chosen.items ≡ picked objects.items order.now) }
    ensures valid { IfOk result (λ chosen. AllByRecursion IsValid chosen.items) }
{
    let mut places = in_places(alloc, objects)?;
    let mut chosen = Vec::with_capacity(alloc, order.len())?;
    for number in order {
        let Some(object) = take_out(&mut places, *number) else {
            unreachable!()
        };
        object.validity();
        chosen.push(object)?;
    }
    Ok(chosen)
}
