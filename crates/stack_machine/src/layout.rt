//! Where the cells of a program are.
ghost use Rattle.std.specs.Prelude.{◌≡◌, ◌+◌, ◌<◌, ◌≤◌, ◌^◌, map, length, IfOk, IfSome, IfNone};
ghost use Rattle.object_file.specs.Contents.{definitions_of};
ghost use Rattle.object_file.specs.Programs.{IsProgram};
ghost use Rattle.object_file.specs.Views.{import_of, procedure_of};
ghost use Rattle.stack_machine.specs.Loading.{is_in_out as names_in_out, import_in_out, imports_in_out, first_cell};
ghost use Rattle.stack_machine.specs.Loading.{cells_of, data_in, data_of, data_at, frames_of, variables_from};

use m2_base::ProcCode;
use object_file::{ImportNote, Object};
use std::alloc::{AllocError, Global};

/// Where the cells of a program are.
#[derive(Clone, Copy)]
pub(crate) struct Layout {
    pub(crate) has_in_out: bool,
    /// The first variable.
    pub(crate) variables: usize,
    /// The first cell of the data.
    pub(crate) texts: usize,
    /// The first cell of the first frame.
    pub(crate) frames: usize,
}

/// Whether a name is InOut's.
pub(crate) fn is_in_out(name: &[u8]) -> bool
    ensures { result ≡ names_in_out name.now }
{
    name == b"InOut".as_slice()
}

fn has_in_out(imports: &[ImportNote]) -> bool
    ensures { result ≡ import_in_out (map import_of imports.now) }
{
    for import in imports {
        if is_in_out(&import.name) {
            return true;
        }
    }
    false
}

fn imports_it(object: &Object) -> bool
    ensures { result ≡ import_in_out (definitions_of object.now) }
{
    has_in_out(object.imports())
}

fn any_has_in_out(objects: &[Object]) -> bool
    ensures { result ≡ imports_in_out objects.now }
{
    for object in objects {
        if imports_it(object) {
            return true;
        }
    }
    false
}

/// So many cells more, if there is room.
fn more(taken: usize, n: usize, room: usize) -> Option<usize>
    requires { taken ≤ room }
    ensures some { IfSome result (λ t. (t ≡ taken + n) × (t ≤ room)) }
    ensures none { IfNone result (room < taken + n) }
{
    if n <= room - taken {
        Some(taken + n)
    } else {
        None
    }
}

/// The cells with the variables of all objects, if there is room.
fn with_variables(taken: usize, objects: &[Object], room: usize) -> Option<usize>
    requires { taken ≤ room }
    ensures some { IfSome result (λ t. (t ≡ taken + cells_of objects.now) × (t ≤ room)) }
    ensures none { IfNone result (room < taken + cells_of objects.now) }
{
    let mut sum = taken;
    for object in objects {
        sum = more(sum, object.cells() as usize, room)?;
    }
    Some(sum)
}

/// The cells with the data of procedures, if there is room.
fn with_texts(taken: usize, procedures: &[ProcCode], room: usize) -> Option<usize>
    requires { taken ≤ room }
    ensures some { IfSome result (λ t. (t ≡ taken + data_in (map procedure_of procedures.now)) × (t ≤ room)) }
    ensures none { IfNone result (room < taken + data_in (map procedure_of procedures.now)) }
{
    let mut sum = taken;
    for procedure in procedures {
        sum = more(sum, procedure.bytes.len(), room)?;
    }
    Some(sum)
}

/// The cells with the data of an object, if there is room.
fn with_object(taken: usize, object: &Object, room: usize) -> Option<usize>
    requires { taken ≤ room }
    ensures some { IfSome result (λ t. (t ≡ taken + data_in object.now.procedures) × (t ≤ room)) }
    ensures none { IfNone result (room < taken + data_in object.now.procedures) }
{
    with_texts(taken, object.procedures(), room)
}

/// The cells with the data of all objects, if there is room.
fn with_data(taken: usize, objects: &[Object], room: usize) -> Option<usize>
    requires { taken ≤ room }
    ensures some { IfSome result (λ t. (t ≡ taken + data_of objects.now) × (t ≤ room)) }
    ensures none { IfNone result (room < taken + data_of objects.now) }
{
    let mut sum = taken;
    for object in objects {
        sum = with_object(sum, object, room)?;
    }
    Some(sum)
}

/// Where the cells of a program are, if there are so many.
pub(crate) fn laid_out(objects: &[Object], room: usize) -> Option<Layout>
    ensures some { IfSome result
        (λ l. (l.has_in_out ≡ imports_in_out objects.now) × (l.variables ≡ first_cell objects.now)
        × (l.texts ≡ data_at objects.now) × (l.frames ≡ frames_of objects.now) × (l.frames ≤ room)) }
    ensures none { IfNone result (room < frames_of objects.now) }
{
    let has_in_out = any_has_in_out(objects);
    let variables = more(0, if has_in_out { 2 } else { 1 }, room)?;
    let texts = with_variables(variables, objects, room)?;
    let frames = with_data(texts, objects, room)?;
    Some(Layout {
        has_in_out,
        variables,
        texts,
        frames,
    })
}

/// The first variable of each object.
pub(crate) fn variables(
    alloc: Global,
    first: usize,
    objects: &[Object],
) -> Result<Vec<usize>, AllocError>
    requires { first + cells_of objects.now < 2 ^ 60 }
    ensures are { IfOk result (λ v. v.items ≡ variables_from first objects.now) }
{
    let mut at = first;
    let mut all = Vec::new(alloc);
    for object in objects {
        all.push(at)?;
        at += object.cells() as usize;
    }
    Ok(all)
}
