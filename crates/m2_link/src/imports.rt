//! The first import for which objects are refused.
ghost use Rattle.std.specs.Prelude.{◌≡◌, option_map};
ghost use Rattle.object_file.specs.Directories.{IsDirectory, found_in};
ghost use Rattle.object_file.specs.Views.{import_of, keyed_of};
ghost use Rattle.m2_link.specs.Keys.{in_out_key};
ghost use Rattle.m2_link.specs.Refusals.{lacks as spec_lacks, is_in_out as spec_in_out, differs as spec_differs};
ghost use Rattle.m2_link.specs.Refusals.{differs_at, first_in, object_at, first_missing as spec_first_missing};
ghost use Rattle.m2_link.specs.Refusals.{first_differing as spec_first_differing};

use crate::agreement::{agrees_with_in_out, agrees_with_object};
use object_file::{Directory, ImportNote, Object};

fn is_in_out(note: &ImportNote) -> bool
    ensures { result ≡ spec_in_out (import_of note.now) }
{
    note.name.as_slice() == b"InOut".as_slice()
}

/// The object of an import is missing.
fn lacks(directory: &Directory, note: &ImportNote) -> bool
    ensures { result ≡ spec_lacks (found_in directory.now note.now.name.items) (import_of note.now) }
{
    let needs_object = !(note.cells == 0 && note.headings.is_empty());
    !is_in_out(note) && needs_object && directory.place(&note.name).is_none()
}

/// The object of that name.
fn object_of<'o>(objects: &'o [Object], directory: &Directory, name: &[u8]) -> Option<&'o Object>
    ensures { option_map (λ o. o.now) result ≡ object_at objects.now (found_in directory.now name.now) }
{
    objects.get(directory.place(name)?)
}

/// An import of an object of this version differs from what is given. InOut has this key.
fn differs(
    objects: &[Object],
    directory: &Directory,
    key: &[u8],
    version: u32,
    note: &ImportNote,
) -> bool
    requires directory { IsDirectory directory.now objects.now }
    requires key { key.now ≡ in_out_key }
    ensures { result ≡ differs_at version objects.now (keyed_of note.now) }
{
    if is_in_out(note) {
        return !agrees_with_in_out(version, note, key);
    }
    match object_of(objects, directory, &note.name) {
        None => false,
        Some(object) => !agrees_with_object(version, note, object),
    }
}

/// The name of the first import of an object whose object is missing.
fn missing_in<'o>(directory: &Directory, object: &'o Object) -> Option<&'o [u8]>
    ensures { option_map (λ n. n.now) result
        ≡ first_in (λ i. spec_lacks (found_in directory.now i.definition.name) i.definition) object.now.imports }
{
    for note in object.imports() {
        if lacks(directory, note) {
            return Some(&note.name);
        }
    }
    None
}

/// The name of the first import of an object that differs from what is given.
fn differing_in<'o>(
    objects: &[Object],
    directory: &Directory,
    key: &[u8],
    object: &'o Object,
) -> Option<&'o [u8]>
    requires directory { IsDirectory directory.now objects.now }
    requires key { key.now ≡ in_out_key }
    ensures { option_map (λ n. n.now) result ≡ first_in (spec_differs objects.now object.now) object.now.imports }
{
    for note in object.imports() {
        if differs(objects, directory, key, object.version(), note) {
            return Some(&note.name);
        }
    }
    None
}

/// The name of the first import whose object is missing.
pub(crate) fn first_missing<'o>(objects: &'o [Object], directory: &Directory) -> Option<&'o [u8]>
    requires directory { IsDirectory directory.now objects.now }
    ensures { option_map (λ n. n.now) result ≡ spec_first_missing objects.now }
{
    for object in objects {
        if let Some(name) = missing_in(directory, object) {
            return Some(name);
        }
    }
    None
}

/// The name of the first import that differs from what is given.
pub(crate) fn first_differing<'o>(
    objects: &'o [Object],
    directory: &Directory,
    key: &[u8],
) -> Option<&'o [u8]>
    requires directory { IsDirectory directory.now objects.now }
    requires key { key.now ≡ in_out_key }
    ensures { option_map (λ n. n.now) result ≡ spec_first_differing objects.now }
{
    for object in objects {
        if let Some(name) = differing_in(objects, directory, key, object) {
            return Some(name);
        }
    }
    None
}
