//! Naming the modules of a program.
ghost use Rattle.std.specs.Prelude.{◌≡◌, [], ◌∷◌, IsTrue, OnOk, map};
ghost use Rattle.std.specs.List.{AllByRecursion};
ghost use Rattle.std.specs.Str.{bytes_eq};
ghost use Rattle.m2_base.specs.Names.{with_name, with_names};
ghost use Rattle.object_file.specs.ObjectFormat.{is_identifier};
ghost use Rattle.object_file.specs.Programs.{in_out};
ghost use Rattle.object_file.specs.Views.{keyed_of};
ghost use Rattle.program_load.specs.Closure.{AreKnown, modules_in, texts_of};

use m2_base::Memory;
use object_file::ImportNote;
use std::alloc::Global;
use std::collections::BTreeSet;
use std::str::from_utf8;

/// Names one more module, unless it is named.
fn name_module(
    alloc: Global,
    names: &mut Vec<String>,
    known: &mut BTreeSet<String>,
    name: &str,
) -> Result<(), Memory>
    requires { AreKnown known.old (texts_of names.old.items) }
    ensures named { OnOk result (texts_of names.new.items ≡ with_name (texts_of names.old.items) name.now) }
    ensures known { OnOk result (AreKnown known.new (texts_of names.new.items)) }
{
    if known.contains(name) {
        return Ok(());
    }
    let text = name.to_string(alloc)?;
    known.insert(text)?;
    let text = name.to_string(alloc)?;
    names.push(text)?;
    Ok(())
}

/// It is InOut that is imported.
fn is_in_out(note: &ImportNote) -> bool
    ensures { result ≡ bytes_eq note.now.name.items in_out.name }
{
    note.name.as_slice() == b"InOut".as_slice()
}

/// Names the module that is imported, unless it is InOut.
fn name_import(
    alloc: Global,
    names: &mut Vec<String>,
    known: &mut BTreeSet<String>,
    note: &ImportNote,
) -> Result<(), Memory>
    requires known { AreKnown known.old (texts_of names.old.items) }
    requires identifier { IsTrue (is_identifier note.now.name.items) }
    ensures named { OnOk result
        (texts_of names.new.items ≡ with_names (texts_of names.old.items) (modules_in (keyed_of note.now ∷ []))) }
    ensures known { OnOk result (AreKnown known.new (texts_of names.new.items)) }
{
    if is_in_out(note) {
        return Ok(());
    }
    match from_utf8(&note.name) {
        Ok(name) => name_module(alloc, names, known, name),
        Err(_) => unreachable!(),
    }
}

/// Names the modules that are imported.
pub fn name_imports(
    alloc: Global,
    names: &mut Vec<String>,
    known: &mut BTreeSet<String>,
    notes: &[ImportNote],
) -> Result<(), Memory>
    requires known { AreKnown known.old (texts_of names.old.items) }
    requires identifiers { AllByRecursion (λ i. IsTrue (is_identifier i.definition.name)) (map keyed_of notes.now) }
    ensures named { OnOk result
        (texts_of names.new.items ≡ with_names (texts_of names.old.items) (modules_in (map keyed_of notes.now))) }
    ensures known { OnOk result (AreKnown known.new (texts_of names.new.items)) }
{
    for note in notes {
        name_import(alloc, names, known, note)?;
    }
    Ok(())
}
