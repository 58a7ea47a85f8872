//! What the definition modules of a unit give to those that import them.
ghost use Rattle.std.specs.Prelude.{◌≡◌, ◌<◌, ◌+◌, length, map, option_map, IfOk};
ghost use Rattle.m2_base.specs.Lists.{Each};
ghost use Rattle.object_file.specs.Views.{heading_of, keyed_of};
ghost use Rattle.unit_merge.specs.Objects.{HasItsNumber, IsPlaceIn, callee_of, import_from, imports_from, without_own};

use m2_base::{HeadingNote, Memory, Names, Output};
use object_file::ImportNote;
use std::alloc::Global;

/// The key of a definition text, with the name of its module.
pub(crate) type Key = (u32, [u8; 32]);

/// What each heading takes and leaves.
fn headings_of(alloc: Global, notes: &[HeadingNote]) -> Result<Vec<(u32, u32)>, Memory>
    ensures { IfOk result (λ headings. map heading_of headings.items ≡ map callee_of notes.now) }
{
    let mut headings = Vec::new(alloc);
    for note in notes {
        headings.push((note.params, note.result))?;
    }
    Ok(headings)
}

/// A definition module as an import.
fn import_of(alloc: Global, names: &Names, key: &Key, output: &Output) -> Result<ImportNote, Memory>
    requires { key.now.0 < length names.now }
    ensures import { IfOk result (λ import. keyed_of import ≡ import_from names.now key.now output.now) }
    ensures number { HasItsNumber names.now key.now.0 }
{
    let name = names.bytes(key.0);
    Ok(ImportNote {
        name: name.to_vec(alloc)?,
        key: key.1.to_vec(alloc)?,
        cells: output.cells,
        headings: headings_of(alloc, &output.headings)?,
    })
}

/// All definition modules as imports.
fn all_imports(
    alloc: Global,
    names: &Names,
    keys: &[Key],
    outputs: &[Output],
) -> Result<Vec<ImportNote>, Memory>
    requires named { Each (λ k. k.0 < length names.now) keys.now }
    requires long { length outputs.now ≡ length keys.now }
    ensures imports { IfOk result
        (λ imports. map keyed_of imports.items ≡ imports_from names.now keys.now outputs.now) }
    ensures numbers { IfOk result (λ _. Each (λ k. HasItsNumber names.now k.0) keys.now) }
{
    let mut imports = Vec::new(alloc);
    for (place, key) in keys.iter().enumerate() {
        imports.push(import_of(alloc, names, key, &outputs[place])?)?;
    }
    Ok(imports)
}

/// The definition modules as imports, without the own one.
pub(crate) fn other_imports(
    alloc: Global,
    names: &Names,
    keys: &[Key],
    outputs: &[Output],
    own: Option<usize>,
) -> Result<Vec<ImportNote>, Memory>
    requires named { Each (λ k. k.0 < length names.now) keys.now }
    requires long { length outputs.now ≡ length keys.now }
    requires own { IsPlaceIn keys.now own }
    ensures imports { IfOk result (λ imports. map keyed_of imports.items
        ≡ without_own (option_map (λ n. n + 1) own) (imports_from names.now keys.now outputs.now)) }
    ensures numbers { IfOk result (λ _. Each (λ k. HasItsNumber names.now k.0) keys.now) }
{
    let mut imports = all_imports(alloc, names, keys, outputs)?;
    if let Some(place) = own {
        imports.remove(place);
    }
    Ok(imports)
}
