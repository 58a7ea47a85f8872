//! What is wrong with the imports of a unit.
ghost use Rattle.std.specs.Prelude.{◌≡◌, ◌++◌, IfOk, OnOk};
ghost use Rattle.m2_base.specs.declared.diagnostic.Diagnostic.TheVariants.{NoDefinitionText};
ghost use Rattle.def_import.specs.Closure.{own_name};
ghost use Rattle.def_import.specs.Wrongs.{is_missing, missing_imports, no_own, wrong_at, wrong_name};
ghost use Rattle.def_import.specs.Wrongs.{wrongs_from, wrongs_in};

use crate::found::Found;
use crate::progress::Progress;
use m2_base::{Diag, Diagnostic, Ident, Memory};
use std::alloc::Global;

/// Notes a diagnostic at a name, where it is wrong.
fn note_where(
    wrong: bool,
    wrongs: &mut Vec<Diag>,
    text: u32,
    name: Ident,
    diagnostic: Diagnostic,
) -> Result<(), Memory>
    ensures { OnOk result (wrongs.new.items ≡ wrongs.old.items ++ wrong_at text name diagnostic wrong) }
{
    if wrong {
        wrongs.push(Diag {
            text,
            at: name.at,
            code: diagnostic.code(),
        })?;
    }
    Ok(())
}

/// Notes a module whose definition text isn't there.
fn note_missing(
    progress: &Progress,
    wrongs: &mut Vec<Diag>,
    text: u32,
    named: Ident,
) -> Result<(), Memory>
    ensures { OnOk result
        (wrongs.new.items ≡ wrongs.old.items ++ wrong_at text named NoDefinitionText (is_missing progress.now named)) }
{
    let missing = progress.text_of_module(named.name).is_none();
    note_where(missing, wrongs, text, named, Diagnostic::NoDefinitionText)
}

/// Notes an own definition that isn't there.
fn note_own(
    progress: &Progress,
    wrongs: &mut Vec<Diag>,
    text: u32,
    found: &Found,
) -> Result<(), Memory>
    ensures { OnOk result
        (wrongs.new.items ≡ wrongs.old.items ++ no_own progress.now text (own_name found.now.front)) }
{
    match found.own_name() {
        Some(own) => note_missing(progress, wrongs, text, own),
        None => Ok(()),
    }
}

/// Notes what is wrong at the module's name: it is another than the text's, or the imports go in a circle.
fn note_name(order: &[u32], wrongs: &mut Vec<Diag>, text: u32, found: &Found) -> Result<(), Memory>
    ensures { OnOk result
        (wrongs.new.items ≡ wrongs.old.items ++ wrong_name order.now text found.now found.now.front.name) }
{
    let Some(name) = found.name() else {
        return Ok(());
    };
    let differs = name.name != found.file();
    note_where(differs, wrongs, text, name, Diagnostic::OtherModuleName)?;
    let circular = text > 0 && !order.contains(&text);
    note_where(circular, wrongs, text, name, Diagnostic::CircularImports)
}

/// Notes the imports of modules whose definition texts aren't there.
fn note_imports(
    progress: &Progress,
    wrongs: &mut Vec<Diag>,
    text: u32,
    imports: &[Ident],
) -> Result<(), Memory>
    ensures { OnOk result (wrongs.new.items ≡ wrongs.old.items ++ missing_imports progress.now text imports.now) }
{
    for import in imports {
        note_missing(progress, wrongs, text, *import)?;
    }
    Ok(())
}

/// Notes what is wrong in a text.
fn note_text(
    progress: &Progress,
    order: &[u32],
    wrongs: &mut Vec<Diag>,
    text: u32,
    found: &Found,
) -> Result<(), Memory>
    ensures { OnOk result (wrongs.new.items ≡ wrongs.old.items ++ wrongs_in progress.now order.now text found.now) }
{
    note_own(progress, wrongs, text, found)?;
    note_name(order, wrongs, text, found)?;
    note_imports(progress, wrongs, text, found.imports())
}

/// What is wrong with the imports of all texts, in the order of the texts and their tokens.
pub fn wrongs_of(alloc: Global, progress: &Progress, order: &[u32]) -> Result<Vec<Diag>, Memory>
    ensures { IfOk result (λ wrongs. wrongs.items ≡ wrongs_from progress.now order.now 0 progress.now.found) }
{
    let mut wrongs = Vec::new(alloc);
    for (text, found) in progress.texts().iter().enumerate() {
        note_text(progress, order, &mut wrongs, text as u32, found)?;
    }
    Ok(wrongs)
}
