//! The keys of a unit's definition texts.
ghost use Rattle.std.specs.Prelude.{◌≡◌, ◌++◌, ◌∷◌, ◌<◌, ◌^◌, [], length, map, fold, IfOk, OnOk, IsTrue};
ghost use Rattle.std.specs.List.{flat_map};
ghost use Rattle.m2_base.specs.Units.{Front as FrontOf, IsText, TextOf};
ghost use Rattle.m2_parse.specs.Fitting.{names_fit};
ghost use Rattle.stream_split.specs.Fronts.{AreFronts};
ghost use Rattle.definition_keys.specs.Keys.{AreImports, IsFrontAt, key_in, key_of as spec_key_of, with_name};
ghost use Rattle.definition_keys.specs.Keys.{unit_keys as spec_unit_keys};

use crate::bytes::text_bytes_of;
use indexmap::IndexSet;
use m2_base::{Ident, Memory, Names, Text, Texts, Token};
use m2_parse::front;
use sha2::{Digest, Sha256};
use std::alloc::Global;

/// Adds a module to those that are named, unless it is among them.
fn name_module(modules: &mut IndexSet<u32>, named: Ident) -> Result<(), Memory>
    ensures { OnOk result (modules.new.keys ≡ with_name modules.old.keys named.name) }
{
    modules.insert(named.name)?;
    Ok(())
}

/// These modules, each once.
fn firsts(alloc: Global, named: &[Ident]) -> Result<IndexSet<u32>, Memory>
    ensures { IfOk result (λ modules. modules.keys ≡ fold with_name [] (map (λ i. i.name) named.now)) }
{
    let mut modules = IndexSet::new(alloc);
    for one in named {
        name_module(&mut modules, *one)?;
    }
    Ok(modules)
}

/// The modules that a text imports, in the order of their first import.
fn imports_of(alloc: Global, tokens: &[Token], definition: bool) -> Result<IndexSet<u32>, Memory>
    requires { IsTrue (names_fit tokens.now) }
    ensures { IfOk result (λ modules. AreImports definition tokens.now modules.keys) }
{
    let front = front(alloc, tokens, definition)?;
    firsts(alloc, &front.imports)
}

/// Adds the key of the module with this name, if there is one.
fn push_key(message: &mut Vec<u8>, keys: &[(u32, [u8; 32])], name: u32) -> Result<(), Memory>
    ensures { OnOk result (message.new.items ≡ message.old.items ++ key_in keys.now name) }
{
    for key in keys {
        if key.0 == name {
            message.extend_from_slice(&key.1)?;
            return Ok(());
        }
    }
    Ok(())
}

/// Adds the keys of these modules.
fn push_keys(message: &mut Vec<u8>, keys: &[(u32, [u8; 32])], modules: &[u32]) -> Result<(), Memory>
    ensures { OnOk result (message.new.items ≡ message.old.items ++ flat_map (key_in keys.now) modules.now) }
{
    for name in modules {
        push_key(message, keys, *name)?;
    }
    Ok(())
}

/// The key of a text, where these are the keys of the texts before it.
fn key_of(
    alloc: Global,
    names: &Names,
    keys: &[(u32, [u8; 32])],
    text: &Text,
) -> Result<[u8; 32], Memory>
    requires countable { length names.now < 2 ^ 32 }
    requires text { IsText names.now text.now }
    ensures { (front : TextOf → FrontOf) → IsFrontAt front text.now
        → IfOk result (λ key. key ≡ spec_key_of names.now front keys.now text.now) }
{
    let mut message = text_bytes_of(alloc, names, &text.tokens)?;
    let modules = imports_of(alloc, &text.tokens, text.definition)?;
    push_keys(&mut message, keys, modules.as_slice())?;
    Ok(Sha256::digest(&message))
}

/// The keys of a unit's definition texts, each with the name of its module, in dependency order: from the one with
/// scope 1 on. Each text is digested once.
pub fn unit_keys(alloc: Global, texts: &Texts) -> Result<Vec<(u32, [u8; 32])>, Memory>
    ensures { (front : TextOf → FrontOf) → AreFronts front texts.now
        → IfOk result (λ keys. keys.items ≡ spec_unit_keys front texts.now) }
{
    let mut keys = Vec::new(alloc);
    for k in &texts.order {
        let text = &texts.list[*k as usize];
        let key = key_of(alloc, &texts.names, &keys, text)?;
        keys.push((text.name, key))?;
    }
    Ok(keys)
}
