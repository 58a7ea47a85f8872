//! Reading the front of a text: the module's name, and the modules that it imports.
ghost use Rattle.std.specs.Prelude.{◌≡◌, ◌++◌, length, IfOk, IsTrue};
ghost use Rattle.m2_base.specs.Fronts.{modules_of, IsFront};
ghost use Rattle.m2_base.specs.Views.{import_view};
ghost use Rattle.m2_parse.specs.Fronts.{definition_head_at, main_head_at, head_at, modules_at};
ghost use Rattle.m2_parse.specs.Fronts.{imports_behind as spec_imports_behind, front_of};
ghost use Rattle.m2_parse.specs.FrontViews.{front_view};
ghost use Rattle.m2_parse.specs.Fitting.{names_fit};
ghost use Rattle.m2_parse.specs.Reading.{Gives};

use crate::faults::ReadFault;
use crate::heads::Front;
use crate::leading::leading;
use crate::names::ident;
use crate::streams::{implementation, import};
use crate::tokens::Tokens;
use m2_base::{Ident, Import, Memory, Token, TokenKind};
use std::alloc::Global;

/// DEFINITION MODULE ident
#[tactic(auto, unfolding(crate::specs::Fronts::definition_head_at))]
fn definition_head(tokens: &mut Tokens) -> Result<(bool, Ident), ReadFault>
    ensures { Gives (λ x. (x, tokens.new.list.now)) result (definition_head_at tokens.old.list.now) }
{
    tokens.expect(TokenKind::Definition)?;
    tokens.expect(TokenKind::Module)?;
    let name = ident(tokens)?;
    Ok((false, name))
}

/// [IMPLEMENTATION] MODULE ident
#[tactic(auto, unfolding(crate::specs::Fronts::main_head_at))]
fn main_head(tokens: &mut Tokens) -> Result<(bool, Ident), ReadFault>
    ensures { Gives (λ x. (x, tokens.new.list.now)) result (main_head_at tokens.old.list.now) }
{
    let implementation = implementation(tokens)?;
    tokens.expect(TokenKind::Module)?;
    let name = ident(tokens)?;
    Ok((implementation, name))
}

/// The head of a text.
fn head(tokens: &mut Tokens, definition: bool) -> Result<(bool, Ident), ReadFault>
    ensures { Gives (λ x. (x, tokens.new.list.now)) result (head_at definition tokens.old.list.now) }
{
    if definition {
        definition_head(tokens)
    } else {
        main_head(tokens)
    }
}

/// The modules of an import.
fn modules(alloc: Global, found: Import) -> Result<Vec<Ident>, Memory>
    ensures { IfOk result (λ v. v.items ≡ modules_of (import_view found)) }
{
    match found.from {
        None => Ok(found.names),
        Some(module) => {
            let mut items = Vec::new(alloc);
            items.push(module)?;
            Ok(items)
        }
    }
}

/// The modules of the whole imports at the front.
fn all_modules(alloc: Global, tokens: &mut Tokens) -> Result<Vec<Ident>, Memory>
    ensures { IfOk result (λ v. v.items ≡ modules_at (length tokens.old.list.now) tokens.old.list.now) }
{
    let mut items = Vec::new(alloc);
    for _ in 0..tokens.list.len() {
        let found = match import(alloc, tokens) {
            Ok(read) => read,
            Err(ReadFault::Memory) => return Err(Memory),
            Err(ReadFault::Refused(_)) => return Ok(items),
        };
        let mut some = modules(alloc, found)?;
        items.append(&mut some)?;
    }
    Ok(items)
}

/// The modules of the imports behind the name and its ";".
fn imports_behind(alloc: Global, tokens: &mut Tokens) -> Result<Vec<Ident>, Memory>
    ensures { IfOk result (λ v. v.items ≡ spec_imports_behind tokens.old.list.now) }
{
    let Some(_) = tokens.next_if(TokenKind::Semicolon) else {
        return Ok(Vec::new(alloc));
    };
    all_modules(alloc, tokens)
}

/// The front, as it is read.
fn read_front(alloc: Global, mut tokens: Tokens, definition: bool) -> Result<Front, Memory>
    ensures { IfOk result (λ f. front_view f ≡ front_of definition tokens.entry.list.now) }
{
    let (implementation, name) = match head(&mut tokens, definition) {
        Ok(read) => read,
        Err(ReadFault::Memory) => return Err(Memory),
        Err(ReadFault::Refused(_)) => {
            return Ok(Front {
                name: None,
                implementation: false,
                imports: Vec::new(alloc),
            });
        }
    };
    let imports = imports_behind(alloc, &mut tokens)?;
    Ok(Front {
        name: Some(name),
        implementation,
        imports,
    })
}

/// The front of a text: a definition's, or that of a main text. Where a token is refused before the name, there is no
/// name and no import; a later one ends the imports.
pub fn front(alloc: Global, tokens: &[Token], definition: bool) -> Result<Front, Memory>
    requires { IsTrue (names_fit tokens.now) }
    ensures { IfOk result (λ f. IsFront definition tokens.now (front_view f)) }
{
    read_front(
        alloc,
        Tokens {
            list: leading(tokens),
        },
        definition,
    )
}
