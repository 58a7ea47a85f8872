//! Texts that are read as samples: the tree of a module, in a unit that has no finished rows.
ghost use Rattle.std.specs.Prelude.{◌≡◌, IfOk, IfSome, drop};
ghost use Rattle.m2_base.specs.Views.{stream_view};
ghost use Rattle.m2_base.specs.declared.kind.TokenKind.TheVariants.{Bad};
ghost use Rattle.m2_base.specs.declared.trees.declarations.StreamKind.TheVariants.{Main};
ghost use Rattle.m2_parse.specs.Streams.{SpellsStream};
ghost use Rattle.m2_cases.specs.Samples.{HasDeclarations, IsSample, first_kind};

use m2_base::{MOST_TEXT_BYTES, Memory, Stream, StreamKind, Texts, Token, TokenKind};
use m2_lex::lone_text;
use m2_parse::{parse_stream, values_fit};
use std::alloc::Global;

/// A module that is analysed. Its unit's text has a fault before it, so that no rows are the unit's in the end, and
/// any may be entered.
#[derive(Drop)]
pub struct Sample {
    pub texts: Texts,
    pub tree: Stream,
}

/// The tokens behind the fault with which the text of a sample begins.
fn behind_fault(tokens: &[Token]) -> Option<&[Token]>
    ensures fault { IfSome result (λ rest. first_kind tokens.now ≡ Bad) }
    ensures rest { IfSome result (λ rest. rest.now ≡ drop 1 tokens.now) }
{
    match tokens {
        [
            Token {
                kind: TokenKind::Bad,
                ..
            },
            rest @ ..,
        ] => Some(rest),
        _ => None,
    }
}

/// The tree that tokens spell, where nothing is imported.
fn tree_of(alloc: Global, tokens: &[Token]) -> Result<Stream, Memory>
    ensures spelled { IfOk result (λ tree. SpellsStream Main (stream_view tree) tokens.now) }
    ensures items { IfOk result (λ tree. HasDeclarations (stream_view tree)) }
{
    if !values_fit(tokens) {
        return Err(Memory);
    }
    match parse_stream(alloc, tokens, 0, StreamKind::Main) {
        Ok(tree) if tree.heading.is_none() && tree.imports.is_empty() => Ok(tree),
        _ => Err(Memory),
    }
}

/// The sample of a text, whose first byte is a fault. A text that isn't a module then finds no memory.
pub fn read(alloc: Global, text: &[u8]) -> Result<Sample, Memory>
    ensures { IfOk result (λ sample. IsSample sample.texts (stream_view sample.tree)) }
{
    if text.len() > MOST_TEXT_BYTES {
        return Err(Memory);
    }
    let Ok(texts) = lone_text(alloc, b"M", text) else {
        return Err(Memory);
    };
    let Some(tokens) = behind_fault(&texts.main().tokens) else {
        return Err(Memory);
    };
    let tree = tree_of(alloc, tokens)?;
    Ok(Sample { texts, tree })
}
