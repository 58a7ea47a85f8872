//! The loop over a text's lexemes.
ghost use Rattle.std.specs.Prelude.{◌≡◌, ◌≤◌, ◌<◌, ◌-◌, ◌^◌, ◌++◌, List, ℕ, IfOk, IfErr, OnOk, OnErr, IsOk, IsErrOf};
ghost use Rattle.std.specs.Prelude.{length, vec_len};
ghost use Rattle.m2_base.specs.Meanings.{meaning_of as spec_meaning};
ghost use Rattle.m2_base.specs.Names.{with_names};
ghost use Rattle.m2_base.specs.Tokens.{AreTokens, names_of};
ghost use Rattle.m2_lex.specs.Adding.{GivesTokens, AddsToken, tokens_in};
ghost use Rattle.m2_lex.specs.Faults.{HasTooMany, Extends};
ghost use Rattle.m2_lex.specs.Places.{place_of};

use crate::longest::lexeme_len;
use crate::meaning::{Meaning, meaning_of};
use crate::position::Position;
use m2_base::{MOST_TOKENS, Memory, Names, Token, TokenKind};
use std::alloc::{AllocError, AllocFailed, Global};
use thiserror::Error;

/// Why a text got no tokens.
#[derive(Debug, Drop, Error)]
pub enum LexFault {
    #[error("more than 1048576 tokens")]
    TooManyTokens,
    #[error("out of memory")]
    Memory,
}

impl From<Memory> for LexFault {
    ghost use Rattle.m2_lex.specs.declared.lexer.LexFault.TheVariants.{Memory as OutOfMemory};
    ghost use Rattle.std.specs.Prelude.{◌≡◌};

    ghost from_gives = { λ _ fault. fault ≡ OutOfMemory };

    fn from(_: Memory) -> Self {
        LexFault::Memory
    }
}

impl<T: Drop> From<AllocFailed<T>> for LexFault {
    ghost use Rattle.m2_lex.specs.declared.lexer.LexFault.TheVariants.{Memory as OutOfMemory};
    ghost use Rattle.std.specs.Prelude.{◌≡◌};

    ghost from_gives = { λ _ fault. fault ≡ OutOfMemory };

    fn from(_: AllocFailed<T>) -> Self {
        LexFault::Memory
    }
}

/// The token of a lexeme at this place; none of a blank.
fn token_of(
    alloc: Global,
    names: &mut Names,
    lexeme: &[u8],
    at: u32,
    position: Position,
) -> Result<Option<Token>, Memory>
    requires room { length names.old < 2 ^ 32 - 1 }
    ensures token { IfOk result (λ token. GivesTokens names.new (place_of position) at lexeme.now (tokens_in token)) }
    ensures names { OnOk result (names.new ≡ with_names names.old (names_of (spec_meaning lexeme.now))) }
    ensures err { OnErr result (names.new ≡ names.old) }
{
    match meaning_of(lexeme) {
        Meaning::Blank => Ok(None),
        Meaning::Name(text) => {
            let number = names.intern(alloc, text)?;
            Ok(Some(position.token(at, TokenKind::Identifier, u64::from(number))))
        }
        Meaning::String(bytes) => {
            let number = names.intern(alloc, bytes)?;
            Ok(Some(position.token(at, TokenKind::String, u64::from(number))))
        }
        Meaning::Character(value) => {
            Ok(Some(position.token(at, TokenKind::Character, u64::from(value))))
        }
        Meaning::Number(value) => Ok(Some(position.token(at, TokenKind::Number, u64::from(value)))),
        Meaning::Fixed(kind) => Ok(Some(position.token(at, kind, 0))),
        Meaning::Bad(fault) => Ok(Some(position.token(at, TokenKind::Bad, fault as u64))),
    }
}

/// Adds the token of a lexeme, unless that is a blank.
fn add_token(
    alloc: Global,
    names: &mut Names,
    tokens: &mut Vec<Token>,
    lexeme: &[u8],
    position: Position,
) -> Result<(), LexFault>
    requires few { vec_len tokens.old < 2 ^ 32 }
    requires room { length names.old < 2 ^ 32 - 1 }
    ensures token { OnOk result
        (AddsToken names.new (place_of position) lexeme.now tokens.old.items tokens.new.items) }
    ensures names { OnOk result (names.new ≡ with_names names.old (names_of (spec_meaning lexeme.now))) }
    ensures extends { Extends names.old names.new }
    ensures err { IfErr result (λ fault. fault ≡ LexFault.Memory) }
{
    let at = tokens.len() as u32;
    if let Some(token) = token_of(alloc, names, lexeme, at, position)? {
        tokens.push(token)?;
    }
    Ok(())
}

/// The tokens of a text, with the end as the last.
///
/// After a fault names may have been added, and old numbers stay.
pub fn lex(alloc: Global, text: &[u8], names: &mut Names) -> Result<Vec<Token>, LexFault>
    requires short { length text.now ≤ 1048576 }
    requires room { length names.old ≤ 4000000000 }
    ensures tokens { IfOk result (λ tokens. AreTokens names.old names.new text.now tokens.items) }
    ensures most { IfOk result (λ tokens. vec_len tokens ≤ 1048576) }

    // Too many tokens exactly where the text has more than 1,048,576 with the end, want of memory aside.
    ensures too_many { IsErrOf result LexFault.TooManyTokens → HasTooMany text.now }
    ensures not_too_many { IsOk result → HasTooMany text.now → ⊥ }
    ensures names { Extends names.old names.new }
{
    names.prepare(alloc, text)?;
    let mut tokens = Vec::new(alloc);
    let mut rest = text;
    let mut position = Position::first();
    let mut plain = 0;
    while !rest.is_empty() {
        let (lexeme, after) = rest.split_at(lexeme_len(rest, &mut plain));
        add_token(alloc, names, &mut tokens, lexeme, position)?;
        position = position.after(lexeme);
        rest = after;
    }
    if tokens.len() == MOST_TOKENS {
        return Err(LexFault::TooManyTokens);
    }
    add_token(alloc, names, &mut tokens, &[], position)?;
    Ok(tokens)
}
