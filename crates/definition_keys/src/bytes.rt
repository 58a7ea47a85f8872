//! The bytes that tell the tokens of a text.
ghost use Rattle.std.specs.Prelude.{◌≡◌, ◌++◌, ◌<◌, ◌^◌, true, length, slice_index_or, [], IfOk, OnOk, IsTrue};
ghost use Rattle.m2_base.specs.Lists.{Each};
ghost use Rattle.m2_base.specs.Units.{HasValue, IsSpelling};
ghost use Rattle.m2_parse.specs.Fitting.{name_fits, names_fit};
ghost use Rattle.definition_keys.specs.KeyBytes.{is_of as spec_is_of, spelled_bytes, token_bytes, value_bytes};
ghost use Rattle.definition_keys.specs.KeyBytes.{text_bytes};

use m2_base::{Memory, Names, Token, TokenKind};
use std::alloc::Global;

fn is_of(kind: TokenKind, token: Token) -> bool
    ensures { result ≡ spec_is_of kind token }
{
    token.kind as u8 == kind as u8
}

/// A length and so many bytes.
fn push_spelled(bytes: &mut Vec<u8>, text: &[u8]) -> Result<(), Memory>
    requires { length text.now < 2 ^ 32 }
    ensures { OnOk result (bytes.new.items ≡ bytes.old.items ++ spelled_bytes text.now) }
{
    bytes.extend_from_slice(&(text.len() as u32).to_le_bytes())?;
    bytes.extend_from_slice(text)?;
    Ok(())
}

/// The bytes of a name or a string.
fn push_name(bytes: &mut Vec<u8>, names: &Names, value: u64) -> Result<(), Memory>
    requires there { value < length names.now }
    requires few { value < 2 ^ 32 }
    requires short { length (slice_index_or names.now value []) < 2 ^ 32 }
    ensures { OnOk result (bytes.new.items ≡ bytes.old.items ++ spelled_bytes (slice_index_or names.now value [])) }
{
    push_spelled(bytes, names.bytes(value as u32))
}

/// What stands behind a token's kind.
fn push_value(bytes: &mut Vec<u8>, names: &Names, token: Token) -> Result<(), Memory>
    requires countable { length names.now < 2 ^ 32 }
    requires value { HasValue names.now token.kind token.value }
    ensures { OnOk result (bytes.new.items ≡ bytes.old.items ++ value_bytes names.now token) }
{
    if is_of(TokenKind::Identifier, token) || is_of(TokenKind::String, token) {
        push_name(bytes, names, token.value)?;
    } else if is_of(TokenKind::Number, token) || is_of(TokenKind::Character, token) {
        bytes.extend_from_slice(&token.value.to_le_bytes())?;
    }
    Ok(())
}

/// A value has eight bytes.
fn is_word(value: u64)
    ensures { value < 2 ^ 64 }
{}

/// A token.
fn push_token(bytes: &mut Vec<u8>, names: &Names, token: Token) -> Result<(), Memory>
    requires countable { length names.now < 2 ^ 32 }
    requires value { HasValue names.now token.kind token.value }
    ensures fits { name_fits token ≡ true }
    ensures bytes { OnOk result (bytes.new.items ≡ bytes.old.items ++ token_bytes names.now token) }
{
    is_word(token.value);
    if is_of(TokenKind::EndOfText, token) {
        return Ok(());
    }
    bytes.push(token.kind as u8)?;
    push_value(bytes, names, token)
}

/// The bytes of a text's tokens, whose values fit what its front has of them.
pub(crate) fn text_bytes_of(
    alloc: Global,
    names: &Names,
    tokens: &[Token],
) -> Result<Vec<u8>, Memory>
    requires countable { length names.now < 2 ^ 32 }
    requires values { Each (λ token. HasValue names.now token.kind token.value) tokens.now }
    ensures fits { IfOk result (λ bytes. IsTrue (names_fit tokens.now)) }
    ensures bytes { IfOk result (λ bytes. bytes.items ≡ text_bytes names.now tokens.now) }
{
    let mut bytes = Vec::new(alloc);
    for token in tokens {
        push_token(&mut bytes, names, *token)?;
    }
    Ok(bytes)
}
