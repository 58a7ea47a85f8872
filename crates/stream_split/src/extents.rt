//! How many rows a scope has at most.
ghost use Rattle.std.specs.Prelude.{◌≡◌, ◌<◌, ◌≤◌, ◌+◌, ◌^◌, ◌∷◌, IfOk, length, map};
ghost use Rattle.std.specs.List.{All};
ghost use Rattle.stream_split.specs.Sizes.{before_begin as spec_before_begin, brought_room as spec_brought_room};
ghost use Rattle.stream_split.specs.Sizes.{declared_room as spec_declared_room, has_from as spec_has_from};
ghost use Rattle.stream_split.specs.Sizes.{is_begin as spec_is_begin, is_from as spec_is_from};
ghost use Rattle.stream_split.specs.Sizes.{may_make_row as spec_may_make_row, room_of as spec_room_of, sizes_of};
ghost use Rattle.stream_split.specs.Views.{stream_view};

use crate::streams::StreamTokens;
use m2_base::{MOST_BROUGHT, Memory, STANDARD_ROWS, StreamKind, Token, TokenKind};
use std::alloc::Global;

/// Whether a token is the word BEGIN.
fn is_begin(token: &Token) -> bool
    ensures { result ≡ spec_is_begin token.now.kind }
{
    matches!(token.kind, TokenKind::Begin)
}

/// The tokens before the first word BEGIN.
fn before_begin(tokens: &[Token]) -> &[Token]
    ensures { result.now ≡ spec_before_begin tokens.now }
{
    let count = tokens.iter().take_while(|token| !is_begin(token)).count();
    &tokens[..count]
}

/// Whether a row may come with a token: with a name, a comma, a semicolon (behind an opaque type), a bracket that
/// opens, or the first word of a type or heading.
fn may_make_row(token: &Token) -> bool
    ensures { result ≡ spec_may_make_row token.now.kind }
{
    matches!(
        token.kind,
        TokenKind::Identifier
            | TokenKind::Comma
            | TokenKind::Semicolon
            | TokenKind::LeftParenthesis
            | TokenKind::LeftBracket
            | TokenKind::Array
            | TokenKind::Pointer
            | TokenKind::Procedure
            | TokenKind::Record
            | TokenKind::Set
    )
}

/// How many rows a stream declares at most, by its tokens before BEGIN: no row comes with the first three, which begin
/// a heading or a module.
fn declared_room(tokens: &[Token]) -> usize
    ensures room { result ≡ spec_declared_room tokens.now }
    ensures few { result ≤ length tokens.now }
{
    tokens
        .iter()
        .skip(3)
        .filter(|token| may_make_row(token))
        .count()
}

/// Whether a token is the word FROM.
fn is_from(token: &Token) -> bool
    ensures { result ≡ spec_is_from token.now.kind }
{
    matches!(token.kind, TokenKind::From)
}

/// Whether the word FROM stands among these tokens.
fn has_from(tokens: &[Token]) -> bool
    ensures { result ≡ spec_has_from tokens.now }
{
    tokens.iter().any(|token| is_from(token))
}

/// How many rows the imports of a stream of this kind bring at most, by whether it has the word FROM.
fn brought_room(kind: StreamKind, from: bool) -> usize
    ensures { result ≡ spec_brought_room kind from }
{
    match (kind, from) {
        (StreamKind::Main | StreamKind::Definition, true) => MOST_BROUGHT,
        _ => 0,
    }
}

/// How many rows the scope of a stream has at most.
fn room_of(stream: &StreamTokens) -> usize
    requires { length stream.now.tokens.items < 2 ^ 30 }
    ensures room { result ≡ spec_room_of (stream_view stream.now) }
    ensures few { result < 2 ^ 31 }
{
    let tokens = before_begin(&stream.tokens);
    declared_room(tokens) + brought_room(stream.kind, has_from(tokens))
}

/// How many rows each scope has at most: scope 0 exactly 37, and a block one for each token before its BEGIN with
/// which a row may come, and where it is a module's and the word FROM stands there 16,384 more,
/// for what its imports bring.
pub fn sizes(alloc: Global, streams: &[StreamTokens]) -> Result<Vec<u32>, Memory>
    requires { All (λ s. length s.tokens.items < 2 ^ 30) streams.now }
    ensures sizes { IfOk result (λ out. out.items ≡ sizes_of (map stream_view streams.now)) }
{
    let mut sizes = Vec::new(alloc);
    sizes.push(STANDARD_ROWS as u32)?;
    for stream in streams {
        sizes.push(room_of(stream) as u32)?;
    }
    Ok(sizes)
}
