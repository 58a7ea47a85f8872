//! Tokens.
use crate::kind::TokenKind;

/// A token of a text, with the place of its first byte.
#[derive(Clone, Copy)]
pub struct Token {
    pub kind: TokenKind,
    /// What the token's kind says of it; 0 where that is nothing.
    pub value: u64,
    /// The token's number in its text, from 0.
    pub at: u32,
    /// The line of its first byte, from 1.
    pub line: u32,
    /// The number of its first byte in the line, from 1.
    pub column: u32,
}
