//! Places in a text.
ghost use Rattle.std.specs.Prelude.{◌≡◌, ◌+◌, ◌^◌, ◌<◌, length};
ghost use Rattle.m2_base.specs.Positions.{first_position, after_byte as spec_after_byte};
ghost use Rattle.m2_base.specs.Positions.{after_bytes as spec_after_bytes};
ghost use Rattle.m2_lex.specs.Places.{place_of};

use m2_base::{Token, TokenKind};

/// A place in a text: the line, and the number of the byte in the line, both from 1.
#[derive(Clone, Copy)]
pub struct Position {
    pub line: u32,
    pub column: u32,
}

impl Position {
    /// The place where a text begins.
    pub fn first() -> Position
        ensures { place_of result ≡ first_position }
    {
        Position { line: 1, column: 1 }
    }

    /// The place behind a byte.
    fn after_byte(self, byte: u8) -> Position
        requires line { self.line + 1 < 2 ^ 32 }
        requires column { self.column + 1 < 2 ^ 32 }
        ensures { place_of result ≡ spec_after_byte (place_of self) byte }
    {
        if byte == b'\n' {
            Position {
                line: self.line + 1,
                column: 1,
            }
        } else {
            Position {
                line: self.line,
                column: self.column + 1,
            }
        }
    }

    /// The place behind these bytes.
    pub fn after(self, bytes: &[u8]) -> Position
        requires line { self.line + length bytes.now < 2 ^ 32 }
        requires column { self.column + length bytes.now < 2 ^ 32 }
        ensures { place_of result ≡ spec_after_bytes (place_of self) bytes.now }
    {
        let mut position = self;
        for byte in bytes {
            position = position.after_byte(*byte);
        }
        position
    }

    /// The token with this number, at this place.
    pub fn token(self, at: u32, kind: TokenKind, value: u64) -> Token
        ensures { result ≡ record { kind = kind; value = value; at = at; line = self.line; column = self.column } }
    {
        Token {
            kind,
            value,
            at,
            line: self.line,
            column: self.column,
        }
    }
}
