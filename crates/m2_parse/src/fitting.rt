//! Whether the values of tokens fit.
ghost use Rattle.std.specs.Prelude.{◌≡◌};
ghost use Rattle.m2_parse.specs.Fitting.{fits, all_fit, name_fits as spec_name_fits, names_fit as spec_names_fit};

use m2_base::{Token, TokenKind};

/// The value of this token is one that its kind may have.
fn value_fits(token: Token) -> bool
    ensures { result ≡ fits token }
{
    match token.kind {
        TokenKind::Identifier | TokenKind::String | TokenKind::Cut => {
            token.value <= u32::MAX as u64
        }
        TokenKind::Bad => token.value <= u8::MAX as u64,
        _ => true,
    }
}

/// The values of all tokens fit: a name, a string and a cut below 2^32, and the code of a fault below 256. The tokens
/// of a text and those of its streams do.
pub fn values_fit(tokens: &[Token]) -> bool
    ensures { result ≡ all_fit tokens.now }
{
    for token in tokens {
        if !value_fits(*token) {
            return false;
        }
    }
    true
}

/// The value of this token is a name's, if it is a name.
fn name_fits(token: Token) -> bool
    ensures { result ≡ spec_name_fits token }
{
    match token.kind {
        TokenKind::Identifier => token.value <= u32::MAX as u64,
        _ => true,
    }
}

/// All names are below 2^32. A front asks no more.
pub fn names_fit(tokens: &[Token]) -> bool
    ensures { result ≡ spec_names_fit tokens.now }
{
    for token in tokens {
        if !name_fits(*token) {
            return false;
        }
    }
    true
}
