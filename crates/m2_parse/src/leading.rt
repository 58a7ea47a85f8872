//! The tokens that a front is read from.
ghost use Rattle.std.specs.Prelude.{◌≡◌, IsTrue};
ghost use Rattle.m2_parse.specs.Fitting.{all_fit, names_fit};
ghost use Rattle.m2_parse.specs.Leading.{is_outside as spec_is_outside, leading as spec_leading};
ghost use Rattle.m2_parse.specs.Leading.{leading_count as spec_leading_count};

use crate::reading::is_one_of;
use m2_base::{Token, TokenKind};

/// No front has a token of this kind: it is a string, a cut, or a fault of the text.
fn is_outside(token: Token) -> bool
    ensures { result ≡ spec_is_outside token }
{
    is_one_of(
        token.kind,
        &[TokenKind::String, TokenKind::Bad, TokenKind::Cut],
    )
}

/// How many tokens stand before the first that no front has.
fn leading_count(tokens: &[Token]) -> usize
    ensures { result ≡ spec_leading_count tokens.now }
{
    let mut count = 0;
    for token in tokens {
        if is_outside(*token) {
            return count;
        }
        count += 1;
    }
    count
}

/// The tokens before the first that no front has.
#[tactic(auto, using(std::proofs::lemmas::Grind::common_steps, crate::proofs::LeadingLaws::take_leading, crate::proofs::LeadingLaws::few_lead, crate::proofs::LeadingLaws::leading_fits))]
pub fn leading(tokens: &[Token]) -> &[Token]
    requires { IsTrue (names_fit tokens.now) }
    ensures leads { result.now ≡ spec_leading tokens.now }
    ensures fits { IsTrue (all_fit result.now) }
{
    let count = leading_count(tokens);
    &tokens[..count]
}
