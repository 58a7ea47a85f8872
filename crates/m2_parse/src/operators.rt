//! Looking at operators, and reading them.
ghost use Rattle.std.specs.Prelude.{◌≡◌};
ghost use Rattle.m2_base.specs.Grammar.{multiplying, signs, adding, relations};
ghost use Rattle.m2_parse.specs.Reading.{Gives, next_in as spec_next_in, expect_in as spec_expect_in};

use crate::faults::ReadFault;
use crate::tokens::Tokens;
use m2_base::{Token, TokenKind};

pub fn is_multiplying(tokens: &Tokens) -> bool
    ensures { result ≡ spec_next_in multiplying tokens.now.list.now }
{
    tokens.next_in(&[
        TokenKind::Times,
        TokenKind::Slash,
        TokenKind::Div,
        TokenKind::Mod,
        TokenKind::And,
    ])
}

pub fn expect_multiplying(tokens: &mut Tokens) -> Result<Token, ReadFault>
    ensures { Gives (λ x. (x, tokens.new.list.now)) result (spec_expect_in multiplying tokens.old.list.now) }
{
    tokens.expect_in(&[
        TokenKind::Times,
        TokenKind::Slash,
        TokenKind::Div,
        TokenKind::Mod,
        TokenKind::And,
    ])
}

pub fn is_sign(tokens: &Tokens) -> bool
    ensures { result ≡ spec_next_in signs tokens.now.list.now }
{
    tokens.next_in(&[TokenKind::Plus, TokenKind::Minus])
}

pub fn expect_sign(tokens: &mut Tokens) -> Result<Token, ReadFault>
    ensures { Gives (λ x. (x, tokens.new.list.now)) result (spec_expect_in signs tokens.old.list.now) }
{
    tokens.expect_in(&[TokenKind::Plus, TokenKind::Minus])
}

pub fn is_adding(tokens: &Tokens) -> bool
    ensures { result ≡ spec_next_in adding tokens.now.list.now }
{
    tokens.next_in(&[TokenKind::Plus, TokenKind::Minus, TokenKind::Or])
}

pub fn expect_adding(tokens: &mut Tokens) -> Result<Token, ReadFault>
    ensures { Gives (λ x. (x, tokens.new.list.now)) result (spec_expect_in adding tokens.old.list.now) }
{
    tokens.expect_in(&[TokenKind::Plus, TokenKind::Minus, TokenKind::Or])
}

pub fn is_relation(tokens: &Tokens) -> bool
    ensures { result ≡ spec_next_in relations tokens.now.list.now }
{
    tokens.next_in(&[
        TokenKind::Equal,
        TokenKind::Unequal,
        TokenKind::Less,
        TokenKind::LessEqual,
        TokenKind::Greater,
        TokenKind::GreaterEqual,
        TokenKind::In,
    ])
}

pub fn expect_relation(tokens: &mut Tokens) -> Result<Token, ReadFault>
    ensures { Gives (λ x. (x, tokens.new.list.now)) result (spec_expect_in relations tokens.old.list.now) }
{
    tokens.expect_in(&[
        TokenKind::Equal,
        TokenKind::Unequal,
        TokenKind::Less,
        TokenKind::LessEqual,
        TokenKind::Greater,
        TokenKind::GreaterEqual,
        TokenKind::In,
    ])
}
