//! Reading a token, or looking at it.
ghost use Rattle.std.specs.Prelude.{◌≡◌, [], ◌∷◌, map, IfOk, ◌<◌};
ghost use Rattle.m2_base.specs.KindNumbers.{kind_number};
ghost use Rattle.ll_grammar.specs.LookAhead.{member};
ghost use Rattle.m2_parse.specs.Fitting.{limit_of};
ghost use Rattle.m2_parse.specs.Reading.{Gives, next_is as spec_next_is, next_in as spec_next_in};
ghost use Rattle.m2_parse.specs.Reading.{expect as spec_expect, expect_in as spec_expect_in, Takes, syntax_fault};
ghost use Rattle.m2_parse.specs.Reading.{place as spec_place};

use crate::faults::{ReadFault, Refusal};
use crate::tokens::Tokens;
use m2_base::{Diagnostic, Token, TokenKind};

/// The code of a token with which no sentence goes on.
const UNEXPECTED: u8 = Diagnostic::UnexpectedToken as u8;

/// The number of a kind.
pub fn number(kind: TokenKind) -> u8
    ensures { result ≡ kind_number kind }
{
    kind as u8
}

/// The kind is one of these.
pub fn is_one_of(kind: TokenKind, kinds: &[TokenKind]) -> bool
    ensures { result ≡ member (kind_number kind) (map kind_number kinds.now) }
{
    for other in kinds {
        if number(kind) == number(*other) {
            return true;
        }
    }
    false
}

impl Tokens<'_> {
    /// The next token is of this kind.
    pub fn next_is(&self, kind: TokenKind) -> bool
        ensures { result ≡ spec_next_is kind self.now.list.now }
    {
        match self.list {
            [] => false,
            [t, ..] => number(t.kind) == number(kind),
        }
    }

    /// The next token is of one of these kinds.
    pub fn next_in(&self, kinds: &[TokenKind]) -> bool
        ensures { result ≡ spec_next_in kinds.now self.now.list.now }
    {
        match self.list {
            [] => false,
            [t, ..] => is_one_of(t.kind, kinds),
        }
    }

    /// The number of the next token.
    pub fn place(&self) -> u32
        ensures { result ≡ spec_place self.now.list.now }
    {
        match self.list {
            [] => 0,
            [t, ..] => t.at,
        }
    }

    /// The next token is refused, since no sentence goes on with it.
    pub fn refused(&self) -> ReadFault
        ensures { result ≡ syntax_fault self.now.list.now }
    {
        match self.list {
            [] => ReadFault::Refused(Refusal::Syntax {
                at: 0,
                code: UNEXPECTED,
            }),
            [t, ..] => {
                if number(t.kind) == number(TokenKind::Bad) {
                    ReadFault::Refused(Refusal::Syntax {
                        at: t.at,
                        code: t.value as u8,
                    })
                } else {
                    ReadFault::Refused(Refusal::Syntax {
                        at: t.at,
                        code: UNEXPECTED,
                    })
                }
            }
        }
    }

    /// Reads a token of this kind.
    pub fn expect(&mut self, kind: TokenKind) -> Result<Token, ReadFault>
        ensures gives { Gives (λ x. (x, self.new.list.now)) result (spec_expect kind self.old.list.now) }
        ensures fits { IfOk result (λ x. x.value < limit_of (kind_number kind)) }
    {
        match self.list {
            [t, rest @ ..] if number(t.kind) == number(kind) => {
                self.list = rest;
                Ok(*t)
            }
            _ => Err(self.refused()),
        }
    }

    /// Reads a token of one of these kinds.
    pub fn expect_in(&mut self, kinds: &[TokenKind]) -> Result<Token, ReadFault>
        ensures { Gives (λ x. (x, self.new.list.now)) result (spec_expect_in kinds.now self.old.list.now) }
    {
        match self.list {
            [t, rest @ ..] if is_one_of(t.kind, kinds) => {
                self.list = rest;
                Ok(*t)
            }
            _ => Err(self.refused()),
        }
    }

    /// Reads a token of this kind where one stands there.
    pub fn next_if(&mut self, kind: TokenKind) -> Option<Token>
        ensures { Takes kind result self.old.list.now self.new.list.now }
    {
        match self.list {
            [t, rest @ ..] if number(t.kind) == number(kind) => {
                self.list = rest;
                Some(*t)
            }
            _ => None,
        }
    }
}
