//! Operators, and the tokens that they are.
ghost use Rattle.std.specs.Prelude.{◌≡◌};
ghost use Rattle.m2_base.specs.Operators.{operator_of as spec_operator_of, operator_kind};

use crate::kind::TokenKind;

/// An operator of an expression.
#[derive(Clone, Copy)]
pub enum Operator {
    Equal,
    Unequal,
    Less,
    LessEqual,
    Greater,
    GreaterEqual,
    In,
    Plus,
    Minus,
    Or,
    Times,
    Slash,
    Div,
    Mod,
    And,
    Not,
}

impl Operator {
    /// The operator that a token of this kind is. Of other kinds nobody asks.
    pub fn of(kind: TokenKind) -> Operator
        ensures { result ≡ spec_operator_of kind }
    {
        match kind {
            TokenKind::Equal => Operator::Equal,
            TokenKind::Unequal => Operator::Unequal,
            TokenKind::Less => Operator::Less,
            TokenKind::LessEqual => Operator::LessEqual,
            TokenKind::Greater => Operator::Greater,
            TokenKind::GreaterEqual => Operator::GreaterEqual,
            TokenKind::In => Operator::In,
            TokenKind::Plus => Operator::Plus,
            TokenKind::Minus => Operator::Minus,
            TokenKind::Or => Operator::Or,
            TokenKind::Times => Operator::Times,
            TokenKind::Slash => Operator::Slash,
            TokenKind::Div => Operator::Div,
            TokenKind::Mod => Operator::Mod,
            TokenKind::And => Operator::And,
            _ => Operator::Not,
        }
    }

    /// The kind of the tokens that are this operator.
    pub fn kind(self) -> TokenKind
        ensures { result ≡ operator_kind self }
    {
        match self {
            Operator::Equal => TokenKind::Equal,
            Operator::Unequal => TokenKind::Unequal,
            Operator::Less => TokenKind::Less,
            Operator::LessEqual => TokenKind::LessEqual,
            Operator::Greater => TokenKind::Greater,
            Operator::GreaterEqual => TokenKind::GreaterEqual,
            Operator::In => TokenKind::In,
            Operator::Plus => TokenKind::Plus,
            Operator::Minus => TokenKind::Minus,
            Operator::Or => TokenKind::Or,
            Operator::Times => TokenKind::Times,
            Operator::Slash => TokenKind::Slash,
            Operator::Div => TokenKind::Div,
            Operator::Mod => TokenKind::Mod,
            Operator::And => TokenKind::And,
            Operator::Not => TokenKind::Not,
        }
    }
}
