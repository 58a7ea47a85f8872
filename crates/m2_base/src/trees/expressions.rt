//! The trees of expressions.
use crate::trees::Ident;
use crate::trees::operators::Operator;

/// An expression and its first token, which may be a round bracket.
#[cycle(expressions)]
pub struct Expr {
    pub at: u32,
    pub form: ExprForm,
}

impl Drop for Expr {
    #[cycle(expressions)]
    fn drop(self) {
        let Expr { at: _, form: _ } = self;
    }
}

/// What an expression is.
#[cycle(expressions)]
#[derive(Drop)]
pub enum ExprForm {
    Number(u64),
    Char(u64),
    /// The number of the bytes between the quotes, as of a name.
    Str(u32),
    /// A set, with its type where that stands before the brackets.
    Set {
        of: Option<Designator>,
        items: Vec<Label>,
    },
    Name(Designator),
    Call {
        to: Designator,
        args: Vec<Expr>,
    },
    One {
        op: Operator,
        op_at: u32,
        of: Box<Expr>,
    },
    /// The operators of one sum, one term or one relation, in text order.
    Many {
        first: Box<Expr>,
        rest: Vec<Next>,
    },
}

/// An operator, its token, and what stands on its right.
#[cycle(expressions)]
pub struct Next {
    pub op: Operator,
    pub op_at: u32,
    pub right: Expr,
}

impl Drop for Next {
    #[cycle(expressions)]
    fn drop(self) {
        let Next {
            op: _,
            op_at: _,
            right: _,
        } = self;
    }
}

/// A name with its selectors.
#[cycle(expressions)]
#[derive(Drop)]
pub struct Designator {
    pub first: Ident,
    pub rest: Vec<Selector>,
}

/// A field of a record or a name of a module, an element of an array, or what a pointer points to. The number
/// is the token of `.`, `[` or `^`.
#[cycle(expressions)]
#[derive(Drop)]
pub enum Selector {
    Field(Ident, u32),
    Index(Vec<Expr>, u32),
    Deref(u32),
}

/// One value or a range, as a label of a case or an element of a set.
#[cycle(expressions)]
pub struct Label {
    pub low: Expr,
    pub high: Option<Expr>,
}

impl Drop for Label {
    #[cycle(expressions)]
    fn drop(self) {
        let Label { low: _, high: _ } = self;
    }
}
