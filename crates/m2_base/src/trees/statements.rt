//! The trees of statements.
use crate::trees::Ident;
use crate::trees::expressions::{Designator, Expr, Label};

/// A statement and its first token, of an empty one the token after it.
#[cycle(statements)]
pub struct Statement {
    pub at: u32,
    pub form: StmtForm,
}

impl Drop for Statement {
    #[cycle(statements)]
    fn drop(self) {
        let Statement { at: _, form: _ } = self;
    }
}

/// What a statement is.
#[cycle(statements)]
#[derive(Drop)]
pub enum StmtForm {
    Assign {
        to: Designator,
        value: Expr,
    },
    /// A call; a bare designator is a call without arguments.
    Call {
        to: Designator,
        args: Vec<Expr>,
    },
    If {
        arms: Vec<IfArm>,
        other: Vec<Statement>,
    },
    Loop(Vec<Statement>),
    Exit,
    Case {
        value: Expr,
        arms: Vec<CaseArm>,
        other: Option<Vec<Statement>>,
    },
    While {
        test: Expr,
        body: Vec<Statement>,
    },
    Repeat {
        body: Vec<Statement>,
        test: Expr,
    },
    For {
        name: Ident,
        first: Expr,
        last: Expr,
        by: Option<Expr>,
        body: Vec<Statement>,
    },
    With {
        of: Designator,
        body: Vec<Statement>,
    },
    Return(Option<Expr>),
    Empty,
}

/// The test after IF or ELSIF, and what is done where it holds.
#[cycle(statements)]
pub struct IfArm {
    pub test: Expr,
    pub body: Vec<Statement>,
}

impl Drop for IfArm {
    #[cycle(statements)]
    fn drop(self) {
        let IfArm { test: _, body: _ } = self;
    }
}

/// The labels of one arm of a CASE, and what is done there.
#[cycle(statements)]
pub struct CaseArm {
    pub labels: Vec<Label>,
    pub body: Vec<Statement>,
}

impl Drop for CaseArm {
    #[cycle(statements)]
    fn drop(self) {
        let CaseArm { labels: _, body: _ } = self;
    }
}
