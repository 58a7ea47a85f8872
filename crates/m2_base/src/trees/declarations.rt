//! The trees of declarations, and the tree of a stream.
use crate::trees::expressions::Expr;
use crate::trees::statements::Statement;
use crate::trees::types::TypeExpr;
use crate::trees::{Ident, Qual};

/// What a stream of tokens is: the main text without its procedures, a definition text, or one procedure.
#[derive(Clone, Copy)]
pub enum StreamKind {
    Main,
    Definition,
    Procedure,
}

/// The tree of one stream.
pub struct Stream {
    pub kind: StreamKind,
    pub implementation: bool,
    /// The module's name; a procedure's is in its heading.
    pub name: Option<Ident>,
    pub imports: Vec<Import>,
    pub heading: Option<Heading>,
    pub decls: Vec<Decl>,
    pub body: Vec<Statement>,
    /// The name after END.
    pub close: Ident,
}

impl Drop for Stream {
    fn drop(self) {
        let Stream {
            kind: _,
            implementation: _,
            name: _,
            imports: _,
            heading: _,
            decls: _,
            body: _,
            close: _,
        } = self;
    }
}

/// Names of modules, or after FROM names of that module.
#[derive(Drop)]
pub struct Import {
    pub from: Option<Ident>,
    pub names: Vec<Ident>,
}

/// A declaration.
#[derive(Drop)]
pub enum Decl {
    Const { name: Ident, value: Expr },
    Types { name: Ident, typ: Option<TypeExpr> },
    Vars { names: Vec<Ident>, typ: TypeExpr },
    /// A procedure, and the number of the stream that its block is in; in a definition 0.
    Proc { heading: Heading, stream: u32 },
}

/// The heading of a procedure.
pub struct Heading {
    pub name: Ident,
    pub sections: Vec<Section>,
    pub result: Option<Qual>,
}

impl Drop for Heading {
    fn drop(self) {
        let Heading {
            name: _,
            sections: _,
            result: _,
        } = self;
    }
}

/// Parameters of one mode and one type.
pub struct Section {
    pub by_ref: bool,
    pub names: Vec<Ident>,
    pub is_open: bool,
    pub of: Qual,
}

impl Drop for Section {
    fn drop(self) {
        let Section {
            by_ref: _,
            names: _,
            is_open: _,
            of: _,
        } = self;
    }
}
