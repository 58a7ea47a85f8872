//! The trees of a text: what the parser gives, and what the analysers read.
//!
//! A tree has one field for each part of its rule. `at` is the number of the first token, of an operator its
//! own, of an empty statement the token after it. Empty variants, field lists and arms leave no entry, nor do
//! round brackets. `specs/Trees` has the same trees as plain data, and `specs/Views` says what is seen of these.
//!
//! Most structs have a `drop` of their own, which their owners call. A derived one would stand anew in each function
//! that may drop the struct, with all that it owns, and be proved there.
mod declarations;
mod expressions;
mod operators;
mod statements;
mod types;

pub use declarations::{Decl, Heading, Import, Section, Stream, StreamKind};
pub use expressions::{Designator, Expr, ExprForm, Label, Next, Selector};
pub use operators::Operator;
pub use statements::{CaseArm, IfArm, Statement, StmtForm};
pub use types::{FieldList, Formal, TypeExpr, TypeForm, VariantArm};

/// A name and the token that it is.
#[derive(Clone, Copy)]
pub struct Ident {
    pub name: u32,
    pub at: u32,
}

/// A name, or a name of a module and a name of that module.
#[derive(Clone, Copy)]
pub struct Qual {
    pub first: Ident,
    pub second: Option<Ident>,
}
