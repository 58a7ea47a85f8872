//! A block.
use m2_base::{Decl, Ident, Statement};

/// The declarations of a block, its statements and its closing name.
#[derive(Drop)]
pub struct Block {
    pub decls: Vec<Decl>,
    pub body: Vec<Statement>,
    pub close: Ident,
}
