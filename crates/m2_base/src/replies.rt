//! What a search answers.
ghost use Rattle.std.specs.Prelude.{◌≡◌};

use crate::rows::{Place, Row};
use std::marker::Model;

/// The scopes that a name is looked up in, the innermost first.
#[derive(Drop)]
pub struct Chain {
    pub scopes: Vec<u32>,
}

impl Model for Chain {
    ghost use Rattle.std.specs.Prelude.{List, ℕ};

    ghost Value = { List ℕ };

    ghost view = { λ chain. chain.scopes.items };
}

impl Chain {
    pub fn scopes(&self) -> &[u32]
        ensures { result.now ≡ self.now }
    {
        self.scopes.as_slice()
    }
}

/// What a table shows of a scope at one moment: how many rows, and whether there will be more.
#[derive(Clone, Copy, Debug, PartialEq, Eq)]
pub struct Head {
    pub scope: u32,
    pub count: u32,
    pub complete: bool,
}

/// The answer of a search.
#[derive(Clone, Copy, Debug, PartialEq, Eq)]
pub enum Reply {
    /// The row of that name, for good.
    Found(Place, Row),
    /// No scope of the chain has the name, for good.
    Absent,
    /// The scope of this head lacks the name, and isn't complete.
    DontKnowYet(Head),
}

/// An answer that rests on rows that may not be there yet.
#[derive(Clone, Copy, Debug, PartialEq, Eq)]
pub enum Ask<T> {
    Known(T),
    DontKnowYet(Head),
}
