//! What a seat of a table knows, as plain data.
ghost use Rattle.std.specs.Prelude.{◌≡◌, ◌+◌, ◌<◌, suc, length, slice_index};

use m2_base::{Head, Reply, Row, Texts};
use std::marker::Model;
use std::snapshot::Snapshot;

/// The numbers of the words at which the parts of the scopes begin.
#[derive(Drop)]
pub struct Bases {
    list: Vec<u64>,
}

impl Model for Bases {
    ghost use Rattle.std.specs.Prelude.{ℕ, List};

    ghost Value = { List ℕ };

    ghost view = { λ b. b.list.items };
}

impl Bases {
    pub(crate) fn new(list: Vec<u64>) -> Bases
        ensures { result ≡ list.items }
    {
        Bases { list }
    }

    pub(crate) fn at(&self, scope: u32) -> u64
        requires { scope < length self.now }
        ensures { result ≡ slice_index self.now scope }
    {
        self.list[scope as usize]
    }

    pub(crate) fn next(&self, scope: u32) -> u64
        requires { scope + 1 < length self.now }
        ensures { result ≡ slice_index self.now (suc scope) }
    {
        self.list[scope as usize + 1]
    }
}

/// What a table is told when it is made: the texts of its unit, and where its words lie. With n scopes, the words
/// from 0 to n - 1 are their heads. Scope j has the words from `bases[j]` to `bases[j + 1]`: its rows, and from
/// `mids[j]` on its cells.
#[derive(Drop)]
pub struct About {
    pub texts: Snapshot<Texts>,
    pub bases: Snapshot<Bases>,
    pub mids: Snapshot<Bases>,
}

/// The rows that are shown in a scope, whether it is complete, and what its cells are then. No value of it is made.
pub struct Shown {
    pub rows: [Row; 0],
    pub complete: bool,
    pub cells: [u64; 0],
}

/// A search: the token and the name, the scopes that it was to try, the heads that it loaded, and its reply. No value
/// of it is made.
pub struct Look {
    pub at: u32,
    pub name: u32,
    pub chain: [u32; 0],
    pub heads: [Head; 0],
    pub reply: Reply,
}

/// What a seat knows: the scopes that it may fill, what it has seen of each scope, the words of rows that it has put
/// and not shown, the heads that it has loaded, and its searches. No value of it is made.
pub struct View {
    pub about: About,
    pub rights: [u32; 0],
    pub seen: [Shown; 0],
    pub put: [u64; 0],
    pub loads: [Head; 0],
    pub looks: [Look; 0],
}
