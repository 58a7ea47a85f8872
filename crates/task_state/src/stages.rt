//! How far the work on a stream is.
use crate::collecting::Collected;
use m2_base::{Around, Diag, Output, Stream, Texts, Token};
use stmt_sem::Body;

/// What was noted of a complete block, and its body in the making.
#[derive(Drop)]
pub(crate) struct Stating {
    pub closing: Vec<Diag>,
    pub body: Body,
}

/// A block whose tree is read.
pub(crate) struct Begun {
    pub tree: Stream,
    pub collected: Collected,
    /// Whether the first cell of its variables is known.
    pub placed: bool,
    /// Whether its scope is complete.
    pub closed: bool,
    pub stating: Option<Stating>,
}

// (derived, it would be proved anew, with all that it owns, in each crate above that drops a task)
impl Drop for Begun {
    fn drop(self) {
        let Begun {
            tree: _,
            collected: _,
            placed: _,
            closed: _,
            stating: _,
        } = self;
    }
}

/// How far a task is.
#[derive(Drop)]
pub(crate) enum Stage {
    /// Its tokens aren't read yet.
    Unread(Vec<Token>),
    Working(Begun),
    /// What it leaves.
    Ended(Output),
}

/// A block in hand, and the texts of its unit.
#[derive(Drop)]
pub(crate) struct Block<'a> {
    pub texts: &'a Texts,
    pub around: &'a Around,
    pub tree: &'a Stream,
}
