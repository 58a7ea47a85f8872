//! What is told of the module Big.
use crate::limit::Limit;

/// What is counted of a unit that is compiled.
#[derive(Clone, Copy)]
pub struct Counts {
    /// Of all texts.
    pub tokens: usize,
    pub streams: usize,
    /// The bytes of the code of all procedures.
    pub code: usize,
    /// The bytes of the object.
    pub object: usize,
    pub diags: usize,
}

/// What is told: the counts, or the limit that is passed.
#[derive(Clone, Copy)]
pub enum Summary {
    Counted(Counts),
    Limited(Limit),
}
