//! What the work on one stream leaves.
use crate::notes::{Answer, Diag};

/// The heading of a procedure, for those who call it: its name, its procedure's number,
/// and the cells of its parameters and of its result.
#[derive(Clone, Copy, Debug, PartialEq, Eq)]
pub struct HeadingNote {
    pub name: u32,
    pub number: u32,
    pub params: u32,
    pub result: u32,
}

/// The code of a block.
#[derive(Drop)]
pub struct ProcCode {
    pub outer: u32,
    pub params: u32,
    pub result: u32,
    pub locals: u32,
    /// The greatest height of the stack.
    pub high: u32,
    /// Its data.
    pub bytes: Vec<u8>,
    pub code: Vec<u8>,
}

/// Why a stream has no tree.
#[derive(Clone, Copy, Debug, PartialEq, Eq)]
pub enum StreamFault {
    /// No sentence begins with the tokens up to this one.
    Syntax(Diag),
    /// The nesting is too deep at this token.
    TooDeep { text: u32, at: u32 },
}

/// What the work on a stream leaves.
#[derive(Drop)]
pub struct Output {
    pub stream: u32,
    pub fault: Option<StreamFault>,
    pub diags: Vec<Diag>,
    pub answers: Vec<Answer>,
    pub code: ProcCode,
    /// The size of the block's own variables.
    pub cells: u32,
    /// Those of a definition, or the procedures of level 1 of a module.
    pub headings: Vec<HeadingNote>,
}
