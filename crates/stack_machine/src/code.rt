//! The code of a program, as it is executed.

use crate::op::{Op, Service};

/// A procedure of the program.
#[derive(Clone, Copy)]
pub struct Routine {
    /// The place of its first operation.
    pub entry: usize,
    /// The cells of its parameters.
    pub params: usize,
    /// The cells of its result: 1 or 0.
    pub result: usize,
    /// All its cells.
    pub locals: usize,
    /// The greatest height of its operands.
    pub high: usize,
    /// The procedure that directly encloses it, if there is one.
    pub outer: Option<usize>,
}

/// Where an operation comes from: the object in running order, its procedure, and the byte in the procedure's code.
#[derive(Clone, Copy)]
pub struct Origin {
    pub module: u32,
    pub procedure: u32,
    pub offset: u32,
}

/// What a call through a variable reaches.
#[derive(Clone, Copy)]
pub enum Callee {
    Routine(usize),
    Service(Service),
}

/// The code of a program.
#[derive(Drop)]
pub struct Code {
    pub ops: Vec<Op>,
    /// Where each operation comes from.
    pub origins: Vec<Origin>,
    pub routines: Vec<Routine>,
    /// The bodies of the modules, in running order.
    pub bodies: Vec<usize>,
    /// The first cell of the first frame.
    pub frames_at: usize,
    /// Whether InOut is imported.
    pub has_in_out: bool,
}
