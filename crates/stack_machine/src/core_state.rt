//! The state of a machine.

/// Where a caller goes on, and its frame.
#[derive(Clone, Copy)]
pub struct Frame {
    pub at: usize,
    pub base: usize,
    pub top: usize,
    pub link: usize,
}

/// The state of a machine. No two of the numbers that a step changes are neighbours: the compiler would keep them as a
/// pair, which is slower.
#[derive(Drop)]
pub(crate) struct Core {
    /// The place of the next operation.
    pub(crate) at: usize,
    /// The byte after a number that was read.
    pub(crate) kept: Option<u8>,
    /// How many operands there are.
    pub(crate) sp: usize,
    pub(crate) cells: Vec<i64>,
    /// The first cell of the frame.
    pub(crate) base: usize,
    /// The operands, and room for more.
    pub(crate) stack: Vec<i64>,
    /// The cell behind the frame.
    pub(crate) top: usize,
    /// The frames of the callers, the innermost last.
    pub(crate) frames: Vec<Frame>,
    /// The number of the frame to which its static link leads.
    pub(crate) link: usize,
    /// The lowest cell that NEW has taken.
    pub(crate) heap: usize,
}
