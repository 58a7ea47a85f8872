//! Operations: instructions whose operands are addresses, places and procedures of the whole program.

use crate::trap::Trap;

/// The type of a result.
#[derive(Clone, Copy)]
pub enum Kind {
    Integer,
    Cardinal,
}

/// A procedure of InOut.
#[derive(Clone, Copy)]
pub enum Service {
    Read,
    ReadInt,
    ReadCard,
    Write,
    WriteString,
    WriteLn,
    WriteInt,
    WriteCard,
}

/// An operation. A place is the number of an operation.
#[derive(Clone, Copy)]
pub enum Op {
    /// A value, or an address.
    Push(i64),
    /// The address of a cell in the frame to which so many static links lead.
    Local(u32, u32),
    Load,
    Store,
    Move(u32),
    Dup,
    Offset(u32),
    Index(i64, u32, u32),
    IndexOpen(u32),
    Check(i64, i64),
    Nil,
    Add(Kind),
    Sub(Kind),
    Mul(Kind),
    Div(Kind),
    Mod(Kind),
    Neg,
    Abs,
    Not,
    Eq,
    Ne,
    Lt,
    Le,
    Gt,
    Ge,
    Union,
    Diff,
    Inter,
    SymDiff,
    Subset,
    Superset,
    In,
    Bit,
    Span,
    Jump(usize),
    JumpFalse(usize),
    AndJump(usize),
    OrJump(usize),
    More(i64),
    /// A procedure of the program, and the number of static links that lead to the one that encloses it.
    Call(usize, u32),
    CallService(Service),
    CallVar(u32, u32),
    Return,
    Trap(Trap),
    New(u32),
    OpenCopy(u32, u32),
    Halt,
    Cap,
}
