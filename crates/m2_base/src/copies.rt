//! What a procedure's body copies first.

/// A copy that a procedure's body makes of a parameter before its first statement.
#[derive(Clone, Copy)]
pub enum ParamCopy {
    /// A structured value parameter, whose address is in a cell, into cells of its own.
    Own(u32, u32, u32),
    /// An open array by value, whose address is in a cell, and the size of its elements.
    Open(u32, u32),
}
