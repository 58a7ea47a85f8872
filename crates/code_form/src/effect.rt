//! What instructions do to the stack's height.

/// What an instruction does to the number of operands on the stack.
#[derive(Clone, Copy)]
pub enum Effect {
    /// It takes some and leaves some.
    Changes(u64, u64),
    /// A call of this own procedure: it takes the cells of the parameters, and leaves the result.
    CallsOwn(u32),
    /// A call of a module's heading, with the number of the import and of the heading.
    CallsImport(u32, u32),
    /// A return takes the result of its own procedure.
    GivesResult,
}
