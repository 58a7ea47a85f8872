//! What an object says.
use m2_base::ProcCode;

/// An imported definition as it was when the module was compiled.
#[derive(Drop)]
pub struct ImportNote {
    pub name: Vec<u8>,
    /// The key of its text, which tells whether it was this very definition; empty in version 1.
    pub key: Vec<u8>,
    /// The cells of its variables.
    pub cells: u32,
    /// The parameters' cells and the result of each of its headings.
    pub headings: Vec<(u32, u32)>,
}

/// What an object says. Procedure 0 is the module's body.
#[derive(Drop)]
pub struct Parts {
    /// The version of the format that the object is written in: 1 or 2.
    pub version: u32,
    pub name: Vec<u8>,
    /// The key of its own definition: 32 bytes, or none in version 1.
    pub key: Vec<u8>,
    /// The cells of the module's variables.
    pub cells: u32,
    /// Those of its definition, which come first.
    pub own_cells: u32,
    /// The headings of its definition: the procedure, the cells of its parameters, and its result.
    pub exports: Vec<(u32, u32, u32)>,
    pub imports: Vec<ImportNote>,
    pub procedures: Vec<ProcCode>,
}
