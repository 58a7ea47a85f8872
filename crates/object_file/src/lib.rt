//! Which bytes are an object?
//!
//! An object is a compiled module in its file. `specs/ObjectFormat` has its fields in their order, each with the
//! values that are valid there; the code of its procedures is valid by the definition in `code_form`. `read_object`
//! gives the object that bytes are, or the first place at which they are none (`specs/Validity`), and `write_object`
//! the bytes. The layers above use those two, and `Object`, each value of which is valid.
#![tactic(auto)]

mod code;
mod conditions;
mod directory;
mod exports;
mod fault;
mod fields;
mod findings;
mod flow;
mod imports;
mod jumps;
mod laws;
mod levels;
mod links;
mod naming;
mod object;
mod parts;
mod picking;
mod point;
mod program;
mod reading;
mod running;
mod sizes;
mod survey;
mod targets;
mod walk;
mod wanted;
mod writing;

pub use directory::{Directory, DirectoryFault};
pub use fault::{ObjectFault, ProgramFault};
pub use laws::{one_fault, one_object, parts_are_valid};
pub use object::{Object, read_object, write_object};
pub use parts::{ImportNote, Parts};
pub use program::Program;
