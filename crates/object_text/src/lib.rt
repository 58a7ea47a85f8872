//! How does an object read in words?
//!
//! `specs/Text` has an object's text: a line for the module, for each import, each export and each procedure, and
//! behind a procedure's line one for each instruction of its code. `print_object` writes this text to a sink, a line
//! at a time, in one walk over the object; where the sink fails, what was written is a front of it. The layer above
//! uses that one contract, and the law that an object has one text.
#![tactic(auto)]

mod fault;
mod laws;
mod line;
mod operands;
mod print;

pub use fault::PrintFault;
pub use laws::{one_text, some_text};
pub use print::print_object;
