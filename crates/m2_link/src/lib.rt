//! Which program do several objects make?
//!
//! `link` finds for each import the object of that name, and compares what the one was compiled with and the other
//! gives: cells, headings, and keys where both have them. What objects are refused for, and in which order, is
//! `specs/Refusals`; where there is nothing, the program is the objects to which imports lead from the first one, in
//! the order in which their bodies run (object_file's `specs/Running`). The layer above uses that one contract.
#![tactic(auto)]

mod agreement;
mod fault;
mod imports;
mod in_out;
mod linking;

pub use fault::LinkFault;
pub use linking::link;
