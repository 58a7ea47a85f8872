//! Which texts make up a unit?
//!
//! A main text rests on the definition modules that it imports, and on those that they import. `gather` reads the main
//! text from a shelf and `gather_text` takes it from its caller; both read the definition modules breadth first, each
//! once, and put them into dependency order. What they give is what the definition says (`specs/Outcomes`): the unit
//! with what is wrong with its imports, or the first limit that a text passes. Where nothing is wrong, nothing is left
//! out of the unit (`specs/Answers`).
#![tactic(auto)]

mod begin;
mod dependencies;
mod faults;
mod files;
mod found;
mod gathering;
mod laws;
mod library;
mod progress;
mod reading;
mod wrongs;

pub use faults::GatherFault;
pub use gathering::{Gathered, gather, gather_text};
pub use laws::given_files_have_one_outcome;
pub use library::LIBRARY_TEXT;
