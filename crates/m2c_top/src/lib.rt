//! What does a command line do to a shelf of texts?
//!
//! `m2c` reads the words, does what they ask, and answers a status. What it leaves, the status, what is printed, the
//! texts and the objects of the shelf, and what is left of the input, is defined in `specs/Effects`: of compiling by
//! the definitions of `module_outcome`, and of running and dumping by those of `object_commands`.
//! Its clause `leaves` says that `m2c` leaves just that.
#![tactic(auto)]

mod ending;
mod laws;
mod status;
mod top;

pub use laws::one_outcome;
pub use top::m2c;
