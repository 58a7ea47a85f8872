//! What do the commands over objects answer?
//!
//! `dump` prints a module's object in words, and `run` runs the program of a module: what it prints goes to a sink as
//! it comes, and it reads from a source no further than it asks. What they leave is `specs/Dumps` and `specs/Runs`: of
//! each there is one outcome, which says the answer, what is printed, and what is left of the input. The layer above
//! uses those two contracts and `one_outcome`.
#![tactic(auto)]

mod answer;
mod dumping;
mod failure;
mod laws;
mod lines;
mod running;

pub use answer::{Answer, Stop};
pub use dumping::dump;
pub use laws::one_outcome;
pub use running::{Settings, run};
