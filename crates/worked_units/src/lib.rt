//! What do the definitions and the laws on units say of whole units?
//!
//! Units that were worked out by hand are trees in `specs`: what the definitions note of them, and which rows they
//! make, is the contract of functions that do nothing. `whole_unit` gathers a unit, and each law on units holds of what
//! it gives.
#![tactic(auto)]

mod gathered;
mod own_definitions;
mod several_blocks;

pub use gathered::whole_unit;
pub use own_definitions::{both, headings, opaque_types, variables};
pub use several_blocks::{arguments_of_lacking, result_of_own_name};
