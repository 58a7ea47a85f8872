//! Which text has the module of so many procedures?
//!
//! A module of any size is wanted to see how a compiler fares with many procedures. `big` makes the text of one, whose
//! lines are those of the definition (`specs/BigModule`). A caller compiles it as it does any text:
//! it is one that may be compiled (`big_is_a_text`).
#![tactic(auto)]

mod big_module;
mod laws;

pub use big_module::big;
pub use laws::big_is_a_text;
