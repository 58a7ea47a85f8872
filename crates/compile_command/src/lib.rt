//! What does compiling a module leave?
//!
//! `compile` reads the texts of a module's unit from a shelf and puts the module's object there, or prints what is
//! said of it: the listing of its diagnostics, which limit it passes, or that it has no text. What that comes to, and
//! how it is delivered, is `module_outcome`'s. The layer above uses the contract of `compile`. A crew of any number of
//! workers works on the streams of the unit, and no clause speaks of how many.
//!
//! `compile_big` compiles the module Big of a number of procedures, and prints what is counted of it.
#![tactic(auto)]

mod big;
mod compiling;
mod judging;
mod telling;
mod work;

pub use big::compile_big;
pub use compiling::compile;
pub use unit_workers::Crew;
