//! What does a program do when it runs?
//!
//! The code of a program is a list of operations: instructions whose operands are addresses, places and procedures of
//! the whole program. `specs/Step` says what one operation does to the plain state of a machine (`specs/State`), and
//! `specs/Runs` what at most so many of them do, print and read. `specs/Ready` says which code never gets stuck, and
//! `no_step_is_stuck` that it doesn't. Each operation has a function, and `run::steps` makes at most so many steps.
//! `Machine` loads the objects of a program (`specs/Loading`) and keeps its state from run to run (`specs/Machines`).
#![tactic(auto)]

mod act;
mod arithmetic;
mod code;
mod core_state;
mod decoding;
mod flow;
mod laws;
mod layout;
mod loading;
mod machine;
mod memory;
mod next;
mod op;
mod ops;
mod owners;
mod placed;
mod printing;
mod reading;
mod run;
mod services;
mod sets;
mod stack;
mod start;
mod trap;

pub use code::{Callee, Code, Origin, Routine};
pub use laws::{loaded_code_is_valid, no_step_is_stuck};
pub use machine::{Machine, StartFault};
pub use op::{Kind, Op, Service};
pub use run::End;
pub use trap::Trap;
