//! What does the work on one stream leave, when it is done in turns over tables that others still fill?
//!
//! A stream is a definition module, a main module or a procedure. Its task parses it, declares item after item,
//! completes its scope, checks the complete block, and makes its statements one by one; a `turn` goes on with that
//! until it is done or has to wait for a scope that isn't complete. What a turn needs and leaves is one record,
//! `IsAsFar` (`specs/Progress`): what is entered is what the items so far make, the scope is complete where the task
//! has completed it, and nothing of the item or statement in hand is kept. So turns may be made in any order, over
//! whatever `Scopes` they are given, and in the end the output is the definition's (`specs/Outputs`).
#![tactic(auto)]

/// The value of a step, or the end of the function where the work stops.
macro_rules! gone {
    ($step:expr) => {
        match $step {
            Ok(value) => value,
            Err(stop) => return Err(stop),
        }
    };
}

/// The value of what takes memory, or the end of the function where there is none.
macro_rules! taken {
    ($value:expr) => {
        match $value {
            Ok(value) => value,
            Err(_) => return Err(Stop::NoMemory),
        }
    };
}

mod collecting;
mod declaring;
mod items;
mod outputs;
mod stages;
mod stating;
mod stops;
mod task;
mod working;

pub use task::{Task, Turn};
