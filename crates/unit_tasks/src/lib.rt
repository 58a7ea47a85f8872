//! With what do the tasks of a unit's streams begin, and what do they leave?
//!
//! A task begins with its stream and with what surrounds the stream's block (`surroundings`). `specs/Starts` says when
//! a task stands at a stream with nothing done, whatever holds the scopes, and `specs/Outputs` what the streams of a
//! unit leave, each its own output. Whoever makes the turns, one thread or several workers, says it in these words.
#![tactic(auto)]

mod blocks;

pub use blocks::surroundings;
