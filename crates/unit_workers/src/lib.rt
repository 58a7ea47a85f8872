//! What do the streams of a unit leave, when workers make the turns of their tasks at once?
//!
//! The same as when one thread makes them: one output for each stream, in their order, for every number of workers and
//! in whatever order they take turns. A job (`StreamJob`) is the task of a stream with the handle that fills its
//! scope; jobs go from worker to worker through a relay, and what each turn leaves of a job, whoever makes it, stands
//! in `specs/Jobs`: the task is as far as its scope says, over the same table. When no worker gets a job on, the
//! caller ends them in ascending order. Each is told what the one before it has seen; then it has seen each smaller
//! scope complete, and its turn doesn't park. So nothing but want of memory is answered.
//! Each turn passes a gate before and after.
#![tactic(auto)]

mod finishing;
mod handles;
mod jobs;
mod making;
mod opened;
mod opening;
mod running;

pub use finishing::Finished;
pub use opened::{Crew, outputs_by};
pub use running::run_unit;
