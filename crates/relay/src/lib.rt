//! How do jobs go from worker to worker, so that none is lost and none is done twice?
//!
//! A job stands in a queue, or is in one worker's hand, or is among those that a worker keeps. A worker takes one,
//! makes a turn of it, and puts it back, or keeps it where it is done. The queue's rule (`specs/Places`) says that
//! each number is in one of these places at every moment, and that each job in the queue came as one of those with
//! which the relay was opened and isn't done. So no push is refused, and whoever has all hands has all jobs: `close`
//! gives them in the order of their numbers. The layer above says what a job is and what of it each turn leaves as it
//! was (`Job`), and what a turn is (`Turns`); `work_off` is a worker, and `work_at_once` sends as many to work as
//! there are hands, each in a thread of its own. What they leave, the caller ends in the order of the numbers
//! (`finish`), where no job has to wait. `do_all` is both: in the end each job is done.
#![tactic(auto)]

mod at_once;
mod closing;
mod finishing;
mod hand;
mod job;
mod moves;
mod opening;
mod rule;
mod steps;
mod working;

pub use at_once::{do_all, work_at_once};
pub use finishing::finish;
pub use hand::{Hand, Relay};
pub use job::{Job, Turned, Turns};
pub use working::work_off;
