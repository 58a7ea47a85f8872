//! A relay and its hands.
ghost use Rattle.std.specs.Prelude.{◌≡◌, length};
ghost use Rattle.crossbeam_queue.specs.Passes.{ruled_capacity};

use crate::job::Job;
use crate::rule::{Each, Knows};
use crossbeam_queue::{Pass, RuledArrayQueue};
use std::snapshot::Snapshot;

/// The queue of the jobs that no worker has, and the jobs as they came.
#[derive(Drop)]
pub struct Relay<J: Job> {
    pub(crate) queue: RuledArrayQueue<J, Knows<J>, Each>,
    pub(crate) jobs: Snapshot<Vec<J>>,
    ghost room: { ruled_capacity queue ≡ length jobs.value.items },
}

/// What one worker has: the number of the job in hand, if any, and the jobs that it keeps.
#[derive(Drop)]
pub struct Hand<J: Job> {
    pub(crate) pass: Pass<J, Knows<J>>,
    pub(crate) held: Option<u32>,
    pub(crate) kept: Vec<J>,
}
