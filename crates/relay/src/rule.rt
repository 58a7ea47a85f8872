//! What a pass knows, and the rule of the queue.

use crate::job::Job;
use crossbeam_queue::protocol::Protocol;
use std::collections::LinkedList;

/// The parts of the right to close, the jobs as they came, and the numbers that are out with the pass.
/// No value of it is made.
pub struct Knows<J> {
    pub parts: u64,
    pub jobs: LinkedList<J>,
    pub out: LinkedList<u32>,
}

/// Each number is in one place.
pub struct Each;

impl<J: Job> Protocol<J, Knows<J>> for Each {
    ghost use Rattle.relay.specs.Places.{Placed, knows};
    ghost use Rattle.std.specs.Prelude.{[]};

    ghost holds = { Placed J.number J.done J.stays };

    ghost first = { knows 1024 [] [] };
}
