//! Workers.
ghost use Rattle.std.specs.Prelude.{◌≡◌, Some, None, All};
ghost use Rattle.relay.specs.Places.{ComesFrom};
ghost use Rattle.relay.specs.Hands.{jobs_of, held, kept, part, IsHandOf, Rests, KeepsDone};

use crate::hand::{Hand, Relay};
use crate::job::{Job, Turned, Turns};
use std::sync::Wait;
use std::{hint, thread};

/// The longest rest, in spins: some microseconds.
const MOST_SPINS: usize = 256;

/// After a turn that brought nothing on, others get the processor, for the longer, the more such turns came in a row.
fn let_others_run(waited: usize) {
    for _ in 0..waited.min(MOST_SPINS) {
        hint::spin_loop();
    }
    thread::yield_now();
}

/// Turns by the worker with this number, until no job waits in the queue, or as many turns in a row as there are jobs
/// brought none on, or memory ran out.
pub fn work_off<J: Job, T: Turns<J>, R: Wait>(
    rt: &R,
    relay: &Relay<J>,
    turns: &T,
    worker: u32,
    hand: &mut Hand<J>,
)
    requires hand { Rests J.number J.stays relay.now hand.old }
    requires fits { All (T.fits turns.now) (jobs_of relay.now) }
    ensures hand { Rests J.number J.stays relay.now hand.new }
    ensures part { part hand.new ≡ part hand.old }
    ensures kept { KeepsDone J.done (kept hand.old) (kept hand.new) }
{
    let jobs = relay.queue.capacity();
    let mut waited = 0;
    for _ in rt.forever() {
        if waited >= jobs {
            return;
        }
        let Some(mut job) = relay.take(rt, hand) else {
            return;
        };
        let turned = turns.turn(worker, &mut job);
        relay.give_back(rt, hand, job);
        match turned {
            Turned::Further => waited = 0,
            Turned::Waiting => {
                waited += 1;
                let_others_run(waited);
            }
            Turned::NoMemory => return,
        }
    }
}

impl<J: Job> Relay<J> {
    /// The job stays with the hand where it is done, and else it waits again.
    fn give_back<R: Wait>(&self, rt: &R, hand: &mut Hand<J>, job: J)
        requires hand { IsHandOf J.number J.stays self.now hand.old }
        requires held { held hand.old ≡ Some (J.number job) }
        requires job { ComesFrom J.stays (jobs_of self.now) job }
        ensures hand { Rests J.number J.stays self.now hand.new }
        ensures part { part hand.new ≡ part hand.old }
        ensures kept { KeepsDone J.done (kept hand.old) (kept hand.new) }
    {
        if job.is_done() {
            self.keep(hand, job);
        } else {
            self.put(rt, hand, job);
        }
    }
}
