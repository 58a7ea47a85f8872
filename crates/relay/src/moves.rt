//! How jobs go out and come back.
ghost use Rattle.std.specs.Prelude.{◌≡◌, ◌++◌, ◌∷◌, [], false, IfSome, IfNone, Some, None, map};
ghost use Rattle.relay.specs.Places.{ComesFrom, MayWait, Spread, those_of};
ghost use Rattle.relay.specs.Hands.{jobs_of, many, held, kept, part, IsHandOf};

use crate::hand::{Hand, Relay};
use crate::job::Job;
use crate::steps::{Puts, Takes};
use std::sync::Wait;

impl<J: Job> Relay<J> {
    /// The job that has waited longest.
    pub fn take<R: Wait>(&self, rt: &R, hand: &mut Hand<J>) -> Option<J>
        requires hand { IsHandOf J.number J.stays self.now hand.old }
        requires free { held hand.old ≡ None }
        ensures hand { IsHandOf J.number J.stays self.now hand.new × (part hand.new ≡ part hand.old) }
        ensures kept { kept hand.new ≡ kept hand.old }
        ensures some { IfSome result
            (λ job. (held hand.new ≡ Some (J.number job)) × MayWait J.number J.done J.stays (jobs_of self.now) job) }

        // None only where the queue was empty: each number was in a hand, or kept.
        ensures none { IfNone result ((held hand.new ≡ None)
            × Spread [] (map J.number (kept hand.old)) (many self.now)) }
    {
        let job = self.queue.pop_as::<Takes, R>(rt, &mut hand.pass)?;
        hand.held = Some(job.number());
        Some(job)
    }

    /// The job waits again, behind all others. It is never refused.
    pub fn put<R: Wait>(&self, rt: &R, hand: &mut Hand<J>, job: J)
        requires hand { IsHandOf J.number J.stays self.now hand.old }
        requires held { held hand.old ≡ Some (J.number job) }
        requires job { MayWait J.number J.done J.stays (jobs_of self.now) job }
        ensures hand { IsHandOf J.number J.stays self.now hand.new × (part hand.new ≡ part hand.old) }
        ensures kept { kept hand.new ≡ kept hand.old }
        ensures free { held hand.new ≡ None }
    {
        let Ok(()) = self.queue.push_as::<Puts, R>(rt, &mut hand.pass, job) else {
            unreachable!()
        };
        hand.held = None;
    }

    /// The job stays with the hand.
    pub fn keep(&self, hand: &mut Hand<J>, job: J)
        requires hand { IsHandOf J.number J.stays self.now hand.old }
        requires held { held hand.old ≡ Some (J.number job) }
        requires job { ComesFrom J.stays (jobs_of self.now) job }
        ensures hand { IsHandOf J.number J.stays self.now hand.new × (part hand.new ≡ part hand.old) }
        ensures kept { kept hand.new ≡ kept hand.old ++ job ∷ [] }
        ensures free { held hand.new ≡ None }
    {
        hand.held = None;
        hand.kept.push_reserved(job);
    }
}
