//! How a relay is opened.
ghost use Rattle.std.specs.Prelude.{◌≡◌, ◌+◌, ◌++◌, ◌<◌, ◌≤◌, ◌∷◌, [], false, length, map, All, IfOk, None};
ghost use Rattle.std.specs.Prelude.{vec_capacity};
ghost use Rattle.crossbeam_queue.specs.Passes.{IsPassOf, IsSamePass, view, ruled_capacity};
ghost use Rattle.relay.specs.Places.{knows, numbers_to};
ghost use Rattle.relay.specs.Hands.{jobs_of, many, IsEmpty, AllHands};

use crate::hand::{Hand, Relay};
use crate::job::Job;
use crate::rule::{Each, Knows};
use crate::steps::{Comes, Cut};
use crossbeam_queue::{Pass, RuledArrayQueue};
use m2_base::Memory;
use std::alloc::{AllocError, Global};
use std::snapshot::Snapshot;
use std::sync::Wait;

impl<J: Job> Relay<J> {
    /// A relay with these jobs in the queue, in their order, and so many hands, which hold and keep none.
    pub fn open<R: Wait>(
        rt: &R,
        alloc: Global,
        jobs: Vec<J>,
        hands: u32,
    ) -> Result<(Relay<J>, Vec<Hand<J>>), Memory>
        requires some { 0 < length jobs.items }
        requires order { map J.number jobs.items ≡ numbers_to (length jobs.items) }
        requires undone { All (λ job. J.done job ≡ false) jobs.items }
        requires hands { (0 < hands) × (hands ≤ 64) }
        ensures jobs { IfOk result (λ opened. jobs_of opened.0 ≡ jobs.items) }
        ensures hands { IfOk result (λ opened. AllHands J.number J.stays opened.0 opened.1.items
            × All IsEmpty opened.1.items × (length opened.1.items ≡ hands)) }
    {
        let (queue, mut pass) = RuledArrayQueue::ruled(alloc, jobs.len())?;
        let relay = Relay {
            queue,
            jobs: Snapshot::of(&jobs),
        };
        fill(rt, &relay, &mut pass, jobs);
        let hands = deal(alloc, &relay, pass, hands)?;
        Ok((relay, hands))
    }

    /// A job comes. It is never refused.
    fn bear<R: Wait>(&self, rt: &R, pass: &mut Pass<J, Knows<J>>, job: J)
        requires pass { IsPassOf self.now.queue pass.old × ((view pass.old).parts ≡ 1024) }
        requires room { length (view pass.old).jobs < many self.now }
        requires next { J.number job ≡ length (view pass.old).jobs + 1 }
        requires undone { J.done job ≡ false }
        ensures pass { IsSamePass pass.old pass.new }
        ensures view { view pass.new
            ≡ knows (view pass.old).parts ((view pass.old).jobs ++ job ∷ []) (view pass.old).out }
    {
        let Ok(()) = self.queue.push_as::<Comes, R>(rt, pass, job) else {
            unreachable!()
        };
    }
}

/// All jobs come, in their order.
fn fill<J: Job, R: Wait>(rt: &R, relay: &Relay<J>, pass: &mut Pass<J, Knows<J>>, jobs: Vec<J>)
    requires pass { IsPassOf relay.now.queue pass.old × (view pass.old ≡ knows 1024 [] []) }
    requires jobs { jobs_of relay.now ≡ jobs.items }
    requires order { map J.number jobs.items ≡ numbers_to (length jobs.items) }
    requires undone { All (λ job. J.done job ≡ false) jobs.items }
    ensures pass { IsSamePass pass.old pass.new }
    ensures view { view pass.new ≡ knows 1024 (jobs_of relay.now) [] }
{
    for job in jobs {
        relay.bear(rt, pass, job);
    }
}

/// A hand that holds and keeps none, with room for so many jobs.
fn empty_hand<J: Job>(
    alloc: Global,
    room: usize,
    pass: Pass<J, Knows<J>>,
) -> Result<Hand<J>, AllocError>
    ensures { IfOk result (λ hand. (hand.pass ≡ pass) × IsEmpty hand × (room ≤ vec_capacity hand.kept)) }
{
    let kept = Vec::with_capacity(alloc, room)?;
    Ok(Hand {
        pass,
        held: None,
        kept,
    })
}

/// Each hand gets one part, and the last one the rest.
fn deal<J: Job>(
    alloc: Global,
    relay: &Relay<J>,
    mut pass: Pass<J, Knows<J>>,
    hands: u32,
) -> Result<Vec<Hand<J>>, AllocError>
    requires pass { IsPassOf relay.now.queue pass × (view pass ≡ knows 1024 (jobs_of relay.now) []) }
    requires order { map J.number (jobs_of relay.now) ≡ numbers_to (many relay.now) }
    requires hands { (0 < hands) × (hands ≤ 64) }
    ensures { IfOk result
        (λ all. AllHands J.number J.stays relay.now all.items × All IsEmpty all.items × (length all.items ≡ hands)) }
{
    let room = relay.queue.capacity();
    let mut all = Vec::with_capacity(alloc, hands as usize)?;
    for made in 1..hands {
        let theirs = relay.queue.another::<Cut>(&mut pass);
        all.push_reserved(empty_hand(alloc, room, theirs)?);
    }
    all.push_reserved(empty_hand(alloc, room, pass)?);
    Ok(all)
}
