//! How a relay is closed.
ghost use Rattle.std.specs.Prelude.{◌≡◌, ◌+◌, ◌++◌, ◌≤◌, ℕ, None, length, map, All, vec_len, vec_capacity};
ghost use Rattle.std.specs.List.Sorted.{IsPermutation, IsNonDecreasingBy};
ghost use Rattle.relay.specs.Places.{times, numbers_to, ComesFrom};
ghost use Rattle.relay.specs.Hands.{jobs_of, many, held, part, Rests, AllHands, AreLater};

use crate::hand::{Hand, Relay};
use crate::job::Job;
use crate::steps::{Cut, Puts, Takes};
use std::sync::Wait;

impl<J: Job> Relay<J> {
    /// All jobs, in the order of their numbers.
    pub fn close<R: Wait>(self, rt: &R, hands: Vec<Hand<J>>) -> Vec<J>
        requires all { AllHands J.number J.stays self hands.items }
        requires free { All (λ hand. held hand ≡ None) hands.items }
        ensures numbers { map J.number result.items ≡ numbers_to (many self) }
        ensures jobs { AreLater J.stays (jobs_of self) result.items }
    {
        let mut rest = hands;
        let Some(mut whole) = rest.pop() else {
            unreachable!()
        };
        for hand in rest {
            whole = self.join(whole, hand);
        }
        by_number(self.drain(rt, whole))
    }

    /// One hand with the parts and the jobs of both.
    fn join(&self, one: Hand<J>, other: Hand<J>) -> Hand<J>
        requires both { Rests J.number J.stays self.now one × Rests J.number J.stays self.now other }
        ensures hand { Rests J.number J.stays self.now result }
        ensures part { part result ≡ part one + part other }
    {
        let Hand {
            mut pass,
            held: _,
            kept,
        } = one;
        let Hand {
            pass: theirs,
            held: _,
            kept: more,
        } = other;
        self.queue.absorb::<Cut>(&mut pass, theirs);
        self.queue.learn_as::<Puts>(&mut pass);
        let kept = push_all(kept, more);
        Hand {
            pass,
            held: None,
            kept,
        }
    }

    /// All jobs, by the hand with all parts.
    fn drain<R: Wait>(&self, rt: &R, hand: Hand<J>) -> Vec<J>
        requires hand { Rests J.number J.stays self.now hand }
        requires whole { part hand ≡ 1024 }
        ensures once { (x : ℕ) → times x (map J.number result.items) ≡ times x (numbers_to (many self.now)) }
        ensures jobs { All (ComesFrom J.stays (jobs_of self.now)) result.items }
    {
        let Hand {
            mut pass,
            held: _,
            mut kept,
        } = hand;
        for _ in rt.forever() {
            match self.queue.pop_as::<Takes, R>(rt, &mut pass) {
                Some(job) => kept.push_reserved(job),
                None => return kept,
            }
        }
        unreachable!()
    }
}

/// Both lists, in the room of the first.
fn push_all<J: Job>(mut to: Vec<J>, from: Vec<J>) -> Vec<J>
    requires { vec_len to + vec_len from ≤ vec_capacity to }
    ensures items { result.items ≡ to.items ++ from.items }
    ensures room { vec_capacity result ≡ vec_capacity to }
{
    for job in from {
        to.push_reserved(job);
    }
    to
}

fn by_number<J: Job>(mut jobs: Vec<J>) -> Vec<J>
    ensures permutation { IsPermutation jobs.items result.items }
    ensures rises { IsNonDecreasingBy J.number result.items }
{
    jobs.sort_unstable_by_key(|job| job.number());
    jobs
}
