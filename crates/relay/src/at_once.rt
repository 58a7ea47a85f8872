//! Workers at once.
ghost use Rattle.std.specs.Prelude.{◌≡◌, ◌<◌, ◌≤◌, true, false, length, map, All, IfOk, None};
ghost use Rattle.relay.specs.Places.{numbers_to};
ghost use Rattle.relay.specs.Hands.{jobs_of, held, AllHands, AreLater};

use crate::finishing::finish;
use crate::hand::{Hand, Relay};
use crate::job::{Job, Turns};
use crate::working::work_off;
use m2_base::Memory;
use std::alloc::Global;
use std::sync::Wait;
use std::thread;
use std::thread::Threads;

/// Each hand goes to work, in a thread of its own where one can be started. Workers have the numbers from 0.
fn work_all<J: Job + Send, T: Turns<J> + Sync, R: Threads + Wait + Sync>(
    rt: &R,
    relay: &Relay<J>,
    turns: &T,
    hands: &mut [Hand<J>],
)
    requires all { AllHands J.number J.stays relay.now hands.old }
    requires free { All (λ hand. held hand ≡ None) hands.old }
    requires few { (0 < length hands.old) × (length hands.old ≤ 64) }
    requires fits { All (T.fits turns.now) (jobs_of relay.now) }
    ensures all { AllHands J.number J.stays relay.now hands.new }
    ensures free { All (λ hand. held hand ≡ None) hands.new }
{
    let threads = hands.len();
    thread::for_each_mut(
        rt,
        hands,
        threads,
        &|worker, hand| work_off(rt, relay, turns, worker as u32, hand),
    );
}

/// Workers take turns at the jobs, each worker in a thread of its own where one can be started, until none of them
/// gets a job on. Then all jobs are there again, in the order of their numbers, each as the turns left it.
/// Workers have the numbers from 0.
pub fn work_at_once<J: Job + Send, T: Turns<J> + Sync, R: Threads + Wait + Sync>(
    rt: &R,
    alloc: Global,
    turns: &T,
    jobs: Vec<J>,
    workers: u32,
) -> Result<Vec<J>, Memory>
    requires some { 0 < length jobs.items }
    requires order { map J.number jobs.items ≡ numbers_to (length jobs.items) }
    requires undone { All (λ job. J.done job ≡ false) jobs.items }
    requires fits { All (T.fits turns.now) jobs.items }
    requires workers { (0 < workers) × (workers ≤ 64) }
    ensures numbers { IfOk result (λ left. map J.number left.items ≡ numbers_to (length jobs.items)) }
    ensures jobs { IfOk result (λ left. AreLater J.stays jobs.items left.items) }
    ensures fits { IfOk result (λ left. All (T.fits turns.now) left.items) }
{
    let (relay, mut hands) = Relay::open(rt, alloc, jobs, workers)?;
    work_all(rt, &relay, turns, hands.as_mut_slice());
    Ok(relay.close(rt, hands))
}

/// All jobs, each done, in the order of their numbers: workers take turns at them at once, and then the caller ends
/// what is left, as the worker whose number follows on theirs.
pub fn do_all<J: Job + Send, T: Turns<J> + Sync, R: Threads + Wait + Sync>(
    rt: &R,
    alloc: Global,
    turns: &T,
    jobs: Vec<J>,
    workers: u32,
) -> Result<Vec<J>, Memory>
    requires some { 0 < length jobs.items }
    requires order { map J.number jobs.items ≡ numbers_to (length jobs.items) }
    requires undone { All (λ job. J.done job ≡ false) jobs.items }
    requires fits { All (T.fits turns.now) jobs.items }
    requires workers { (0 < workers) × (workers ≤ 64) }
    ensures numbers { IfOk result (λ left. map J.number left.items ≡ numbers_to (length jobs.items)) }
    ensures jobs { IfOk result (λ left. AreLater J.stays jobs.items left.items) }
    ensures ready { IfOk result (λ left. All (T.ready turns.now) left.items) }
    ensures done { IfOk result (λ left. All (λ job. J.done job ≡ true) left.items) }
{
    let mut left = work_at_once(rt, alloc, turns, jobs, workers)?;
    finish(turns, workers, left.as_mut_slice())?;
    Ok(left)
}
