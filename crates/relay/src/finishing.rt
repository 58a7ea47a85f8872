//! The turns that workers left, by the caller alone.
ghost use Rattle.std.specs.Prelude.{◌≡◌, ◌+◌, ◌<◌, true, length, map, All, OnOk, slice_index_or};
ghost use Rattle.relay.specs.Places.{numbers_to};
ghost use Rattle.relay.specs.Hands.{AreLater};
ghost use Rattle.relay.specs.Ends.{AreOver};

use crate::job::{Job, Turned, Turns};
use m2_base::Memory;

/// The turn of a job that knows all that it could wait for, if it isn't done.
fn end<J: Job, T: Turns<J>>(turns: &T, worker: u32, job: &mut J) -> Result<(), Memory>
    requires fits { T.fits turns.now job.old }
    requires ready { T.ready turns.now job.old }
    ensures later { J.stays job.old job.new }
    ensures done { OnOk result (J.done job.new ≡ true) }
{
    if job.is_done() {
        return Ok(());
    }
    match turns.turn(worker, job) {
        Turned::Further | Turned::Waiting => Ok(()),
        Turned::NoMemory => Err(Memory),
    }
}

/// The job at this place gets to know all that it could wait for: it is told what the one before it knows.
fn tell_at<J: Job, T: Turns<J>>(turns: &T, jobs: &mut [J], place: usize)
    requires there { place < length jobs.old }
    requires order { map J.number jobs.old ≡ numbers_to (length jobs.old) }
    requires fits { All (T.fits turns.now) jobs.old }
    requires before { AreOver (T.ready turns.now) J.done place jobs.old }
    ensures later { AreLater J.stays jobs.old jobs.new }
    ensures before { AreOver (T.ready turns.now) J.done place jobs.new }
    ensures ready { (d : J) → T.ready turns.now (slice_index_or jobs.new place d) }
{
    if place > 0 {
        let (front, back) = jobs.split_at_mut(place);
        turns.tell(&mut front[place - 1], &mut back[0]);
    }
}

/// The job at this place gets its last turn, where those before it are done.
fn end_at<J: Job, T: Turns<J>>(
    turns: &T,
    worker: u32,
    jobs: &mut [J],
    place: usize,
) -> Result<(), Memory>
    requires there { place < length jobs.old }
    requires order { map J.number jobs.old ≡ numbers_to (length jobs.old) }
    requires fits { All (T.fits turns.now) jobs.old }
    requires before { AreOver (T.ready turns.now) J.done place jobs.old }
    ensures later { AreLater J.stays jobs.old jobs.new }
    ensures over { OnOk result (AreOver (T.ready turns.now) J.done (place + 1) jobs.new) }
{
    tell_at(turns, jobs, place);
    end(turns, worker, &mut jobs[place])
}

/// All jobs are ended, in the order of their numbers: each is told what the one before it knows, and gets a turn if it
/// isn't done. So none has to wait. The turns are those of the worker with this number.
pub fn finish<J: Job, T: Turns<J>>(turns: &T, worker: u32, jobs: &mut [J]) -> Result<(), Memory>
    requires order { map J.number jobs.old ≡ numbers_to (length jobs.old) }
    requires fits { All (T.fits turns.now) jobs.old }
    ensures later { AreLater J.stays jobs.old jobs.new }
    ensures ready { OnOk result (All (T.ready turns.now) jobs.new) }
    ensures done { OnOk result (All (λ job. J.done job ≡ true) jobs.new) }
{
    for place in 0..jobs.len() {
        end_at(turns, worker, jobs, place)?;
    }
    Ok(())
}
