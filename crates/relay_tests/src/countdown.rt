//! Jobs that count down.
use relay::{Job, Turned, Turns};
use std::sync::atomic::{AtomicU64, Ordering};

/// A job that takes so many turns.
#[derive(Drop)]
pub struct Countdown {
    pub number: u32,
    /// The turns that are left.
    pub left: u32,
    /// The number of a job that must be done first, or 0.
    pub after: u32,
    /// Whether it knows that all jobs with smaller numbers are done. Then it waits for none, and one turn ends it.
    pub told: bool,
    /// How many turns were made of it in which it got on, and in how many it had to wait.
    pub turns: u32,
    pub waits: u32,
    /// Who made the last turn in which it got on.
    pub by: Option<u32>,
}

impl Job for Countdown {
    ghost use Rattle.relay_tests.specs.Countdowns.{number_of, is_over, GoesOn, goes_as_it_is, goes_on, keeps_number};

    ghost number = { number_of };

    ghost done = { is_over };

    ghost stays = { GoesOn };

    fn number(&self) -> u32 {
        self.number
    }

    fn is_done(&self) -> bool {
        self.left == 0
    }

    ghost stays_as_it_is = { goes_as_it_is };

    ghost stays_on = { goes_on };

    ghost number_stays = { keeps_number };
}

/// What the turns of all jobs share.
#[derive(Drop)]
pub struct Counting {
    /// 1 for each of the jobs 1 to 3 that is done, as workers tell it.
    over: [AtomicU64; 3],
    /// The number of a job for which workers with a number below `ample` find no memory, or 0.
    short: u32,
    ample: u32,
}

impl Counting {
    pub fn new(short: u32, ample: u32) -> Counting {
        let over = [AtomicU64::new(0), AtomicU64::new(0), AtomicU64::new(0)];
        Counting { over, short, ample }
    }

    /// What tells whether the job with this number is done.
    fn over(&self, number: u32) -> Option<&AtomicU64> {
        self.over.get(number.wrapping_sub(1) as usize)
    }

    /// Whether the job has to wait, as far as workers know.
    fn must_wait(&self, job: &Countdown) -> bool {
        let done = self
            .over(job.after)
            .map(|over| over.load(Ordering::SeqCst) == 1);
        job.after != 0 && done != Some(true)
    }
}

impl Turns<Countdown> for Counting {
    ghost use Rattle.relay_tests.specs.Countdowns.{CanBeCounted, IsTold, counts_on, stays_told, first_is_told};

    ghost fits = { λ counting job. CanBeCounted job };

    ghost ready = { λ counting job. IsTold job };

    fn turn(&self, worker: u32, job: &mut Countdown) -> Turned {
        if job.number == self.short && worker < self.ample {
            return Turned::NoMemory;
        }
        if !job.told && self.must_wait(job) {
            job.waits = job.waits.wrapping_add(1);
            return Turned::Waiting;
        }
        job.left = if job.told { 0 } else { job.left - 1 };
        job.turns = job.turns.wrapping_add(1);
        job.by = Some(worker);
        if job.left == 0
            && let Some(over) = self.over(job.number)
        {
            over.store(1, Ordering::SeqCst);
        }
        Turned::Further
    }

    fn tell(&self, before: &mut Countdown, job: &mut Countdown) {
        job.told = before.told && before.left == 0;
    }

    ghost fits_on = { λ counting. counts_on };

    ghost ready_on = { λ counting. stays_told };

    ghost first_ready = { λ counting. first_is_told };
}
