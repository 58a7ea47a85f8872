//! What a relay moves, and what workers do with it.
ghost use Rattle.std.specs.Prelude.{◌≡◌, ◌+◌, ℕ, Bool, true, false};
ghost use Rattle.relay.specs.Ends.{EndsIt};

/// A piece of work with a number, of which one worker at a time makes a turn until it is done.
pub trait Job: Drop {
    ghost number: { Self → ℕ };

    ghost done: { Self → Bool };

    /// What of a job each turn leaves as it was.
    ghost stays: { Self → Self → Type 0 };

    /// From 1 on.
    fn number(&self) -> u32
        ensures { result ≡ number self.now };

    fn is_done(&self) -> bool
        ensures { result ≡ done self.now };

    ghost stays_as_it_is: { (job : Self) → stays job job };

    ghost stays_on: { (job later latest : Self) → stays job later → stays later latest → stays job latest };

    ghost number_stays: { (job later : Self) → stays job later → number later ≡ number job };
}

/// What became of a job in a turn.
#[derive(Clone, Copy)]
pub enum Turned {
    /// It got on.
    Further,
    /// It waits for others.
    Waiting,
    /// Memory ran out.
    NoMemory,
}

/// What workers do with jobs.
pub trait Turns<J: Job> {
    /// The job is one of which turns may be made.
    ghost fits: { Self → J → Type 0 };

    /// Nothing is wanting that the job could wait for.
    ghost ready: { Self → J → Type 0 };

    /// One turn, by the worker with this number.
    fn turn(&self, worker: u32, job: &mut J) -> Turned
        requires fits { fits self.now job.old }
        requires undone { J.done job.old ≡ false }
        ensures later { J.stays job.old job.new }
        ensures ends { ready self.now job.old → EndsIt (J.done job.new) result };

    /// Tells the next job what one knows that is done.
    fn tell(&self, before: &mut J, job: &mut J)
        requires fits { fits self.now before.old × fits self.now job.old }
        requires next { J.number job.old ≡ J.number before.old + 1 }
        requires done { J.done before.old ≡ true }
        requires ready { ready self.now before.old }
        ensures before { J.stays before.old before.new × (J.done before.new ≡ true) }
        ensures job { J.stays job.old job.new × (J.done job.new ≡ J.done job.old) }
        ensures ready { ready self.now job.new };

    ghost fits_on: { (turns : Self) (job later : J) → fits turns job → J.stays job later → fits turns later };

    ghost ready_on: { (turns : Self) (job later : J) → ready turns job → J.stays job later → ready turns later };

    ghost first_ready: { (turns : Self) (job : J) → fits turns job → J.number job ≡ 1 → ready turns job };
}
