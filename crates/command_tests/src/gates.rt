//! Gates that watch turns.
use m2_io::Gate;
use std::sync::atomic::{AtomicU64, Ordering};

/// How often a call that waits looks at most.
const LOOKS: u32 = 300_000_000;

/// Holds the first call for stream 2 in which it is further than at the start until stream 3 has had such a call, and
/// the other way round.
#[derive(Drop)]
pub(crate) struct Meeting {
    /// The number of the worker that came for stream 2, and 1 more, or 0.
    second: AtomicU64,
    /// The same of stream 3.
    third: AtomicU64,
    /// How many calls waited in vain.
    missed: AtomicU64,
}

impl Meeting {
    pub(crate) fn new() -> Meeting {
        Meeting {
            second: AtomicU64::new(0),
            third: AtomicU64::new(0),
            missed: AtomicU64::new(0),
        }
    }

    /// The workers that came, each 1 more than its number, or 0.
    pub(crate) fn workers(&self) -> (u64, u64) {
        (
            self.second.load(Ordering::SeqCst),
            self.third.load(Ordering::SeqCst),
        )
    }

    pub(crate) fn missed(&self) -> u64 {
        self.missed.load(Ordering::SeqCst)
    }
}

/// Waits until the other has come, for so long as it looks.
fn meets(other: &AtomicU64) -> bool {
    for _ in 0..LOOKS {
        if other.load(Ordering::SeqCst) != 0 {
            return true;
        }
    }
    false
}

impl Gate for Meeting {
    fn pass(&self, worker: u32, stream: u32, steps: u64) {
        let (own, other) = match stream {
            2 => (&self.second, &self.third),
            3 => (&self.third, &self.second),
            _ => return,
        };
        if steps == 0 || own.load(Ordering::SeqCst) != 0 {
            return;
        }
        own.store(worker as u64 + 1, Ordering::SeqCst);
        if !meets(other) {
            self.missed.store(1, Ordering::SeqCst);
        }
    }
}

/// Counts the calls, and notes whether each worker's number was at most this.
#[derive(Drop)]
pub(crate) struct Counting {
    pub most: u32,
    pub calls: AtomicU64,
    pub strangers: AtomicU64,
}

impl Gate for Counting {
    fn pass(&self, worker: u32, _stream: u32, _steps: u64) {
        self.calls.fetch_add(1, Ordering::SeqCst);
        if worker > self.most {
            self.strangers.store(1, Ordering::SeqCst);
        }
    }
}
