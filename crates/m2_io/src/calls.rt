//! The calls of an object in memory, some of which fail.
ghost use Rattle.std.specs.Prelude.{◌≡◌, ◌↔◌, IsTrue};

/// The numbers of the calls that fail, and how many calls were made.
#[derive(Drop)]
pub struct Calls {
    fails: Vec<u32>,
    made: u32,
}

impl Calls {
    ghost use Rattle.m2_io.specs.Calls.{calls_that_fail_at, NextFails, after_call};

    pub fn new(fails: Vec<u32>) -> Calls
        ensures { result ≡ calls_that_fail_at fails }
    {
        Calls { fails, made: 0 }
    }

    /// Makes the next call, and says whether it fails.
    pub fn next_fails(&mut self) -> bool
        ensures fails { IsTrue result ↔ NextFails self.old }
        ensures after { self.new ≡ after_call self.old }
    {
        self.made = self.made.saturating_add(1);
        self.fails.contains(&self.made)
    }
}
