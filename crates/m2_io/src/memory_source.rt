//! A source in memory.
ghost use Rattle.std.specs.Prelude.{◌≡◌, ◌≤◌, ◌<◌, ◌↔◌, ◌++◌, Some, IfOk, IsErr, OnErr, vec_len, length, take, drop};
ghost use Rattle.std.specs.Prelude.{min};
ghost use Rattle.m2_io.specs.Calls.{calls_that_fail_at, NextFails, after_call};
ghost use Rattle.m2_io.specs.Causes.{RoseWhere};

use crate::calls::Calls;
use crate::source::{Source, SourceError};

/// A source that gives bytes which it was given.
#[derive(Drop)]
pub struct MemSource {
    bytes: Vec<u8>,
    read: usize,
    calls: Calls,
    faults: u64,
    ghost within: { read ≤ vec_len bytes },
}

impl MemSource {
    ghost use Rattle.m2_io.specs.MemSource.{calls_of};

    /// A source of these bytes. Its calls are numbered from 1, and those numbered in `fails` fail.
    pub fn new(bytes: Vec<u8>, fails: Vec<u32>) -> MemSource
        ensures left { ⟦<MemSource as Source>⟧.left result ≡ Some bytes.items }
        ensures faults { ⟦<MemSource as Source>⟧.faults result ≡ 0 }
        ensures calls { calls_of result ≡ calls_that_fail_at fails }
    {
        MemSource {
            bytes,
            read: 0,
            calls: Calls::new(fails),
            faults: 0,
        }
    }
}

impl Source for MemSource {
    ghost use Rattle.m2_io.specs.MemSource.{left_of, calls_of, faults_of};

    ghost left = { λ s. Some (left_of s) };

    ghost faults = { faults_of };

    fn read(&mut self, buf: &mut [u8]) -> Result<usize, SourceError>
        // It gives as many bytes as are left and find room, and the rest of the buffer is as before.
        ensures count { IfOk result (λ n. n ≡ min (length (left_of self.old)) (length buf.old)) }
        ensures front { IfOk result (λ n. left_of self.old ≡ take n buf.new ++ left_of self.new) }
        ensures rest { IfOk result (λ n. drop n buf.new ≡ drop n buf.old) }
        ensures err { OnErr result (left_of self.new ≡ left_of self.old) }
        ensures same { OnErr result (buf.new ≡ buf.old) }

        // It fails exactly where the number of the call is among those that fail.
        ensures failed { IsErr result ↔ NextFails (calls_of self.old) }
        ensures faults { RoseWhere (IsErr result) (faults_of self.old) (faults_of self.new) }
        ensures later { faults_of self.old ≤ faults_of self.new }
        ensures calls { calls_of self.new ≡ after_call (calls_of self.old) }
    {
        if self.calls.next_fails() {
            self.faults = self.faults.saturating_add(1);
            return Err(SourceError);
        }
        let left = &self.bytes[self.read..];
        let count = left.len().min(buf.len());
        buf[..count].copy_from_slice(&left[..count]);
        self.read += count;
        Ok(count)
    }
}
