//! A sink in memory.
ghost use Rattle.std.specs.Prelude.{◌≡◌, ◌≤◌, ◌++◌, ◌⊎◌, ◌↔◌, ◌≢◌, ◌-◌, [], Some, IfOk, IsErr, IsOk, OnErr};
ghost use Rattle.std.specs.Prelude.{vec_capacity, length, take, min};
ghost use Rattle.m2_io.specs.Calls.{calls_that_fail_at, NextFails, after_call};
ghost use Rattle.m2_io.specs.Causes.{RoseWhere};

use crate::calls::Calls;
use crate::sink::{Sink, SinkError};
use m2_base::Memory;
use std::alloc::Global;

/// A sink that keeps what is written, in room of its own.
#[derive(Drop)]
pub struct MemSink {
    bytes: Vec<u8>,
    calls: Calls,
    most: usize,
    room: usize,
    faults: u64,
    ghost has_room: { room ≤ vec_capacity bytes },
    ghost takes_some: { 1 ≤ most },
}

impl MemSink {
    ghost use Rattle.m2_io.specs.MemSink.{calls_of, most_of, room_of};

    /// An empty sink. Its calls are numbered from 1, and those numbered in `fails` fail. A write takes
    /// at most `most` bytes, and all of them take at most `room`.
    pub fn new(alloc: Global, fails: Vec<u32>, most: usize, room: usize) -> Result<MemSink, Memory>
        requires { 1 ≤ most }
        ensures written { IfOk result (λ sink. ⟦<MemSink as Sink>⟧.written sink ≡ Some []) }
        ensures faults { IfOk result (λ sink. ⟦<MemSink as Sink>⟧.faults sink ≡ 0) }
        ensures calls { IfOk result (λ sink. calls_of sink ≡ calls_that_fail_at fails) }
        ensures most { IfOk result (λ sink. most_of sink ≡ most) }
        ensures room { IfOk result (λ sink. room_of sink ≡ room) }
    {
        let bytes = Vec::with_capacity(alloc, room)?;
        Ok(MemSink {
            bytes,
            calls: Calls::new(fails),
            most,
            room,
            faults: 0,
        })
    }

    /// The bytes that were written.
    pub fn bytes(&self) -> &[u8]
        ensures { ⟦<MemSink as Sink>⟧.written self.now ≡ Some result.now }
    {
        self.bytes.as_slice()
    }
}

impl Sink for MemSink {
    ghost use Rattle.m2_io.specs.MemSink.{bytes_of, calls_of, most_of, room_of, free_room, faults_of};

    ghost written = { λ s. Some (bytes_of s) };

    ghost kept = { λ _. 0 };

    ghost faults = { faults_of };

    fn write(&mut self, bytes: &[u8]) -> Result<usize, SinkError>
        // It takes the least of the piece, what one write takes and the room that is free.
        ensures count { IfOk result (λ n.
            n ≡ min (min (length bytes.now) (most_of self.old)) (free_room self.old)) }
        ensures some { IfOk result (λ n. n ≡ 0 → bytes.now ≡ []) }
        ensures ok { IfOk result (λ n. bytes_of self.new ≡ bytes_of self.old ++ take n bytes.now) }
        ensures err { OnErr result (bytes_of self.new ≡ bytes_of self.old) }

        // It fails exactly where the number of the call is among those that fail, or a piece that isn't
        // empty finds no room.
        ensures failed { IsErr result ↔
            (NextFails (calls_of self.old) ⊎ (free_room self.old ≡ 0 × bytes.now ≢ [])) }
        ensures faults { RoseWhere (IsErr result) (faults_of self.old) (faults_of self.new) }
        ensures later { faults_of self.old ≤ faults_of self.new }
        ensures calls { calls_of self.new ≡ after_call (calls_of self.old) }
        ensures most { most_of self.new ≡ most_of self.old }
        ensures room { room_of self.new ≡ room_of self.old }
    {
        let free = self.room.saturating_sub(self.bytes.len());
        let is_full = free == 0 && !bytes.is_empty();
        if self.calls.next_fails() || is_full {
            self.faults = self.faults.saturating_add(1);
            return Err(SinkError);
        }
        let count = bytes.len().min(self.most).min(free);
        self.bytes.extend_from_slice(&bytes[..count]).unwrap();
        Ok(count)
    }

    /// Does nothing, since nothing is kept back. It is no call that is numbered.
    fn flush(&mut self) -> Result<(), SinkError>
        ensures ok { IsOk result }
        ensures same { self.new ≡ self.old }
        ensures written { bytes_of self.new ≡ bytes_of self.old }
        ensures later { faults_of self.old ≤ faults_of self.new }
    {
        Ok(())
    }
}
