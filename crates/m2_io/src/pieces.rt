//! A sink that hands on in pieces what is written.
ghost use Rattle.std.specs.Prelude.{◌≡◌, ◌≤◌, ◌<◌, ◌+◌, ◌++◌, [], IfErr, IfOk, OnErr, OnOk, drop, length, take};
ghost use Rattle.std.specs.Prelude.{vec_capacity, vec_len};
ghost use Rattle.m2_io.specs.Causes.{Rose};
ghost use Rattle.m2_io.specs.Written.{with_bytes};

use crate::sink::{Sink, SinkError};
use m2_base::Memory;
use std::alloc::Global;

/// How many bytes a piece has.
const PIECE: usize = 8192;

/// A sink that keeps what is written until there are 8,192 bytes of it, or it is flushed, and then hands that on to
/// another sink. Where that one fails, it still keeps what wasn't taken.
#[derive(Drop)]
pub struct Pieces<P: Drop> {
    sink: P,
    kept: Vec<u8>,
    ghost has_room: { 8192 ≤ vec_capacity kept },
    ghost within: { vec_len kept ≤ 8192 },
}

/// Drops so many bytes at the front.
fn drop_front(bytes: &mut Vec<u8>, count: usize)
    requires { count ≤ vec_len bytes.old }
    ensures items { bytes.new.items ≡ drop count bytes.old.items }
    ensures len { vec_len bytes.new + count ≡ vec_len bytes.old }
    ensures capacity { vec_capacity bytes.new ≡ vec_capacity bytes.old }
{
    let len = bytes.len();
    bytes.as_mut_slice().copy_within(count..len, 0);
    bytes.truncate(len - count);
}

impl<P: Sink + Drop> Pieces<P> {
    ghost use Rattle.m2_io.specs.Pieces.{kept_in, sink_of};

    /// Nothing is kept back yet.
    pub fn new(alloc: Global, sink: P) -> Result<Pieces<P>, Memory>
        ensures sink { IfOk result (λ pieces. sink_of pieces ≡ sink) }
        ensures kept { IfOk result (λ pieces. kept_in pieces ≡ []) }
    {
        let kept = Vec::with_capacity(alloc, PIECE)?;
        Ok(Pieces { sink, kept })
    }

    /// The sink that the pieces are handed on to.
    pub fn sink(&self) -> &P
        ensures { result.now ≡ sink_of self.now }
    {
        &self.sink
    }

    /// Hands on what this sink keeps back itself.
    fn hand_on(&mut self) -> Result<(), SinkError>
        ensures written { with_bytes (P.written (sink_of self.new)) (kept_in self.new)
            ≡ with_bytes (P.written (sink_of self.old)) (kept_in self.old) }
        ensures kept { OnOk result (kept_in self.new ≡ []) }
        ensures failed { OnErr result (Rose (P.faults (sink_of self.old)) (P.faults (sink_of self.new))) }
        ensures later { P.faults (sink_of self.old) ≤ P.faults (sink_of self.new) }
    {
        while !self.kept.is_empty() {
            let count = self.sink.write(&self.kept)?;
            drop_front(&mut self.kept, count);
        }
        Ok(())
    }
}

impl<P: Sink + Drop> Sink for Pieces<P> {
    ghost use Rattle.m2_io.specs.Pieces.{kept_in, sink_of};

    ghost written = { λ s. with_bytes (P.written (sink_of s)) (kept_in s) };

    ghost kept = { λ s. length (kept_in s) + P.kept (sink_of s) };

    ghost faults = { λ s. P.faults (sink_of s) };

    fn write(&mut self, bytes: &[u8]) -> Result<usize, SinkError>
        ensures bound { IfOk result (λ n. n ≤ length bytes.now) }
        ensures some { IfOk result (λ n. n ≡ 0 → bytes.now ≡ []) }
        ensures ok { IfOk result (λ n. ⟦<Pieces<P> as Sink>⟧.written self.new
            ≡ with_bytes (⟦<Pieces<P> as Sink>⟧.written self.old) (take n bytes.now)) }
        ensures err { OnErr result (⟦<Pieces<P> as Sink>⟧.written self.new ≡ ⟦<Pieces<P> as Sink>⟧.written self.old) }
        ensures failed { OnErr result (Rose (P.faults (sink_of self.old)) (P.faults (sink_of self.new))) }
        ensures later { P.faults (sink_of self.old) ≤ P.faults (sink_of self.new) }

        // Nothing is handed on before there is a piece.
        ensures waits { length (kept_in self.old) < 8192 → sink_of self.new ≡ sink_of self.old }
    {
        if self.kept.len() >= PIECE {
            self.hand_on()?;
        }
        let count = bytes.len().min(PIECE - self.kept.len());
        self.kept.extend_from_slice(&bytes[..count]).unwrap();
        Ok(count)
    }

    fn flush(&mut self) -> Result<(), SinkError> {
        self.hand_on()?;
        self.sink.flush()
    }
}
