//! Where bytes are written.
ghost use Rattle.std.specs.Prelude.{◌≡◌, ◌≤◌, [], ℕ, List, Option, length, take, IfOk, OnOk, OnErr};
ghost use Rattle.m2_io.specs.Causes.{Rose};
ghost use Rattle.m2_io.specs.Written.{with_bytes, WritesPart};

/// A write was refused.
#[derive(Clone, Copy, Debug, PartialEq, Eq)]
pub struct SinkError;

/// Something that takes bytes, and may keep the last of them back until it is flushed.
pub trait Sink {
    /// The bytes that were written, those kept back included, where the sink tells them.
    ghost written: { Self → Option (List ℕ) };

    /// How many of them it keeps back.
    ghost kept: { Self → ℕ };

    /// How often a write has failed.
    ghost faults: { Self → ℕ };

    /// Writes some first bytes of a piece, at least one unless it is empty, and says how many.
    fn write(&mut self, bytes: &[u8]) -> Result<usize, SinkError>
        ensures bound { IfOk result (λ n. n ≤ length bytes.now) }
        ensures some { IfOk result (λ n. n ≡ 0 → bytes.now ≡ []) }
        ensures ok { IfOk result (λ n.
            written self.new ≡ with_bytes (written self.old) (take n bytes.now)) }
        ensures err { OnErr result (written self.new ≡ written self.old) }

        // It fails only where it counts a fault.
        ensures failed { OnErr result (Rose (faults self.old) (faults self.new)) }
        ensures later { faults self.old ≤ faults self.new };

    /// Hands on all that is kept back.
    fn flush(&mut self) -> Result<(), SinkError>
        ensures written { written self.new ≡ written self.old }
        ensures kept { OnOk result (kept self.new ≡ 0) }
        ensures failed { OnErr result (Rose (faults self.old) (faults self.new)) }
        ensures later { faults self.old ≤ faults self.new };
}

/// Writes all the bytes, in as many pieces as the sink takes.
pub fn write_all<P: Sink>(sink: &mut P, bytes: &[u8]) -> Result<(), SinkError>
    ensures ok { OnOk result (P.written sink.new ≡ with_bytes (P.written sink.old) bytes.now) }
    ensures err { OnErr result (WritesPart (P.written sink.old) bytes.now (P.written sink.new)) }
    ensures failed { OnErr result (Rose (P.faults sink.old) (P.faults sink.new)) }
    ensures later { P.faults sink.old ≤ P.faults sink.new }
{
    let mut done = 0;
    while done < bytes.len() {
        done += sink.write(&bytes[done..])?;
    }
    Ok(())
}
