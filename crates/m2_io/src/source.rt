//! Where bytes are read.
ghost use Rattle.std.specs.Prelude.{◌≡◌, ◌≤◌, ◌<◌, ◌↔◌, [], ℕ, List, Option, length, take, IfOk, OnErr, IfSome};
ghost use Rattle.m2_io.specs.Causes.{Rose};
ghost use Rattle.m2_io.specs.Left.{with_front};

/// A read was refused.
#[derive(Clone, Copy, Debug, PartialEq, Eq)]
pub struct SourceError;

/// Something that gives bytes.
pub trait Source {
    /// The bytes that are left, where the source tells them.
    ghost left: { Self → Option (List ℕ) };

    /// How often a read has failed.
    ghost faults: { Self → ℕ };

    /// Reads some of the bytes that are left into the front of `buf`, and says how many.
    fn read(&mut self, buf: &mut [u8]) -> Result<usize, SourceError>
        ensures bound { IfOk result (λ n. n ≤ length buf.old) }
        ensures front { IfOk result (λ n. left self.old ≡ with_front (take n buf.new) (left self.new)) }

        // It reads nothing into a buffer that has room exactly where nothing is left.
        ensures end { IfSome (left self.old) (λ bytes. IfOk result (λ n.
            0 < length buf.old → ((n ≡ 0) ↔ (bytes ≡ [])))) }
        ensures err { OnErr result (left self.new ≡ left self.old) }

        // It fails only where it counts a fault.
        ensures failed { OnErr result (Rose (faults self.old) (faults self.new)) }
        ensures later { faults self.old ≤ faults self.new };
}
