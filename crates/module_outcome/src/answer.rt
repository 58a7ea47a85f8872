//! How compiling a module ends.
use m2_base::Memory;
use m2_io::SinkError;
use std::alloc::AllocError;
use thiserror::Error;

/// How the work ended that was done, or of which it was said why it isn't.
#[derive(Clone, Copy, Debug, PartialEq, Eq)]
pub enum Answer {
    /// The object is put.
    Done,
    /// The listing of the unit's diagnostics is printed.
    Diagnosed,
    /// The shelf has no text of the module.
    NoText,
    OverLimit,
}

/// Why the work was given up.
#[derive(Clone, Copy, Debug, Error)]
pub enum Stop {
    #[error("reading failed")]
    Read,
    #[error("writing failed")]
    Write,
    #[error("out of memory")]
    Memory,
}

impl From<AllocError> for Stop {
    ghost use Rattle.std.specs.Prelude.{◌≡◌};
    ghost use Rattle.module_outcome.specs.declared.answer.Stop.TheVariants.{Memory as OutOfMemory};

    ghost from_gives = { λ _ stop. stop ≡ OutOfMemory };

    fn from(_: AllocError) -> Self {
        Stop::Memory
    }
}

impl From<Memory> for Stop {
    ghost use Rattle.std.specs.Prelude.{◌≡◌};
    ghost use Rattle.module_outcome.specs.declared.answer.Stop.TheVariants.{Memory as OutOfMemory};

    ghost from_gives = { λ _ stop. stop ≡ OutOfMemory };

    fn from(_: Memory) -> Self {
        Stop::Memory
    }
}

impl From<SinkError> for Stop {
    ghost use Rattle.std.specs.Prelude.{◌≡◌};
    ghost use Rattle.module_outcome.specs.declared.answer.Stop.TheVariants.{Write as WriteFault};

    ghost from_gives = { λ _ stop. stop ≡ WriteFault };

    fn from(_: SinkError) -> Self {
        Stop::Write
    }
}
