//! How commands over objects end.
use m2_base::Memory;
use m2_io::SinkError;
use object_text::PrintFault;
use std::alloc::AllocError;
use thiserror::Error;

/// How a command ended that did its work, or that was told why it can't.
#[derive(Clone, Copy, Debug, PartialEq, Eq)]
pub enum Answer {
    Done,
    NoObject,
    OverLimit,
    /// An object is broken, or the objects don't fit together.
    BadObjects,
    Trapped,
    StepsSpent,
}

/// Why a command was given up.
#[derive(Clone, Copy, Debug, Error)]
pub enum Stop {
    #[error("reading failed")]
    Read,
    #[error("writing failed")]
    Write,
    #[error("out of memory")]
    Memory,
}

impl From<AllocError> for Stop {
    ghost use Rattle.std.specs.Prelude.{◌≡◌};
    ghost use Rattle.object_commands.specs.declared.answer.Stop.TheVariants.{Memory as OutOfMemory};

    ghost from_gives = { λ _ stop. stop ≡ OutOfMemory };

    fn from(_: AllocError) -> Self {
        Stop::Memory
    }
}

impl From<Memory> for Stop {
    ghost use Rattle.std.specs.Prelude.{◌≡◌};
    ghost use Rattle.object_commands.specs.declared.answer.Stop.TheVariants.{Memory as OutOfMemory};

    ghost from_gives = { λ _ stop. stop ≡ OutOfMemory };

    fn from(_: Memory) -> Self {
        Stop::Memory
    }
}

impl From<SinkError> for Stop {
    ghost use Rattle.std.specs.Prelude.{◌≡◌};
    ghost use Rattle.object_commands.specs.declared.answer.Stop.TheVariants.{Write as WriteFault};

    ghost from_gives = { λ _ stop. stop ≡ WriteFault };

    fn from(_: SinkError) -> Self {
        Stop::Write
    }
}

impl From<PrintFault> for Stop {
    ghost use Rattle.std.specs.Prelude.{◌≡◌};
    ghost use Rattle.object_commands.specs.Outcomes.{stop_of_print};

    ghost from_gives = { λ fault stop. stop ≡ stop_of_print fault };

    fn from(fault: PrintFault) -> Self {
        match fault {
            PrintFault::Write => Stop::Write,
            PrintFault::Memory => Stop::Memory,
        }
    }
}
