//! Why there is no tree.
ghost use Rattle.std.specs.Prelude.{◌≡◌};
ghost use Rattle.m2_parse.specs.declared.faults.ReadFault.TheVariants.{Memory};

use m2_base::StreamFault;
use std::alloc::{AllocError, AllocFailed};

/// Why a stream has no tree.
#[derive(Clone, Copy)]
pub enum ParseFault {
    Fault(StreamFault),
    Memory,
}

/// The token that is refused, and why.
#[derive(Clone, Copy)]
pub enum Refusal {
    /// No sentence goes on with it; a fault of the text has a code of its own.
    Syntax { at: u32, code: u8 },
    /// It is nested too deep.
    TooDeep { at: u32 },
}

/// Why a part could not be read.
#[derive(Clone, Copy)]
pub enum ReadFault {
    Memory,
    Refused(Refusal),
}

impl From<AllocError> for ReadFault {
    ghost from_gives = { λ _ e. e ≡ Memory };

    fn from(_e: AllocError) -> ReadFault {
        ReadFault::Memory
    }
}

impl<T: Drop> From<AllocFailed<T>> for ReadFault {
    ghost from_gives = { λ _ e. e ≡ Memory };

    fn from(_e: AllocFailed<T>) -> ReadFault {
        ReadFault::Memory
    }
}
