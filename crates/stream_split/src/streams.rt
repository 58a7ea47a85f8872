//! The streams of a unit, and why there are none.
ghost use Rattle.std.specs.Prelude.{◌≡◌};
ghost use Rattle.stream_split.specs.declared.streams.SplitFault.TheVariants.{Memory};

use m2_base::{StreamKind, Token};
use std::alloc::{AllocError, AllocFailed};

/// The tokens of one block.
#[derive(Drop)]
pub struct StreamTokens {
    /// The number of the stream, which is that of its block's scope; the first has 1.
    pub stream: u32,
    /// The number of the text that the tokens are of.
    pub text: u32,
    /// The scope right round a procedure's block; of a module 0.
    pub outer: u32,
    /// How many procedures a block lies in, its own included; of a module 0.
    pub level: u32,
    pub kind: StreamKind,
    pub tokens: Vec<Token>,
}

/// Why a unit isn't cut.
#[derive(Clone, Copy)]
pub enum SplitFault {
    /// The main text has more than 16,384 procedures.
    TooManyStreams,
    /// A procedure lies in sixteen others.
    TooNested,
    Memory,
}

impl From<AllocError> for SplitFault {
    ghost from_gives = { λ _ e. e ≡ Memory };

    fn from(_e: AllocError) -> SplitFault {
        SplitFault::Memory
    }
}

impl<T: Drop> From<AllocFailed<T>> for SplitFault {
    ghost from_gives = { λ _ e. e ≡ Memory };

    fn from(_e: AllocFailed<T>) -> SplitFault {
        SplitFault::Memory
    }
}
