//! Why the texts of a unit weren't gathered.
use m2_base::Memory;
use m2_io::ShelfError;
use m2_lex::LexFault;
use std::alloc::{AllocError, AllocFailed};
use thiserror::Error;

/// Why the texts of a unit weren't gathered.
#[derive(Clone, Copy, Debug, Error)]
pub enum GatherFault {
    #[error("no main text")]
    NoText,
    #[error("the shelf failed")]
    ReadFault,
    #[error("more than 1048576 bytes in a text")]
    TooLong,
    #[error("more than 256 definition modules")]
    TooManyTexts,
    #[error("more than 1048576 tokens in a text")]
    TooManyTokens,
    #[error("more than 4194304 tokens in all")]
    TooManyUnitTokens,
    #[error("out of memory")]
    Memory,
}

impl From<Memory> for GatherFault {
    ghost use Rattle.std.specs.Prelude.{◌≡◌};
    ghost use Rattle.def_import.specs.declared.faults.GatherFault.TheVariants.{Memory as OutOfMemory};

    ghost from_gives = { λ _ fault. fault ≡ OutOfMemory };

    fn from(_: Memory) -> Self {
        GatherFault::Memory
    }
}

impl From<AllocError> for GatherFault {
    ghost use Rattle.std.specs.Prelude.{◌≡◌};
    ghost use Rattle.def_import.specs.declared.faults.GatherFault.TheVariants.{Memory as OutOfMemory};

    ghost from_gives = { λ _ fault. fault ≡ OutOfMemory };

    fn from(_: AllocError) -> Self {
        GatherFault::Memory
    }
}

impl<T: Drop> From<AllocFailed<T>> for GatherFault {
    ghost use Rattle.std.specs.Prelude.{◌≡◌};
    ghost use Rattle.def_import.specs.declared.faults.GatherFault.TheVariants.{Memory as OutOfMemory};

    ghost from_gives = { λ _ fault. fault ≡ OutOfMemory };

    fn from(_: AllocFailed<T>) -> Self {
        GatherFault::Memory
    }
}

impl From<ShelfError> for GatherFault {
    ghost use Rattle.std.specs.Prelude.{◌≡◌};
    ghost use Rattle.def_import.specs.Views.{fault_of_shelf};

    ghost from_gives = { λ error fault. fault ≡ fault_of_shelf error };

    fn from(error: ShelfError) -> Self {
        match error {
            ShelfError::Failed => GatherFault::ReadFault,
            ShelfError::Memory => GatherFault::Memory,
        }
    }
}

impl From<LexFault> for GatherFault {
    ghost use Rattle.std.specs.Prelude.{◌≡◌};
    ghost use Rattle.def_import.specs.Views.{fault_of_lex};

    ghost from_gives = { λ error fault. fault ≡ fault_of_lex error };

    fn from(error: LexFault) -> Self {
        match error {
            LexFault::TooManyTokens => GatherFault::TooManyTokens,
            LexFault::Memory => GatherFault::Memory,
        }
    }
}
