//! Why no program was loaded.
use m2_base::Memory;
use m2_io::ShelfError;
use m2_link::LinkFault;
use std::alloc::{AllocError, AllocFailed};
use thiserror::Error;

/// Why no program was loaded.
#[derive(Debug, Drop, Error)]
pub enum LoadFault {
    #[error("the main module has no object")]
    NoObject,
    #[error("the shelf failed")]
    Read,
    #[error("more than 67108864 bytes in an object")]
    TooLong,
    #[error("more than 256 objects")]
    TooMany,
    /// The bytes of the object in this module's file are none: the place where that shows first,
    /// and what is wrong there.
    #[error("bad object at {offset} code {code}")]
    Bad { name: String, offset: u64, code: u8 },
    #[error("the objects don't fit together")]
    Refused(LinkFault),
    #[error("out of memory")]
    Memory,
}

impl From<Memory> for LoadFault {
    ghost use Rattle.std.specs.Prelude.{◌≡◌};
    ghost use Rattle.program_load.specs.declared.fault.LoadFault.TheVariants.{Memory as OutOfMemory};

    ghost from_gives = { λ _ fault. fault ≡ OutOfMemory };

    fn from(_: Memory) -> Self {
        LoadFault::Memory
    }
}

impl From<AllocError> for LoadFault {
    ghost use Rattle.std.specs.Prelude.{◌≡◌};
    ghost use Rattle.program_load.specs.declared.fault.LoadFault.TheVariants.{Memory as OutOfMemory};

    ghost from_gives = { λ _ fault. fault ≡ OutOfMemory };

    fn from(_: AllocError) -> Self {
        LoadFault::Memory
    }
}

impl<T: Drop> From<AllocFailed<T>> for LoadFault {
    ghost use Rattle.std.specs.Prelude.{◌≡◌};
    ghost use Rattle.program_load.specs.declared.fault.LoadFault.TheVariants.{Memory as OutOfMemory};

    ghost from_gives = { λ _ fault. fault ≡ OutOfMemory };

    fn from(_: AllocFailed<T>) -> Self {
        LoadFault::Memory
    }
}

impl From<ShelfError> for LoadFault {
    ghost use Rattle.std.specs.Prelude.{◌≡◌};
    ghost use Rattle.program_load.specs.Answers.{fault_of_shelf};

    ghost from_gives = { λ error fault. fault ≡ fault_of_shelf error };

    fn from(error: ShelfError) -> Self {
        match error {
            ShelfError::Failed => LoadFault::Read,
            ShelfError::Memory => LoadFault::Memory,
        }
    }
}

impl From<LinkFault> for LoadFault {
    ghost use Rattle.std.specs.Prelude.{◌≡◌};
    ghost use Rattle.program_load.specs.declared.fault.LoadFault.TheVariants.{Refused as RefusedBy};

    ghost from_gives = { λ error fault. fault ≡ RefusedBy error };

    fn from(error: LinkFault) -> Self {
        LoadFault::Refused(error)
    }
}
