//! Why objects aren't linked.
ghost use Rattle.std.specs.Prelude.{◌≡◌};
ghost use Rattle.m2_link.specs.declared.fault.LinkFault.TheVariants.{Memory as OutOfMemory};

use m2_base::Memory;
use std::alloc::AllocError;
use thiserror::Error;

/// Why objects aren't linked.
#[derive(Debug, Drop, Error)]
pub enum LinkFault {
    /// Two objects have this name.
    #[error("two objects of one name")]
    Twice(Vec<u8>),
    /// An import needs an object of this name.
    #[error("a missing object")]
    Missing(Vec<u8>),
    /// An import of this name was compiled with another definition.
    #[error("another definition")]
    KeyDiffers(Vec<u8>),
    #[error("out of memory")]
    Memory,
}

impl From<AllocError> for LinkFault {
    ghost from_gives = { λ _ e. e ≡ OutOfMemory };

    fn from(_: AllocError) -> LinkFault {
        LinkFault::Memory
    }
}

impl From<Memory> for LinkFault {
    ghost from_gives = { λ _ e. e ≡ OutOfMemory };

    fn from(_: Memory) -> LinkFault {
        LinkFault::Memory
    }
}
