//! Why bytes aren't read.
ghost use Rattle.std.specs.Prelude.{◌≡◌};
ghost use Rattle.object_file.specs.declared.fault.ProgramFault.TheVariants.{Memory as ProgramMemory};
ghost use Rattle.object_file.specs.declared.fault.Stop.TheVariants.{Memory};
ghost use Rattle.object_file.specs.declared.fault.CodeFault.TheVariants.{Memory as CodeMemory};

use crate::object::Object;
use std::alloc::{AllocError, AllocFailed};
use thiserror::Error;

/// Why bytes aren't read as an object.
#[derive(Clone, Copy, Debug, Error)]
pub enum ObjectFault {
    /// They are none: the place where that shows first, and what is wrong there. 1: the bytes end within a field.
    /// 2: bytes follow. 3: the file's first bytes or its version. 4: a field isn't valid. 5: no instruction. 6: an
    /// operand, a jump or the last instruction isn't valid. 7: a height is wrong. 8:
    /// the greatest height is told wrongly.
    #[error("bad object at {offset} code {code}")]
    BadObject { offset: u64, code: u8 },
    #[error("out of memory")]
    Memory,
}

/// Why objects are no program.
#[derive(Debug, Drop, Error)]
pub enum ProgramFault {
    /// The object needs others, and is handed back.
    #[error("imports of other modules")]
    NeedsLink(Object),
    #[error("out of memory")]
    Memory,
}

impl From<AllocFailed<Object>> for ProgramFault {
    ghost from_gives = { λ _ e. e ≡ ProgramMemory };

    fn from(_: AllocFailed<Object>) -> ProgramFault {
        ProgramFault::Memory
    }
}

/// Why reading stopped.
#[derive(Drop)]
pub(crate) enum Stop {
    Memory,
    /// How many bytes are left where something is wrong, and the code that is told.
    Bad(usize, u8),
}

impl From<AllocError> for Stop {
    ghost from_gives = { λ _ e. e ≡ Memory };

    fn from(_: AllocError) -> Stop {
        Stop::Memory
    }
}

impl<T: Drop> From<AllocFailed<T>> for Stop {
    ghost from_gives = { λ _ e. e ≡ Memory };

    fn from(_: AllocFailed<T>) -> Stop {
        Stop::Memory
    }
}

/// Why a procedure's code isn't valid, or isn't known to be.
#[derive(Drop)]
pub(crate) enum CodeFault {
    Memory,
    /// The place in the code, and the code that is told.
    InCode(usize, u8),
    /// The greatest height is told wrongly.
    OfHigh,
}

impl From<AllocError> for CodeFault {
    ghost from_gives = { λ _ e. e ≡ CodeMemory };

    fn from(_: AllocError) -> CodeFault {
        CodeFault::Memory
    }
}

impl<T: Drop> From<AllocFailed<T>> for CodeFault {
    ghost from_gives = { λ _ e. e ≡ CodeMemory };

    fn from(_: AllocFailed<T>) -> CodeFault {
        CodeFault::Memory
    }
}
