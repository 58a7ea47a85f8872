//! Why an object isn't printed.
ghost use Rattle.std.specs.Prelude.{◌≡◌};
ghost use Rattle.object_text.specs.declared.fault.PrintFault.TheVariants.{Write as WriteFault, Memory as OutOfMemory};

use m2_io::SinkError;
use std::alloc::AllocError;
use thiserror::Error;

/// Why an object isn't printed.
#[derive(Clone, Copy, Debug, Error)]
pub enum PrintFault {
    #[error("the sink failed")]
    Write,
    #[error("out of memory")]
    Memory,
}

impl From<AllocError> for PrintFault {
    ghost from_gives = { λ _ e. e ≡ OutOfMemory };

    fn from(_: AllocError) -> PrintFault {
        PrintFault::Memory
    }
}

impl From<SinkError> for PrintFault {
    ghost from_gives = { λ _ e. e ≡ WriteFault };

    fn from(_: SinkError) -> PrintFault {
        PrintFault::Write
    }
}
