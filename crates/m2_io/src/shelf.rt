//! A shelf of texts under names.
ghost use Rattle.std.specs.Prelude.{◌≡◌, ◌≤◌, ℕ, Option, IfOk, OnOk, IfSome, IsErrOf, option_map, vec_len};
ghost use Rattle.m2_io.specs.Causes.{Rose};
ghost use Rattle.m2_io.specs.Files.{Files, front_of, with_file, HasPart};
ghost use Rattle.m2_io.specs.declared.shelf.ShelfError.TheVariants.{Memory as OutOfMemory};

use std::alloc::{AllocError, AllocFailed, Global};
use thiserror::Error;

/// Why a call of a shelf was refused.
#[derive(Clone, Copy, Debug, Error)]
pub enum ShelfError {
    #[error("the shelf failed")]
    Failed,
    #[error("out of memory")]
    Memory,
}

impl From<AllocError> for ShelfError {
    ghost from_gives = { λ _ e. e ≡ OutOfMemory };

    fn from(_: AllocError) -> Self {
        ShelfError::Memory
    }
}

impl<T: Drop> From<AllocFailed<T>> for ShelfError {
    ghost from_gives = { λ _ e. e ≡ OutOfMemory };

    fn from(_: AllocFailed<T>) -> Self {
        ShelfError::Memory
    }
}

/// Texts under names.
pub trait Shelf {
    /// The texts, where the shelf tells them.
    ghost holds: { Self → Option Files };

    /// How often `get` has failed.
    ghost faults: { Self → ℕ };

    /// How often `put` has failed.
    ghost put_faults: { Self → ℕ };

    /// The first `most` bytes of the text of that name, or `None` where the shelf has none.
    fn get(&mut self, alloc: Global, name: &str, most: usize) -> Result<Option<Vec<u8>>, ShelfError>
        ensures found { IfSome (holds self.old) (λ files. IfOk result (λ found.
            option_map (λ text. text.items) found ≡ front_of files name.now most)) }
        ensures most { IfOk result (λ found. IfSome found (λ text. vec_len text ≤ most)) }
        ensures holds { holds self.new ≡ holds self.old }

        // It fails only where it counts a fault.
        ensures failed { IsErrOf result ShelfError.Failed → Rose (faults self.old) (faults self.new) }
        ensures later { faults self.old ≤ faults self.new }
        ensures put_faults { put_faults self.new ≡ put_faults self.old };

    /// Puts a text under that name.
    fn put(&mut self, alloc: Global, name: &str, bytes: &[u8]) -> Result<(), ShelfError>
        ensures ok { OnOk result (holds self.new ≡ with_file (holds self.old) name.now bytes.now) }

        // After `Failed` a prefix of the bytes may be there, and all else is as before.
        ensures part { IsErrOf result ShelfError.Failed →
            HasPart (holds self.old) name.now bytes.now (holds self.new) }
        ensures memory { IsErrOf result ShelfError.Memory → holds self.new ≡ holds self.old }

        // It fails only where it counts a fault.
        ensures failed { IsErrOf result ShelfError.Failed →
            Rose (put_faults self.old) (put_faults self.new) }
        ensures later { put_faults self.old ≤ put_faults self.new }
        ensures faults { faults self.new ≡ faults self.old };
}
