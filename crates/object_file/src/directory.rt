//! Which object has a name.
ghost use Rattle.std.specs.Prelude.{◌≡◌, None, IfOk, IfErr};
ghost use Rattle.object_file.specs.Directories.{IsDirectory, IsTwice, found_in};
ghost use Rattle.object_file.specs.Naming.{name_again};
ghost use Rattle.object_file.specs.declared.directory.DirectoryFault.TheVariants.{Memory as OutOfMemory};

use crate::object::Object;
use std::alloc::{AllocError, AllocFailed, Global};
use std::collections::BTreeMap;

/// Why objects have no directory.
#[derive(Clone, Copy)]
pub enum DirectoryFault {
    /// The object with this number has the name of one before it.
    Twice(usize),
    Memory,
}

impl From<AllocError> for DirectoryFault {
    ghost from_gives = { λ _ e. e ≡ OutOfMemory };

    fn from(_: AllocError) -> DirectoryFault {
        DirectoryFault::Memory
    }
}

impl<T: Drop> From<AllocFailed<T>> for DirectoryFault {
    ghost from_gives = { λ _ e. e ≡ OutOfMemory };

    fn from(_: AllocFailed<T>) -> DirectoryFault {
        DirectoryFault::Memory
    }
}

/// The numbers of objects by their names.
#[derive(Drop)]
pub struct Directory<'o> {
    places: BTreeMap<&'o [u8], usize>,
}

impl<'o> Directory<'o> {
    /// The directory of objects, whose names differ.
    pub fn of(alloc: Global, objects: &'o [Object]) -> Result<Directory<'o>, DirectoryFault>
        ensures directory { IfOk result (λ d. IsDirectory d objects.now) }
        ensures differ { IfOk result (λ d. name_again objects.now ≡ None) }
        ensures twice { IfErr result (λ e. IsTwice e objects.now) }
    {
        let mut places = BTreeMap::new(alloc);
        for (k, object) in objects.iter().enumerate() {
            if places.insert(object.name(), k)?.is_some() {
                return Err(DirectoryFault::Twice(k));
            }
        }
        Ok(Directory { places })
    }

    /// The number of the object with this name.
    pub fn place(&self, name: &[u8]) -> Option<usize>
        ensures { result ≡ found_in self.now name.now }
    {
        self.places.get(name).copied()
    }
}
