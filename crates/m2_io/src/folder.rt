//! A shelf over a real folder. It tells nothing of its texts.
ghost use Rattle.std.specs.Prelude.{◌≡◌, ◌≤◌, ◌↔◌, None, Option, IfOk, IfSome, IsTrue, IsErr, IsErrOf, vec_len};
ghost use Rattle.std.specs.Prelude.{string_bytes};
ghost use Rattle.std.specs.Path.{path_buf_bytes, path_join};
ghost use Rattle.m2_io.specs.Causes.{RoseWhere};
ghost use Rattle.m2_io.specs.PlainName.{IsPlainName};

use crate::shelf::{Shelf, ShelfError};
use std::alloc::Global;
use std::io::{ErrorKind, Read};
use std::path::{Path, PathBuf};
use std::rt::Runtime;
use std::{fs, io};

impl From<io::Error> for ShelfError {
    ghost use Rattle.std.specs.IoError.{error_kind};
    ghost use Rattle.std.specs.declared.io.ErrorKind.TheVariants.{OutOfMemory};
    ghost use Rattle.m2_io.specs.declared.shelf.ShelfError.TheVariants.{Memory};

    ghost from_gives = { λ error e. (e ≡ Memory) ↔ (error_kind error ≡ OutOfMemory) };

    fn from(error: io::Error) -> Self {
        match error.kind() {
            ErrorKind::OutOfMemory => ShelfError::Memory,
            _ => ShelfError::Failed,
        }
    }
}

/// The files of a folder.
#[derive(Drop)]
pub struct FolderShelf<R: Runtime> {
    rt: R,
    folder: String,
    faults: u64,
    put_faults: u64,
}

impl<R: Runtime> FolderShelf<R> {
    pub fn new(rt: R, folder: String) -> FolderShelf<R>
        ensures faults { ⟦<FolderShelf<R> as Shelf>⟧.faults result ≡ 0 }
        ensures put_faults { ⟦<FolderShelf<R> as Shelf>⟧.put_faults result ≡ 0 }
    {
        FolderShelf {
            rt,
            folder,
            faults: 0,
            put_faults: 0,
        }
    }

    /// The path of a file. A name that isn't plain has none.
    fn path(&self, alloc: Global, name: &str) -> Result<PathBuf, ShelfError>
        ensures file { IfOk result (λ path. IsPlainName name.now
            × path_buf_bytes path ≡ path_join (string_bytes self.now.folder) name.now) }
        ensures refused { ¬ IsPlainName name.now → IsErrOf result ShelfError.Failed }
    {
        if !is_plain(name) {
            return Err(ShelfError::Failed);
        }
        Ok(Path::new(self.folder.as_str()).join(alloc, name)?)
    }

    /// The first `most` bytes of a file, if there is one.
    fn read(&self, alloc: Global, name: &str, most: usize) -> Result<Option<Vec<u8>>, ShelfError>
        ensures most { IfOk result (λ found. IfSome found (λ text. vec_len text ≤ most)) }
        ensures refused { ¬ IsPlainName name.now → IsErrOf result ShelfError.Failed }
    {
        let path = self.path(alloc, name)?;
        let file = match fs::open(&self.rt, path.as_path()) {
            Ok(file) => file,
            Err(error) if error.kind() == ErrorKind::NotFound => return Ok(None),
            Err(error) => return Err(error.into()),
        };
        let mut bytes = Vec::new(alloc);
        file.take(most as u64).read_to_end(&mut bytes)?;
        bytes.truncate(most);
        Ok(Some(bytes))
    }

    /// Writes a file. What the system refuses is a failure, since the file may have been touched.
    fn write(&self, alloc: Global, name: &str, bytes: &[u8]) -> Result<(), ShelfError>
        ensures { ¬ IsPlainName name.now → IsErrOf result ShelfError.Failed }
    {
        let path = self.path(alloc, name)?;
        match fs::write(&self.rt, path.as_path(), bytes) {
            Ok(()) => Ok(()),
            Err(_) => Err(ShelfError::Failed),
        }
    }
}

impl<R: Runtime> Shelf for FolderShelf<R> {
    ghost holds = { λ _. None };

    ghost faults = { λ s. s.faults };

    ghost put_faults = { λ s. s.put_faults };

    fn get(&mut self, alloc: Global, name: &str, most: usize) -> Result<Option<Vec<u8>>, ShelfError>
        ensures most { IfOk result (λ found. IfSome found (λ text. vec_len text ≤ most)) }
        ensures refused { ¬ IsPlainName name.now → IsErrOf result ShelfError.Failed }

        // It counts each answer that isn't Ok.
        ensures faults { RoseWhere (IsErr result)
            (⟦<Self as Shelf>⟧.faults self.old) (⟦<Self as Shelf>⟧.faults self.new) }
        ensures later { ⟦<Self as Shelf>⟧.faults self.old ≤ ⟦<Self as Shelf>⟧.faults self.new }
        ensures put_faults { ⟦<Self as Shelf>⟧.put_faults self.new ≡ ⟦<Self as Shelf>⟧.put_faults self.old }
    {
        let found = self.read(alloc, name, most);
        if found.is_err() {
            self.faults = self.faults.saturating_add(1);
        }
        found
    }

    fn put(&mut self, alloc: Global, name: &str, bytes: &[u8]) -> Result<(), ShelfError>
        ensures refused { ¬ IsPlainName name.now → IsErrOf result ShelfError.Failed }

        // It counts each answer that isn't Ok.
        ensures put_faults { RoseWhere (IsErr result)
            (⟦<Self as Shelf>⟧.put_faults self.old) (⟦<Self as Shelf>⟧.put_faults self.new) }
        ensures later { ⟦<Self as Shelf>⟧.put_faults self.old ≤ ⟦<Self as Shelf>⟧.put_faults self.new }
        ensures faults { ⟦<Self as Shelf>⟧.faults self.new ≡ ⟦<Self as Shelf>⟧.faults self.old }
    {
        let written = self.write(alloc, name, bytes);
        if written.is_err() {
            self.put_faults = self.put_faults.saturating_add(1);
        }
        written
    }
}

/// Whether a name can't lead out of the folder.
fn is_plain(name: &str) -> bool
    ensures { IsTrue result ↔ IsPlainName name.now }
{
    let bytes = name.as_bytes();
    match bytes.first() {
        None | Some(b'.') => false,
        Some(_) => !bytes.contains(&b'/') && !bytes.contains(&0),
    }
}
