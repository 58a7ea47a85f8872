//! A shelf in memory.
ghost use Rattle.std.specs.Prelude.{◌≡◌, ◌≤◌, ◌↔◌, Some, Option, option_map, IfOk, OnOk, OnErr, IsOk, IsErrOf};
ghost use Rattle.std.specs.Prelude.{IsOkUnless, IfSome, take, vec_len};
ghost use Rattle.std.specs.FinMap.{get, insert};
ghost use Rattle.m2_io.specs.Calls.{calls_that_fail_at, NextFails, after_call};
ghost use Rattle.m2_io.specs.Causes.{RoseWhere};
ghost use Rattle.m2_io.specs.Files.{front_of};
ghost use Rattle.m2_io.specs.FilesOf.{files_of};
ghost use Rattle.m2_io.specs.declared.shelf.ShelfError.TheVariants.{Memory as OutOfMemory};

use crate::calls::Calls;
use crate::shelf::{Shelf, ShelfError};
use std::alloc::Global;
use std::collections::BTreeMap;

/// A shelf that keeps its texts in a map.
#[derive(Drop)]
pub struct MemShelf {
    files: BTreeMap<String, Vec<u8>>,
    calls: Calls,
    keep: usize,
    faults: u64,
    put_faults: u64,
}

impl MemShelf {
    ghost use Rattle.m2_io.specs.MemShelf.{calls_of, keep_of};

    /// A shelf with these texts. Its calls are numbered from 1, those numbered in `fails` fail, and a
    /// `put` that fails leaves the first `keep` of its bytes.
    pub fn new(files: BTreeMap<String, Vec<u8>>, fails: Vec<u32>, keep: usize) -> MemShelf
        ensures holds { ⟦<MemShelf as Shelf>⟧.holds result ≡ Some (files_of files) }
        ensures faults { ⟦<MemShelf as Shelf>⟧.faults result ≡ 0 }
        ensures put_faults { ⟦<MemShelf as Shelf>⟧.put_faults result ≡ 0 }
        ensures calls { calls_of result ≡ calls_that_fail_at fails }
        ensures keep { keep_of result ≡ keep }
    {
        MemShelf {
            files,
            calls: Calls::new(fails),
            keep,
            faults: 0,
            put_faults: 0,
        }
    }

    /// The text of that name.
    pub fn file(&self, name: &str) -> Option<&[u8]>
        ensures { IfSome (⟦<MemShelf as Shelf>⟧.holds self.now) (λ files.
            option_map (λ text. text.now) result ≡ get files name.now) }
    {
        match self.files.get(name) {
            Some(text) => Some(text.as_slice()),
            None => None,
        }
    }
}

impl Shelf for MemShelf {
    ghost use Rattle.m2_io.specs.MemShelf.{texts_of, calls_of, keep_of, faults_of, put_faults_of};

    ghost holds = { λ s. Some (texts_of s) };

    ghost faults = { faults_of };

    ghost put_faults = { put_faults_of };

    #[tactic(auto, unfolding(crate::specs::Files::front_of))]
    fn get(&mut self, alloc: Global, name: &str, most: usize) -> Result<Option<Vec<u8>>, ShelfError>
        ensures found { IfOk result (λ found.
            option_map (λ text. text.items) found ≡ front_of (texts_of self.old) name.now most) }
        ensures most { IfOk result (λ found. IfSome found (λ text. vec_len text ≤ most)) }
        ensures texts { texts_of self.new ≡ texts_of self.old }

        // It fails exactly where the number of the call is among those that fail.
        ensures failed { IsErrOf result ShelfError.Failed ↔ NextFails (calls_of self.old) }
        ensures faults { RoseWhere (NextFails (calls_of self.old))
            (faults_of self.old) (faults_of self.new) }
        ensures later { faults_of self.old ≤ faults_of self.new }
        ensures put_faults { put_faults_of self.new ≡ put_faults_of self.old }
        ensures calls { calls_of self.new ≡ after_call (calls_of self.old) }
        ensures keep { keep_of self.new ≡ keep_of self.old }
    {
        if self.calls.next_fails() {
            self.faults = self.faults.saturating_add(1);
            return Err(ShelfError::Failed);
        }
        let Some(text) = self.file(name) else {
            return Ok(None);
        };
        let front = text[..most.min(text.len())].to_vec(alloc)?;
        Ok(Some(front))
    }

    fn put(&mut self, alloc: Global, name: &str, bytes: &[u8]) -> Result<(), ShelfError>
        ensures ok { OnOk result (texts_of self.new ≡ insert (texts_of self.old) name.now bytes.now) }

        // A put that fails leaves the first bytes, and so many of them as the shelf was told to keep.
        ensures part { IsErrOf result ShelfError.Failed →
            texts_of self.new ≡ insert (texts_of self.old) name.now (take (keep_of self.old) bytes.now) }
        ensures memory { IsErrOf result ShelfError.Memory → texts_of self.new ≡ texts_of self.old }

        // It fails exactly where the number of the call is among those that fail, want of memory aside.
        ensures failed { IsErrOf result ShelfError.Failed → NextFails (calls_of self.old) }
        ensures passed { IsOk result → ¬ NextFails (calls_of self.old) }
        ensures put_faults { RoseWhere (IsErrOf result ShelfError.Failed)
            (put_faults_of self.old) (put_faults_of self.new) }
        ensures later { put_faults_of self.old ≤ put_faults_of self.new }
        ensures faults { faults_of self.new ≡ faults_of self.old }
        ensures calls { calls_of self.new ≡ after_call (calls_of self.old) }
        ensures keep { keep_of self.new ≡ keep_of self.old }
    {
        if self.calls.next_fails() {
            let kept = &bytes[..self.keep.min(bytes.len())];
            store(&mut self.files, alloc, name, kept)?;
            self.put_faults = self.put_faults.saturating_add(1);
            return Err(ShelfError::Failed);
        }
        store(&mut self.files, alloc, name, bytes)
    }
}

/// Keeps these bytes under that name.
fn store(
    files: &mut BTreeMap<String, Vec<u8>>,
    alloc: Global,
    name: &str,
    bytes: &[u8],
) -> Result<(), ShelfError>
    ensures ok { OnOk result (files_of files.new ≡ insert (files_of files.old) name.now bytes.now) }
    ensures err { OnErr result (files_of files.new ≡ files_of files.old) }
    ensures memory { IsOkUnless result OutOfMemory }
{
    let text = bytes.to_vec(alloc)?;
    let name = name.to_string(alloc)?;
    files.insert(name, text)?;
    Ok(())
}
