//! The imports that were read, with a set of their names.
ghost use Rattle.std.specs.Prelude.{◌≡◌, [], ◌∷◌, ◌++◌, map, IfOk};
ghost use Rattle.std.specs.List.{list_any};
ghost use Rattle.std.specs.Str.{bytes_eq};
ghost use Rattle.object_file.specs.Views.{keyed_of};

use crate::parts::ImportNote;
use std::alloc::{AllocError, Global};
use std::collections::BTreeSet;
use std::marker::Model;

/// Imports in their order. They are seen as what they say.
#[derive(Drop)]
pub(crate) struct Imports {
    notes: Vec<ImportNote>,
    names: BTreeSet<Vec<u8>>,
}

impl Model for Imports {
    ghost use Rattle.std.specs.Prelude.{List, map};
    ghost use Rattle.object_file.specs.Contents.{KeyedImport};
    ghost use Rattle.object_file.specs.Named.{AreNames};
    ghost use Rattle.object_file.specs.Views.{keyed_of};

    ghost Value = { List KeyedImport };

    ghost view = { λ n. map keyed_of n.notes.items };

    ghost invariant = { λ n. AreNames n.names.keys (map keyed_of n.notes.items) };
}

impl Imports {
    pub(crate) fn new(alloc: Global) -> Imports
        ensures { result ≡ [] }
    {
        Imports {
            notes: Vec::new(alloc),
            names: BTreeSet::new(alloc),
        }
    }

    /// One of them has this name.
    pub(crate) fn has(&self, name: &[u8]) -> bool
        ensures { result ≡ list_any (λ i. bytes_eq name.now i.definition.name) self.now }
    {
        self.names.contains(name)
    }

    /// These, and one more.
    pub(crate) fn with(self, alloc: Global, note: ImportNote) -> Result<Imports, AllocError>
        ensures { IfOk result (λ imports. imports ≡ self ++ keyed_of note ∷ []) }
    {
        let Imports {
            mut notes,
            mut names,
        } = self;
        let name = Vec::from_slice(alloc, &note.name)?;
        names.insert(name)?;
        notes.push(note)?;
        Ok(Imports { notes, names })
    }

    pub(crate) fn into_notes(self) -> Vec<ImportNote>
        ensures { map keyed_of result.items ≡ self }
    {
        self.notes
    }
}
