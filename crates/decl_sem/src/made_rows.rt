//! Rows in the making, with an index of the fields among them.
ghost use Rattle.std.specs.List.{list_any};
ghost use Rattle.std.specs.Prelude.{◌≡◌, ◌∷◌, ◌++◌, [], ℕ, length, OnErr, OnOk};
ghost use Rattle.m2_base.specs.Statics.TypeParts.{is_field, is_field_meaning};
ghost use Rattle.decl_sem.specs.MadeRows.{is_key};

use m2_base::{Memory, Row, RowMeaning};
use std::alloc::Global;
use std::collections::HashSet;
use std::marker::Model;

/// The ordinal of a field's record, and the field's name.
pub(crate) type FieldKey = (u32, u32);

/// Rows in the making.
#[derive(Drop)]
pub(crate) struct MadeRows {
    list: Vec<Row>,
    fields: HashSet<FieldKey>,
}

impl Model for MadeRows {
    ghost use Rattle.decl_sem.specs.MadeRows.{AreIndexed, RowsInHand};

    ghost Value = { RowsInHand };

    ghost view = { λ r. record { items = r.list.items } };

    ghost invariant = { λ r. AreIndexed r.fields r.list.items };
}

/// The key of a field, by what its row says.
pub(crate) fn field_key(meaning: RowMeaning) -> Option<FieldKey>
    ensures { (own name : ℕ) → is_field_meaning own name meaning ≡ is_key own name result }
{
    match meaning {
        RowMeaning::Field(_, _, record, name) => Some((record, name)),
        _ => None,
    }
}

impl MadeRows {
    /// None yet.
    pub(crate) fn new(alloc: Global) -> MadeRows
        ensures { result.items ≡ [] }
    {
        MadeRows {
            list: Vec::new(alloc),
            fields: HashSet::new(alloc),
        }
    }

    pub(crate) fn len(&self) -> usize
        ensures { result ≡ length self.now.items }
    {
        self.list.len()
    }

    pub(crate) fn list(&self) -> &[Row]
        ensures { result.now ≡ self.now.items }
    {
        &self.list
    }

    /// Whether one of them is a field of this name, of the record whose row has this ordinal.
    pub(crate) fn has_field(&self, own: u32, name: u32) -> bool
        ensures { result ≡ list_any (is_field own name) self.now.items }
    {
        self.fields.contains(&(own, name))
    }

    /// One more row, with its key if it is a field.
    pub(crate) fn push(&mut self, row: Row, field: Option<FieldKey>) -> Result<(), Memory>
        requires { (own name : ℕ) → is_field own name row ≡ is_key own name field }
        ensures rows { OnOk result (self.new.items ≡ self.old.items ++ row ∷ []) }
        ensures unchanged { OnErr result (self.new.items ≡ self.old.items) }
    {
        self.list.push(row)?;
        let Some(key) = field else {
            return Ok(());
        };
        match self.fields.insert(key) {
            Ok(_) => Ok(()),
            Err(_) => {
                let _row = self.list.pop();
                Err(Memory)
            }
        }
    }

    pub(crate) fn into_list(self) -> Vec<Row>
        ensures { result.items ≡ self.items }
    {
        self.list
    }
}
