//! The names that the imports of a block have brought so far.
ghost use Rattle.std.specs.Prelude.{◌≡◌, ℕ, nat_eq, ◌+◌, ◌++◌, ◌∷◌, ◌<◌, ◌≤◌, [], length, OnOk, OnErr};
ghost use Rattle.std.specs.HashMap.{get, spare};
ghost use Rattle.m2_base.specs.Lists.{Each};
ghost use Rattle.m2_base.specs.Statics.Lookup.{brought_before, entry_named, entry_or};
ghost use Rattle.m2_base.specs.declared.limits.TheConstants.{MOST_BROUGHT};

use crate::memory::Memory;
use crate::sites::Named;
use std::alloc::Global;
use std::collections::HashMap;
use std::marker::Model;

/// The names that were brought, in the order of the items that brought them.
#[derive(Drop)]
pub(crate) struct BroughtNames {
    list: Vec<Named>,
    /// The first entry of each name.
    index: HashMap<u32, Named>,
}

impl Model for BroughtNames {
    ghost use Rattle.std.specs.Prelude.{List};
    ghost use Rattle.m2_base.specs.Statics.Layouts.{IsIndexed, AreBrought};
    ghost use Rattle.m2_base.specs.declared.sites.Named.{Named};

    ghost Value = { List Named };

    ghost view = { λ b. b.list.items };

    ghost invariant = { λ b. IsIndexed b.index b.list.items × AreBrought b.list.items };
}

impl BroughtNames {
    /// None.
    pub(crate) fn new(alloc: Global) -> BroughtNames
        ensures { result ≡ [] }
    {
        let list = Vec::new(alloc);
        let index = HashMap::new(alloc);
        BroughtNames { list, index }
    }

    pub(crate) fn len(&self) -> usize
        ensures { result ≡ length self.now }
    {
        self.list.len()
    }

    /// The first entry under a name.
    pub(crate) fn first(&self, name: u32) -> Option<Named>
        ensures { result ≡ entry_named self.now name }
    {
        self.index.get(&name).copied()
    }

    /// How many were brought by items before this one.
    pub(crate) fn before(&self, item: u32) -> u32
        ensures before { result ≡ brought_before self.now item }
        ensures few { result ≤ MOST_BROUGHT }
    {
        self.list.partition_point(|named| named.item < item) as u32
    }

    /// With those of one more item. After want of memory they are as before.
    pub(crate) fn extend(&mut self, item: u32, brought: &[Named]) -> Result<(), Memory>
        requires item { Each (λ b. b.item ≡ item) brought.now }
        requires order { Each (λ b. b.item ≤ item) self.old }
        requires few { length self.old + length brought.now ≤ MOST_BROUGHT }
        ensures extended { OnOk result (self.new ≡ self.old ++ brought.now) }
        ensures unchanged { OnErr result (self.new ≡ self.old) }
    {
        self.index.reserve(brought.len())?;
        self.list.extend_from_slice(brought)?;
        index_all(&mut self.index, brought);
        Ok(())
    }
}

/// With the first entry of each of these names that isn't there.
fn index_all(index: &mut HashMap<u32, Named>, brought: &[Named])
    requires room { length brought.now ≤ spare index.old }
    ensures { (name : ℕ)
        → get nat_eq index.new name ≡ entry_or (get nat_eq index.old name) (entry_named brought.now name) }
{
    for named in brought {
        index_one(index, *named);
    }
}

/// With one more name, if it isn't there.
fn index_one(index: &mut HashMap<u32, Named>, named: Named)
    requires room { 0 < spare index.old }
    ensures first { (name : ℕ)
        → get nat_eq index.new name ≡ entry_or (get nat_eq index.old name) (entry_named (named ∷ []) name) }
    ensures room { spare index.old ≤ spare index.new + 1 }
{
    if index.get(&named.name).is_none() {
        let Ok(_) = index.insert(named.name, named) else {
            unreachable!()
        };
    }
}
