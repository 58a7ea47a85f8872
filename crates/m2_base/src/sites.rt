//! Where a name, a type or an expression stands.
ghost use Rattle.std.specs.Prelude.{◌≡◌, ◌+◌, ◌<◌, ◌≤◌, ◌^◌, [], length, IfOk, OnOk, OnErr};
ghost use Rattle.m2_base.specs.Lists.{Each};
ghost use Rattle.m2_base.specs.Statics.Layouts.{HasSmallNumbers, IsIndexed, extended, first_row};
ghost use Rattle.m2_base.specs.Statics.Lookup.{entry_named, first_entry, moved};
ghost use Rattle.m2_base.specs.declared.limits.TheConstants.{MOST_BROUGHT};

use crate::brought::BroughtNames;
use crate::memory::Memory;
use crate::replies::Chain;
use crate::texts::Texts;
use std::alloc::Global;
use std::collections::HashMap;
use std::marker::Model;

/// What surrounds a block.
#[derive(Drop)]
pub struct Around {
    /// The scope of the block.
    pub scope: u32,
    pub text: u32,
    /// 0 for a module, 1 for its procedures.
    pub level: u32,
    /// The scope of the main module, in a definition module its own.
    pub module: u32,
    /// The scope of the own definition of an implementation module.
    pub own: Option<u32>,
    pub chain: Chain,
}

/// A name that a block declares, with the ordinal, the kind and the token of its row, and the number of its item.
#[derive(Clone, Copy)]
pub struct Named {
    pub name: u32,
    pub ordinal: u32,
    pub kind: u8,
    pub at: u32,
    pub item: u32,
}

/// The layout of a block: each name that its syntax declares, the first ordinal of each item with the number of all
/// rows last, and the names that its imports have brought so far.
#[derive(Drop)]
pub struct Layout {
    names: Vec<Named>,
    firsts: Vec<u32>,
    /// The first entry of each name that the syntax declares.
    index: HashMap<u32, Named>,
    brought: BroughtNames,
}

impl Model for Layout {
    ghost use Rattle.m2_base.specs.Statics.Layouts.{HasSmallNumbers, IsIndexed, Layout as PlainLayout};

    ghost Value = { PlainLayout };

    ghost view = { λ l. record { names = l.names.items; firsts = l.firsts.items; brought = l.brought } };

    ghost invariant = { λ l.
        IsIndexed l.index l.names.items × HasSmallNumbers l.names.items l.firsts.items l.brought };
}

impl Layout {
    /// Of these names, with these first ordinals; nothing is brought.
    pub fn new(alloc: Global, names: Vec<Named>, firsts: Vec<u32>) -> Result<Layout, Memory>
        requires small { HasSmallNumbers names.items firsts.items [] }
        ensures names { IfOk result (λ layout. layout.names ≡ names.items) }
        ensures firsts { IfOk result (λ layout. layout.firsts ≡ firsts.items) }
        ensures brought { IfOk result (λ layout. layout.brought ≡ []) }
    {
        let index = index_of(alloc, &names)?;
        let brought = BroughtNames::new(alloc);
        Ok(Layout {
            names,
            firsts,
            index,
            brought,
        })
    }

    /// Each name that the syntax declares, with its row's ordinal as if nothing were brought.
    pub fn names(&self) -> &[Named]
        ensures { result.now ≡ self.now.names }
    {
        &self.names
    }

    /// The first ordinal of each item as if nothing were brought, and the number of all rows last.
    pub fn firsts(&self) -> &[u32]
        ensures { result.now ≡ self.now.firsts }
    {
        &self.firsts
    }

    /// How many names are brought.
    pub fn count_brought(&self) -> usize
        ensures { result ≡ length self.now.brought }
    {
        self.brought.len()
    }

    /// The entry of a name that was brought.
    pub fn brought(&self, name: u32) -> Option<Named>
        ensures { result ≡ entry_named self.now.brought name }
    {
        self.brought.first(name)
    }

    /// The first entry under a name, with its row's ordinal. It doesn't scan the names.
    pub fn first(&self, name: u32) -> Option<Named>
        ensures { result ≡ first_entry self.now name }
    {
        match self.brought.first(name) {
            Some(named) => Some(named),
            None => {
                let named = self.index.get(&name).copied()?;
                Some(self.moved(named))
            }
        }
    }

    /// An entry of the syntax, with its row's ordinal.
    fn moved(&self, named: Named) -> Named
        requires { named.ordinal < 2 ^ 31 }
        ensures { result ≡ moved self.now.brought named }
    {
        let ordinal = named.ordinal + self.brought.before(named.item);
        Named { ordinal, ..named }
    }

    /// The ordinal of the first row of an item; of the number of items that behind all rows.
    pub fn first_row(&self, item: u32) -> Option<u32>
        ensures { result ≡ first_row self.now item }
    {
        let first = *self.firsts.get(item as usize)?;
        Some(first + self.brought.before(item))
    }

    /// With the names that an item has brought. Items come in their order.
    /// After want of memory the layout is as before.
    pub fn extend(&mut self, item: u32, brought: &[Named]) -> Result<(), Memory>
        requires item { Each (λ b. b.item ≡ item) brought.now }
        requires order { Each (λ b. b.item ≤ item) self.old.brought }
        requires few { length self.old.brought + length brought.now ≤ MOST_BROUGHT }
        ensures extended { OnOk result (self.new ≡ extended self.old brought.now) }
        ensures unchanged { OnErr result (self.new ≡ self.old) }
    {
        self.brought.extend(item, brought)
    }
}

/// The first entry of each name.
fn index_of(alloc: Global, names: &[Named]) -> Result<HashMap<u32, Named>, Memory>
    ensures { IfOk result (λ index. IsIndexed index names.now) }
{
    let mut index = HashMap::new(alloc);
    for named in names.iter().rev() {
        index.insert(named.name, *named)?;
    }
    Ok(index)
}

/// Where a name is used.
#[derive(Drop)]
pub struct Site<'a> {
    pub texts: &'a Texts,
    pub around: &'a Around,
    pub layout: &'a Layout,
    /// The item of a declaration; none in statements.
    pub item: Option<u32>,
}
