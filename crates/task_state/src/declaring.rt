//! The declarations of a block, one item after another.
ghost use Rattle.std.specs.Prelude.{◌≡◌, ◌≤◌, ◌+◌, Some, OnErr, OnOk, false, is_some, length, slice_get};
ghost use Rattle.std.specs.Option.{IfSome};
ghost use Rattle.m2_base.specs.Scopes.{CanEnter, Entered};
ghost use Rattle.m2_base.specs.States.{Turns};
ghost use Rattle.m2_base.specs.Statics.Items.{items_of};
ghost use Rattle.m2_base.specs.Views.{stream_view};
ghost use Rattle.decl_sem.specs.Items.{item_view};
ghost use Rattle.task_state.specs.Collecting.{CanAdd, with_item};
ghost use Rattle.task_state.specs.Steps.{IsComplete, IsDeclaring, Stops};

use crate::collecting::Collected;
use crate::items::items;
use crate::stages::Block;
use crate::stops::Stop;
use decl_sem::{Declared, Item, declare};
use m2_base::{Ask, Memory, Scopes, Site};
use std::alloc::Global;

/// Keeps what an item gives, and enters its rows: both, or neither.
fn take<S: Scopes>(
    scopes: &mut S,
    declared: &Declared,
    collected: &mut Collected,
) -> Result<(), Memory>
    requires enters { CanEnter (S.state scopes.old) declared.now.rows.items }
    requires adds { CanAdd collected.old declared.now }
    ensures entered { OnOk result (Entered (S.state scopes.old) (S.state scopes.new) declared.now.rows.items) }
    ensures added { OnOk result (collected.new ≡ with_item collected.old declared.now) }
    ensures same { OnErr result (S.state scopes.new ≡ S.state scopes.old) }
    ensures kept { OnErr result (collected.new ≡ collected.old) }
{
    collected.add(declared)?;
    scopes.enter(&declared.rows);
    Ok(())
}

/// Declares the next item. Where that must wait, or memory is wanted, nothing of it is kept.
fn declare_next<S: Scopes>(
    alloc: Global,
    scopes: &mut S,
    block: &Block,
    item: &Item,
    collected: &mut Collected,
) -> Result<(), Stop>
    requires far { IsDeclaring (S.state scopes.old) block.now collected.old }
    requires here { slice_get (items_of (stream_view block.now.tree.now)) collected.old.count
        ≡ Some (item_view item.now) }
    ensures turns { Turns (S.state scopes.old) (S.state scopes.new) }
    ensures far { IsDeclaring (S.state scopes.new) block.now collected.new }
    ensures stops { Stops (S.state scopes.old) (S.state scopes.new) result }
    ensures next { OnOk result (collected.new.count ≡ collected.old.count + 1) }
{
    let site = Site {
        texts: block.texts,
        around: block.around,
        layout: &collected.layout,
        item: Some(collected.count),
    };
    match declare(alloc, scopes, &site, block.tree, item, collected.before) {
        Ok(Ask::Known(declared)) => match take(scopes, &declared, collected) {
            Ok(()) => Ok(()),
            Err(Memory) => Err(Stop::NoMemory),
        },
        Ok(Ask::DontKnowYet(head)) => Err(Stop::Parked(head)),
        Err(Memory) => Err(Stop::NoMemory),
    }
}

/// The item with this number, if there are so many.
fn item_at<'a, 'b>(items: &'b [Item<'a>], number: u32) -> Option<&'b Item<'a>>
    ensures there { IfSome result (λ item. slice_get items.now number ≡ Some item.now) }
    ensures past { is_some result ≡ false → length items.now ≤ number }
{
    items.get(number as usize)
}

/// Declares all items from the next one on.
fn declare_items<S: Scopes>(
    alloc: Global,
    scopes: &mut S,
    block: &Block,
    collected: &mut Collected,
) -> Result<(), Stop>
    requires far { IsDeclaring (S.state scopes.old) block.now collected.old }
    ensures turns { Turns (S.state scopes.old) (S.state scopes.new) }
    ensures far { IsDeclaring (S.state scopes.new) block.now collected.new }
    ensures stops { Stops (S.state scopes.old) (S.state scopes.new) result }
    ensures all { OnOk result (collected.new.count ≡ length (items_of (stream_view block.now.tree.now))) }
{
    let items = taken!(items(alloc, block.tree));
    'items: while let Some(item) = item_at(&items, collected.count) {
        gone!(declare_next(alloc, scopes, block, item, collected));
    }
    Ok(())
}

/// Declares all items from the next one on, and completes the scope.
pub(crate) fn declare_block<S: Scopes>(
    alloc: Global,
    scopes: &mut S,
    block: &Block,
    collected: &mut Collected,
) -> Result<(), Stop>
    requires far { IsDeclaring (S.state scopes.old) block.now collected.old }
    ensures turns { Turns (S.state scopes.old) (S.state scopes.new) }
    ensures far { OnErr result (IsDeclaring (S.state scopes.new) block.now collected.new) }
    ensures complete { OnOk result (IsComplete (S.state scopes.new) block.now collected.new) }
    ensures stops { Stops (S.state scopes.old) (S.state scopes.new) result }
{
    gone!(declare_items(alloc, scopes, block, collected));
    scopes.complete();
    Ok(())
}
