//! The work on a block whose tree is read.
ghost use Rattle.std.specs.Prelude.{◌≡◌, true, IfOk, OnErr, OnOk, is_some, length};
ghost use Rattle.std.specs.Option.{IfSome};
ghost use Rattle.m2_base.specs.States.{State, Turns, texts_of};
ghost use Rattle.m2_base.specs.Statics.Layouts.{layout_of};
ghost use Rattle.m2_base.specs.Views.{stream_view};
ghost use Rattle.task_state.specs.Steps.{IsAtWork, IsFresh, Leaves, Stops};

use crate::collecting::Collected;
use crate::declaring::declare_block;
use crate::outputs::output_of;
use crate::stages::{Begun, Block};
use crate::stating::{begin, state_all};
use crate::stops::Stop;
use decl_sem::first_cell;
use m2_base::{Around, Ask, Layout, Memory, Output, Scopes, Stream, Texts};
use std::alloc::Global;

/// A block of whose tree nothing is done yet.
pub(crate) fn begun(alloc: Global, tree: Stream, layout: Layout) -> Begun
    requires { layout ≡ layout_of (stream_view tree) }
    ensures { IsFresh tree result }
{
    Begun {
        tree,
        collected: Collected::new(alloc, layout),
        placed: false,
        closed: false,
        stating: None,
    }
}

/// Asks for the first cell of the block's variables, if that isn't done yet.
fn place<S: Scopes>(around: &Around, scopes: &mut S, begun: &mut Begun) -> Result<(), Stop>
    requires far { IsAtWork (S.state scopes.old) around.now begun.old }
    ensures turns { Turns (S.state scopes.old) (S.state scopes.new) }
    ensures far { IsAtWork (S.state scopes.new) around.now begun.new }
    ensures stops { Stops (S.state scopes.old) (S.state scopes.new) result }
    ensures tree { begun.new.tree ≡ begun.old.tree }
    ensures placed { OnOk result (begun.new.placed ≡ true) }
{
    if begun.placed {
        return Ok(());
    }
    match first_cell(scopes, around, begun.tree.kind) {
        Ask::Known(cell) => {
            begun.collected.place(cell);
            begun.placed = true;
            Ok(())
        }
        Ask::DontKnowYet(head) => Err(Stop::Parked(head)),
    }
}

/// Declares the items that are left, and completes the scope.
fn declare_rest<S: Scopes>(
    alloc: Global,
    texts: &Texts,
    around: &Around,
    scopes: &mut S,
    begun: &mut Begun,
) -> Result<(), Stop>
    requires texts { texts.now ≡ texts_of (S.state scopes.old) }
    requires far { IsAtWork (S.state scopes.old) around.now begun.old }
    requires placed { begun.old.placed ≡ true }
    ensures turns { Turns (S.state scopes.old) (S.state scopes.new) }
    ensures far { IsAtWork (S.state scopes.new) around.now begun.new }
    ensures stops { Stops (S.state scopes.old) (S.state scopes.new) result }
    ensures tree { begun.new.tree ≡ begun.old.tree }
    ensures closed { OnOk result (begun.new.closed ≡ true) }
{
    if begun.closed {
        return Ok(());
    }
    let block = Block {
        texts,
        around,
        tree: &begun.tree,
    };
    gone!(declare_block(alloc, scopes, &block, &mut begun.collected));
    begun.closed = true;
    Ok(())
}

/// Checks the complete block and begins its body, if that isn't done yet.
fn begin_rest<S: Scopes>(
    alloc: Global,
    texts: &Texts,
    around: &Around,
    scopes: &mut S,
    begun: &mut Begun,
) -> Result<(), Stop>
    requires texts { texts.now ≡ texts_of (S.state scopes.old) }
    requires far { IsAtWork (S.state scopes.old) around.now begun.old }
    requires closed { begun.old.closed ≡ true }
    ensures turns { Turns (S.state scopes.old) (S.state scopes.new) }
    ensures far { IsAtWork (S.state scopes.new) around.now begun.new }
    ensures stops { Stops (S.state scopes.old) (S.state scopes.new) result }
    ensures tree { begun.new.tree ≡ begun.old.tree }
    ensures closed { begun.new.closed ≡ true }
    ensures stating { OnOk result (is_some begun.new.stating ≡ true) }
{
    if begun.stating.is_some() {
        return Ok(());
    }
    let block = Block {
        texts,
        around,
        tree: &begun.tree,
    };
    let stating = gone!(begin(alloc, scopes, &block, &begun.collected));
    begun.stating = Some(stating);
    Ok(())
}

/// Makes the statements that are left.
fn state_rest<S: Scopes>(
    texts: &Texts,
    around: &Around,
    scopes: &mut S,
    begun: &mut Begun,
) -> Result<(), Stop>
    requires texts { texts.now ≡ texts_of (S.state scopes.old) }
    requires far { IsAtWork (S.state scopes.old) around.now begun.old }
    requires closed { begun.old.closed ≡ true }
    ensures turns { Turns (S.state scopes.old) (S.state scopes.new) }
    ensures far { IsAtWork (S.state scopes.new) around.now begun.new }
    ensures stops { Stops (S.state scopes.old) (S.state scopes.new) result }
    ensures tree { begun.new.tree ≡ begun.old.tree }
    ensures closed { begun.new.closed ≡ true }
    ensures stating { is_some begun.new.stating ≡ is_some begun.old.stating }
    ensures all { OnOk result
        (IfSome begun.new.stating (λ stating. stating.body.count ≡ length begun.new.tree.body.items)) }
{
    let block = Block {
        texts,
        around,
        tree: &begun.tree,
    };
    match &mut begun.stating {
        Some(stating) => state_all(scopes, &block, &begun.collected, stating),
        None => Ok(()),
    }
}

/// What a block leaves all of whose statements are made. Without memory its body is begun anew.
fn end(alloc: Global, texts: &Texts, around: &Around, begun: &mut Begun) -> Result<Output, Memory>
    requires stating { is_some begun.old.stating ≡ true }
    requires all { IfSome begun.old.stating (λ stating. stating.body.count ≡ length begun.old.tree.body.items) }
    requires closed { begun.old.closed ≡ true }
    ensures tree { begun.new.tree ≡ begun.old.tree }
    ensures far { (st : State) → texts.now ≡ texts_of st → IsAtWork st around.now begun.old
        → IsAtWork st around.now begun.new }
    ensures left { IfOk result (λ output. (st : State) → texts.now ≡ texts_of st → IsAtWork st around.now begun.old
        → Leaves st around.now begun.old.tree output) }
{
    let block = Block {
        texts,
        around,
        tree: &begun.tree,
    };
    match begun.stating.take() {
        Some(stating) => output_of(alloc, &block, &begun.collected, stating),
        None => unreachable!(),
    }
}

/// Goes on with the work on a block until it is done, or has to wait, or memory is wanted.
pub(crate) fn work<S: Scopes>(
    alloc: Global,
    texts: &Texts,
    around: &Around,
    scopes: &mut S,
    begun: &mut Begun,
) -> Result<Output, Stop>
    requires texts { texts.now ≡ texts_of (S.state scopes.old) }
    requires far { IsAtWork (S.state scopes.old) around.now begun.old }
    ensures turns { Turns (S.state scopes.old) (S.state scopes.new) }
    ensures far { IsAtWork (S.state scopes.new) around.now begun.new }
    ensures stops { Stops (S.state scopes.old) (S.state scopes.new) result }
    ensures tree { begun.new.tree ≡ begun.old.tree }
    ensures closed { OnOk result ((S.state scopes.new).frame.closed ≡ true) }
    ensures left { IfOk result (λ output. Leaves (S.state scopes.new) around.now begun.old.tree output) }
{
    gone!(place(around, scopes, begun));
    gone!(declare_rest(alloc, texts, around, scopes, begun));
    gone!(begin_rest(alloc, texts, around, scopes, begun));
    gone!(state_rest(texts, around, scopes, begun));
    match end(alloc, texts, around, begun) {
        Ok(output) => Ok(output),
        Err(Memory) => Err(Stop::NoMemory),
    }
}
