//! The complete block: its check, and its statements one after another.
ghost use Rattle.std.specs.Prelude.{◌≡◌, ◌<◌, ◌+◌, IfOk, OnOk, length};
ghost use Rattle.m2_base.specs.States.{Turns};
ghost use Rattle.m2_base.specs.Views.{stream_view};
ghost use Rattle.task_state.specs.Collecting.{returned};
ghost use Rattle.task_state.specs.Steps.{IsComplete, IsStating, Stops};

use crate::collecting::Collected;
use crate::stages::{Block, Stating};
use crate::stops::Stop;
use decl_sem::close_check;
use m2_base::{Ask, Memory, Place, Scopes, Site, Stream};
use std::alloc::Global;
use stmt_sem::Body;

/// Checks the complete block, and begins its body.
pub(crate) fn begin<S: Scopes>(
    alloc: Global,
    scopes: &mut S,
    block: &Block,
    collected: &Collected,
) -> Result<Stating, Stop>
    requires complete { IsComplete (S.state scopes.old) block.now collected.now }
    ensures turns { Turns (S.state scopes.old) (S.state scopes.new) }
    ensures complete { IsComplete (S.state scopes.new) block.now collected.now }
    ensures stops { Stops (S.state scopes.old) (S.state scopes.new) result }
    ensures begun { IfOk result (λ stating. IsStating (S.state scopes.new) block.now collected.now stating) }
{
    let site = Site {
        texts: block.texts,
        around: block.around,
        layout: &collected.layout,
        item: None,
    };
    let closing = match close_check(alloc, scopes, &site, block.tree) {
        Ok(Ask::Known(notes)) => notes.diags,
        Ok(Ask::DontKnowYet(head)) => return Err(Stop::Parked(head)),
        Err(Memory) => return Err(Stop::NoMemory),
    };
    let body = taken!(Body::begin(alloc, block.tree, collected.before.cell, &collected.copies));
    Ok(Stating { closing, body })
}

/// The type of the result of a block's procedure: a block without a heading has none.
fn result_of(stream: &Stream, returns: Option<Place>) -> Option<Place>
    ensures { result ≡ returned (stream_view stream.now).heading returns }
{
    match &stream.heading {
        Some(_) => returns,
        None => None,
    }
}

/// Makes the next statement. Where that must wait, or memory is wanted, nothing of it is kept.
fn state_next<S: Scopes>(
    scopes: &mut S,
    block: &Block,
    collected: &Collected,
    stating: &mut Stating,
) -> Result<(), Stop>
    requires far { IsStating (S.state scopes.old) block.now collected.now stating.old }
    requires more { stating.old.body.count < length block.now.tree.now.body.items }
    ensures turns { Turns (S.state scopes.old) (S.state scopes.new) }
    ensures far { IsStating (S.state scopes.new) block.now collected.now stating.new }
    ensures stops { Stops (S.state scopes.old) (S.state scopes.new) result }
    ensures next { OnOk result (stating.new.body.count ≡ stating.old.body.count + 1) }
{
    let site = Site {
        texts: block.texts,
        around: block.around,
        layout: &collected.layout,
        item: None,
    };
    let returns = result_of(block.tree, collected.returns);
    match stating.body.add(scopes, &site, block.tree, returns) {
        Ok(Ask::Known(())) => Ok(()),
        Ok(Ask::DontKnowYet(head)) => Err(Stop::Parked(head)),
        Err(Memory) => Err(Stop::NoMemory),
    }
}

/// Makes all statements from the next one on.
pub(crate) fn state_all<S: Scopes>(
    scopes: &mut S,
    block: &Block,
    collected: &Collected,
    stating: &mut Stating,
) -> Result<(), Stop>
    requires far { IsStating (S.state scopes.old) block.now collected.now stating.old }
    ensures turns { Turns (S.state scopes.old) (S.state scopes.new) }
    ensures far { IsStating (S.state scopes.new) block.now collected.now stating.new }
    ensures stops { Stops (S.state scopes.old) (S.state scopes.new) result }
    ensures all { OnOk result (stating.new.body.count ≡ length block.now.tree.now.body.items) }
{
    'statements: while stating.body.count() < block.tree.body.len() {
        gone!(state_next(scopes, block, collected, stating));
    }
    Ok(())
}
