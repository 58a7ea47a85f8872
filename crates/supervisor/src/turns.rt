//! Turns of a unit's tasks over the scopes of one thread.
ghost use Rattle.std.specs.Prelude.{◌≡◌, ◌+◌, ◌<◌, ◌^◌, IfOk, OnOk, length, map};
ghost use Rattle.scope_core.specs.Fronts.{ShowsFront};
ghost use Rattle.stream_split.specs.Streams.{streams_of};
ghost use Rattle.stream_split.specs.Views.{stream_view};
ghost use Rattle.m2_base.specs.States.{Turns};
ghost use Rattle.task_state.specs.Progress.{Ends, IsAsFar};
ghost use Rattle.unit_tasks.specs.Outputs.{AreOfStreams, AreOutputs};
ghost use Rattle.unit_tasks.specs.Units.{CanBeRun};
ghost use Rattle.supervisor.specs.Stands.{AreFull, AreOver, AreOverBefore, HasGrown, IsStand, IsTurned};
ghost use Rattle.supervisor.specs.Stands.{first_scopes, state_at};

use crate::tasks::{outputs_of, tasks_of};
use m2_base::{Memory, Output, Texts};
use scope_core::PlainScopes;
use std::alloc::Global;
use stream_split::StreamTokens;
use task_state::{Task, Turn};

/// A turn of the task whose scope has the number that follows on `place`, if it isn't done.
fn turn_at(
    alloc: Global,
    texts: &Texts,
    scopes: &mut PlainScopes,
    task: &mut Task,
    place: u32,
) -> Turn
    requires texts { scopes.old.texts ≡ texts.now }
    requires there { place + 1 < length scopes.old.areas }
    requires few { place < 2 ^ 31 }
    requires far { IsAsFar (state_at scopes.old place) task.old }
    requires front { ShowsFront (state_at scopes.old place) }
    ensures turns { Turns (state_at scopes.old place) (state_at scopes.new place) }
    ensures far { IsAsFar (state_at scopes.new place) task.new }
    ensures front { ShowsFront (state_at scopes.new place) }
    ensures ends { Ends (state_at scopes.old place) (state_at scopes.new place) task.new result }
{
    if task.is_done() {
        return Turn::Done;
    }
    scopes.move_to(place + 1);
    let turn = task.turn(alloc, texts, scopes);
    let _filled = scopes.filled();
    turn
}

/// A turn of the task at this place, if it isn't done.
fn turn_of(
    alloc: Global,
    texts: &Texts,
    scopes: &mut PlainScopes,
    tasks: &mut [Task],
    place: usize,
) -> Turn
    requires stand { IsStand texts.now scopes.old tasks.old }
    requires there { place < length tasks.old }
    ensures stand { IsStand texts.now scopes.new tasks.new }
    ensures grown { HasGrown scopes.old scopes.new }
    ensures turned { IsTurned scopes.old scopes.new place tasks.old tasks.new result }
{
    turn_at(alloc, texts, scopes, &mut tasks[place], place as u32)
}

/// A turn of the task of the stream with this number, where there is one that isn't done. It may have to wait.
fn turn_named(
    alloc: Global,
    texts: &Texts,
    scopes: &mut PlainScopes,
    tasks: &mut [Task],
    stream: u32,
) -> Result<(), Memory>
    requires { IsStand texts.now scopes.old tasks.old }
    ensures stand { IsStand texts.now scopes.new tasks.new }
    ensures grown { HasGrown scopes.old scopes.new }
{
    let stream = stream as usize;
    if stream == 0 || tasks.len() < stream {
        return Ok(());
    }
    match turn_of(alloc, texts, scopes, tasks, stream - 1) {
        Turn::Done | Turn::Parked(_) => Ok(()),
        Turn::Memory => Err(Memory),
    }
}

/// A turn for each of these numbers.
fn turns_named(
    alloc: Global,
    texts: &Texts,
    scopes: &mut PlainScopes,
    tasks: &mut [Task],
    order: &[u32],
) -> Result<(), Memory>
    requires { IsStand texts.now scopes.old tasks.old }
    ensures stand { IsStand texts.now scopes.new tasks.new }
    ensures grown { HasGrown scopes.old scopes.new }
{
    for stream in order {
        turn_named(alloc, texts, scopes, tasks, *stream)?;
    }
    Ok(())
}

/// A turn of the task at this place, where those before it are done. It never has to wait: every smaller scope is
/// complete.
fn last_turn(
    alloc: Global,
    texts: &Texts,
    scopes: &mut PlainScopes,
    tasks: &mut [Task],
    place: usize,
) -> Result<(), Memory>
    requires stand { IsStand texts.now scopes.old tasks.old }
    requires there { place < length tasks.old }
    requires over { AreOverBefore place tasks.old }
    ensures stand { IsStand texts.now scopes.new tasks.new }
    ensures grown { HasGrown scopes.old scopes.new }
    ensures over { OnOk result (AreOverBefore (place + 1) tasks.new) }
{
    match turn_of(alloc, texts, scopes, tasks, place) {
        Turn::Done => Ok(()),
        Turn::Parked(_) => unreachable!(),
        Turn::Memory => Err(Memory),
    }
}

/// The last turns, in the order of the scopes.
fn last_turns(
    alloc: Global,
    texts: &Texts,
    scopes: &mut PlainScopes,
    tasks: &mut [Task],
) -> Result<(), Memory>
    requires { IsStand texts.now scopes.old tasks.old }
    ensures stand { IsStand texts.now scopes.new tasks.new }
    ensures grown { HasGrown scopes.old scopes.new }
    ensures over { OnOk result (AreOver tasks.new) }
{
    for place in 0..tasks.len() {
        last_turn(alloc, texts, scopes, tasks, place)?;
    }
    Ok(())
}

/// What the streams of a unit leave, each its output, in their order. A turn is made for each number of the order
/// that names a stream which isn't done, and other numbers are passed over; what is left is then finished in the
/// order of the scopes. So whatever the order, the outputs are those of the unit's blocks, and each scope is complete
/// in the end. The scopes are new.
pub fn run_turns(
    alloc: Global,
    texts: &Texts,
    streams: Vec<StreamTokens>,
    scopes: &mut PlainScopes,
    order: &[u32],
) -> Result<Vec<Output>, Memory>
    requires unit { CanBeRun texts.now }
    requires streams { map stream_view streams.items ≡ streams_of texts.now }
    requires scopes { scopes.old ≡ first_scopes texts.now }
    ensures streams { IfOk result (λ outputs. AreOfStreams texts.now outputs.items) }
    ensures unit { IfOk result (λ outputs. AreOutputs texts.now outputs.items) }
    ensures full { OnOk result (AreFull scopes.new) }
    ensures grown { HasGrown scopes.old scopes.new }
{
    let mut tasks = tasks_of(alloc, texts, streams)?;
    turns_named(alloc, texts, scopes, &mut tasks, order)?;
    last_turns(alloc, texts, scopes, &mut tasks)?;
    outputs_of(alloc, tasks)
}
