//! The tasks of a unit, before their first turns and after their last.
ghost use Rattle.std.specs.Prelude.{◌≡◌, IfOk, map};
ghost use Rattle.std.specs.List.{AllZip};
ghost use Rattle.stream_split.specs.Streams.{streams_of};
ghost use Rattle.stream_split.specs.Views.{stream_view};
ghost use Rattle.unit_tasks.specs.Starts.{AreNew, StartsIn};
ghost use Rattle.unit_tasks.specs.Units.{CanBeRun};
ghost use Rattle.supervisor.specs.Stands.{AreOver, IsStand, Leaves, first_scopes};

use m2_base::{Around, Memory, Output, Texts};
use std::alloc::Global;
use stream_split::StreamTokens;
use task_state::Task;
use unit_tasks::surroundings;

/// The tasks of these streams, whose blocks are surrounded so.
fn new_tasks(
    alloc: Global,
    streams: Vec<StreamTokens>,
    arounds: Vec<Around>,
) -> Result<Vec<Task>, Memory>
    ensures { IfOk result (λ tasks. AreNew streams.items arounds.items tasks.items) }
{
    let mut tasks = Vec::with_capacity(alloc, streams.len())?;
    for (stream, around) in streams.into_iter().zip(arounds) {
        tasks.push(Task::new(stream, around))?;
    }
    Ok(tasks)
}

/// The tasks of a unit's streams. Nothing is done yet.
pub fn tasks_of(
    alloc: Global,
    texts: &Texts,
    streams: Vec<StreamTokens>,
) -> Result<Vec<Task>, Memory>
    requires unit { CanBeRun texts.now }
    requires streams { map stream_view streams.items ≡ streams_of texts.now }
    ensures stand { IfOk result (λ tasks. IsStand texts.now (first_scopes texts.now) tasks.items) }
    ensures start { IfOk result (λ tasks. AllZip (StartsIn texts.now) (streams_of texts.now) tasks.items) }
{
    let _main = texts.main();
    let arounds = surroundings(alloc, texts, &streams)?;
    new_tasks(alloc, streams, arounds)
}

/// What tasks leave that are done.
pub(crate) fn outputs_of(alloc: Global, tasks: Vec<Task>) -> Result<Vec<Output>, Memory>
    requires { AreOver tasks.items }
    ensures { IfOk result (λ outputs. AllZip Leaves tasks.items outputs.items) }
{
    let mut outputs = Vec::with_capacity(alloc, tasks.len())?;
    for task in tasks {
        outputs.push(task.finished())?;
    }
    Ok(outputs)
}
