//! The jobs of a unit, before their first turns.
ghost use Rattle.std.specs.Prelude.{◌≡◌, Some, IfOk, map};
ghost use Rattle.std.specs.List.{AllZip};
ghost use Rattle.dky_search.specs.SeatScopes.{state_of};
ghost use Rattle.stream_split.specs.Streams.{streams_of};
ghost use Rattle.stream_split.specs.Views.{stream_view};
ghost use Rattle.unit_tasks.specs.Units.{CanBeRun};
ghost use Rattle.unit_workers.specs.Starts.{AreOthers, IsBegun};

use crate::handles::{OfTable, TableScopes};
use crate::jobs::StreamJob;
use m2_base::{Memory, Texts};
use scope_table::{ScopeTable, TableSeat};
use std::alloc::Global;
use stream_split::StreamTokens;
use task_state::Task;
use unit_tasks::surroundings;

/// The jobs of a unit's streams, over the table that was opened for it. Nothing is done yet.
pub(crate) fn jobs_of<'t, J: OfTable>(
    alloc: Global,
    texts: &'t Texts,
    table: &'t ScopeTable,
    streams: Vec<StreamTokens>,
    seats: Vec<TableSeat>,
) -> Result<Vec<StreamJob<'t, J>>, Memory>
    requires this { J.table ≡ Some table.now }
    requires unit { CanBeRun texts.now }
    requires streams { map stream_view streams.items ≡ streams_of texts.now }
    requires seats { AreOthers table.now texts.now seats.items }
    ensures { IfOk result
        (λ jobs. AllZip (λ s job. IsBegun texts.now s (state_of job.parts.value.scopes.scopes) job.parts.value.task)
        (streams_of texts.now) jobs.items) }
{
    let _main = texts.main();
    let arounds = surroundings(alloc, texts, &streams)?;
    let mut jobs = Vec::with_capacity(alloc, streams.len())?;
    for ((stream, around), seat) in streams.into_iter().zip(arounds).zip(seats) {
        let task = Task::new(stream, around);
        let scopes = TableScopes::new(table, texts, seat);
        jobs.push(StreamJob::new(alloc, task, scopes)?)?;
    }
    Ok(jobs)
}
