//! What jobs leave that are done.
ghost use Rattle.std.specs.Prelude.{◌≡◌, true, All, IfOk, Some};
ghost use Rattle.std.specs.List.{AllZip};
ghost use Rattle.m2_base.specs.States.{State};
ghost use Rattle.scope_core.specs.Fronts.{ShowsFront};
ghost use Rattle.dky_search.specs.SeatScopes.{table_in, state_of};
ghost use Rattle.task_state.specs.Progress.{is_over};
ghost use Rattle.unit_workers.specs.Ends.{IsEnd};

use crate::handles::OfTable;
use crate::jobs::{JobParts, StreamJob};
use dky_search::SeatScopes;
use m2_base::{Memory, Output};
use std::alloc::Global;

/// What the work on a stream leaves, and the scopes that filled its own.
#[derive(Drop)]
pub struct Finished<S> {
    pub output: Output,
    pub scopes: S,
}

/// What the parts of a job leave that is done.
fn end_of<'t, J: OfTable>(parts: JobParts<'t, J>) -> Finished<SeatScopes<'t>>
    requires { is_over parts.task ≡ true }
    ensures { IsEnd J.table (state_of parts.entry.scopes.scopes) parts.entry.task result }
{
    let _filled = parts.scopes.filled();
    let JobParts { task, scopes } = parts;
    Finished {
        output: task.finished(),
        scopes: scopes.into_scopes(),
    }
}

/// What jobs leave that are done.
pub(crate) fn all_finished<'t, J: OfTable>(
    alloc: Global,
    jobs: Vec<StreamJob<'t, J>>,
) -> Result<Vec<Finished<SeatScopes<'t>>>, Memory>
    requires { All (λ job. is_over job.parts.value.task ≡ true) jobs.items }
    ensures { IfOk result (λ all. AllZip (λ job end.
        IsEnd J.table (state_of job.parts.value.scopes.scopes) job.parts.value.task end) jobs.entry.items all.items) }
{
    let mut all = Vec::with_capacity(alloc, jobs.len())?;
    for job in jobs {
        let parts = Box::into_inner(job.parts);
        all.push(end_of(parts))?;
    }
    Ok(all)
}
