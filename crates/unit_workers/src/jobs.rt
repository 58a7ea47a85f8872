//! The job of a stream.
ghost use Rattle.std.specs.Prelude.{◌≡◌, IfOk};

use crate::handles::{OfTable, TableScopes};
use m2_base::Memory;
use std::alloc::Global;
use task_state::Task;

/// The task of a stream, with the handle by which it fills its scope.
#[derive(Drop)]
pub(crate) struct JobParts<'t, J: OfTable> {
    pub task: Task,
    pub scopes: TableScopes<'t, J>,
}

/// The job of a stream. It is one word, so that it costs little to hand it on.
#[derive(Drop)]
pub(crate) struct StreamJob<'t, J: OfTable> {
    pub parts: Box<JobParts<'t, J>>,
}

impl<'t, J: OfTable> StreamJob<'t, J> {
    ghost use Rattle.dky_search.specs.SeatScopes.{state_of};

    pub fn new(
        alloc: Global,
        task: Task,
        scopes: TableScopes<'t, J>,
    ) -> Result<StreamJob<'t, J>, Memory>
        ensures { IfOk result (λ job.
            (job.parts.value.task ≡ task) × (state_of job.parts.value.scopes.scopes ≡ state_of scopes.entry.scopes)) }
    {
        let parts = Box::new(alloc, JobParts { task, scopes })?;
        Ok(StreamJob { parts })
    }
}

impl<'t, J: OfTable> relay::Job for StreamJob<'t, J> {
    ghost use Rattle.m2_base.specs.States.{fills_of};
    ghost use Rattle.dky_search.specs.SeatScopes.{state_of};
    ghost use Rattle.task_state.specs.Progress.{is_over};
    ghost use Rattle.unit_workers.specs.Jobs.{Stays, same_stays, both_stay, fills_stays};

    ghost number = { λ job. fills_of (state_of job.parts.value.scopes.scopes) };

    ghost done = { λ job. is_over job.parts.value.task };

    ghost stays = { λ job later. Stays (state_of job.parts.value.scopes.scopes) job.parts.value.task
        (state_of later.parts.value.scopes.scopes) later.parts.value.task };

    fn number(&self) -> u32 {
        self.parts.scopes.filled()
    }

    fn is_done(&self) -> bool {
        self.parts.task.is_done()
    }

    ghost stays_as_it_is = { λ job. same_stays };

    ghost stays_on = { λ job later latest. both_stay };

    ghost number_stays = { λ job later. fills_stays };
}
