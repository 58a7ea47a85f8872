//! Turns of jobs.
ghost use Rattle.std.specs.Prelude.{◌≡◌};
ghost use Rattle.unit_workers.specs.Jobs.{becomes};

use crate::handles::OfTable;
use crate::jobs::StreamJob;
use m2_base::Texts;
use m2_io::Gate;
use relay::{Turned, Turns};
use std::alloc::Global;
use task_state::Turn;

/// What the turns of all jobs share: the texts of the unit, and what each turn passes.
#[derive(Drop)]
pub(crate) struct Making<'t, 'g, G> {
    pub alloc: Global,
    pub texts: &'t Texts,
    pub gate: &'g G,
}

/// What became of a job in a turn that ended so, by whether it finished an item or a statement.
fn turned(turn: &Turn, further: bool) -> Turned
    ensures { result ≡ becomes turn.now further }
{
    match turn {
        Turn::Done => Turned::Further,
        Turn::Parked(_) => {
            if further {
                Turned::Further
            } else {
                Turned::Waiting
            }
        }
        Turn::Memory => Turned::NoMemory,
    }
}

impl<'t, 'g, J: OfTable, G: Gate> Turns<StreamJob<'t, J>> for Making<'t, 'g, G> {
    ghost use Rattle.dky_search.specs.SeatScopes.{state_of};
    ghost use Rattle.unit_workers.specs.Jobs.{Fits, SeesAll, fits_on, sees_on, first_sees};

    ghost fits = { λ making job. Fits making.texts.now (state_of job.parts.value.scopes.scopes) job.parts.value.task };

    ghost ready = { λ making job. SeesAll (state_of job.parts.value.scopes.scopes) };

    fn turn(&self, worker: u32, job: &mut StreamJob<'t, J>) -> Turned {
        let parts = &mut *job.parts;
        let stream = parts.scopes.filled();
        let before = parts.task.steps();
        self.gate.pass(worker, stream, before);
        let turn = parts.task.turn(self.alloc, self.texts, &mut parts.scopes);
        let after = parts.task.steps();
        self.gate.pass(worker, stream, after);
        turned(&turn, before < after)
    }

    fn tell(&self, before: &mut StreamJob<'t, J>, job: &mut StreamJob<'t, J>) {
        let from = &mut *before.parts;
        let to = &mut *job.parts;
        let _filled = from.scopes.filled();
        from.scopes.tell(&mut to.scopes);
    }

    ghost fits_on = { λ making job later. fits_on };

    ghost ready_on = { λ making job later. sees_on };

    ghost first_ready = { λ making job. first_sees };
}
