//! A unit, over a table that is opened for it.
ghost use Rattle.std.specs.Prelude.{◌≡◌, ◌<◌, ◌≤◌, ◌^◌, All, IfOk, length, map};
ghost use Rattle.unit_tasks.specs.Outputs.{AreOutputs};
ghost use Rattle.scope_table.specs.Seats.{IsOpened};
ghost use Rattle.stream_split.specs.Sizes.{sizes_of};
ghost use Rattle.stream_split.specs.Streams.{streams_of};
ghost use Rattle.stream_split.specs.Views.{stream_view};
ghost use Rattle.unit_tasks.specs.Units.{CanBeRun};
ghost use Rattle.unit_workers.specs.Ends.{outputs_in};
ghost use Rattle.unit_workers.specs.Starts.{AreOthers};

use crate::finishing::Finished;
use crate::running::run_unit;
use dky_search::SeatScopes;
use m2_base::{Memory, Output, Texts};
use m2_io::Gate;
use scope_table::{ScopeTable, TableSeat};
use std::alloc::Global;
use std::sync::Wait;
use std::thread::Threads;
use stream_split::{StreamTokens, sizes};

/// Who works on a unit: so many workers, the runtime that starts them, and the gate that each of their turns passes.
#[derive(Drop)]
pub struct Crew<'a, R, G> {
    pub rt: &'a R,
    pub workers: u32,
    pub gate: &'a G,
}

/// All seats of the table but that of scope 0.
fn others(_table: &ScopeTable, _texts: &Texts, mut seats: Vec<TableSeat>) -> Vec<TableSeat>
    requires { IsOpened _table.now seats.items _texts.now (sizes_of (streams_of _texts.now)) }
    ensures { AreOthers _table.now _texts.now result.items }
{
    let _zero = seats.remove(0);
    seats
}

/// The outputs alone.
fn outputs_alone(alloc: Global, all: Vec<Finished<SeatScopes>>) -> Result<Vec<Output>, Memory>
    ensures { IfOk result (λ outputs. outputs.items ≡ outputs_in all.entry.items) }
{
    let mut outputs = Vec::with_capacity(alloc, all.len())?;
    for finished in all {
        outputs.push(finished.output)?;
    }
    Ok(outputs)
}

/// What the streams of a unit leave, each its output, in their order, when a crew makes turns of their tasks at once
/// over a table that is opened for them. Each turn passes the gate.
pub fn outputs_by<R: Threads + Wait + Sync, G: Gate>(
    crew: &Crew<R, G>,
    alloc: Global,
    texts: &Texts,
    streams: Vec<StreamTokens>,
) -> Result<Vec<Output>, Memory>
    requires unit { CanBeRun texts.now }
    requires streams { map stream_view streams.items ≡ streams_of texts.now }
    requires short { All (λ s. length s.tokens.items < 2 ^ 30) streams.items }
    requires few { length streams.items < 2 ^ 31 }
    requires workers { (0 < crew.now.workers) × (crew.now.workers ≤ 64) }
    ensures { IfOk result (λ outputs. AreOutputs texts.now outputs.items) }
{
    let sizes = sizes(alloc, &streams)?;
    let (table, seats) = ScopeTable::open(alloc, texts, &sizes)?;
    let seats = others(&table, texts, seats);
    let all = run_unit(
        crew.rt,
        alloc,
        texts,
        streams,
        &table,
        seats,
        crew.workers,
        crew.gate,
    )?;
    outputs_alone(alloc, all)
}
