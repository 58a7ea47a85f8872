//! A unit, worked through by workers at once.
ghost use Rattle.std.specs.Prelude.{◌≡◌, ◌<◌, ◌≤◌, IfOk, Some, map};
ghost use Rattle.std.specs.List.{AllZip};
ghost use Rattle.unit_tasks.specs.Outputs.{AreOutputs};
ghost use Rattle.stream_split.specs.Streams.{streams_of};
ghost use Rattle.stream_split.specs.Views.{stream_view};
ghost use Rattle.unit_tasks.specs.Units.{CanBeRun};
ghost use Rattle.unit_workers.specs.Ends.{IsFinished, outputs_in};
ghost use Rattle.unit_workers.specs.Starts.{AreOthers};

use crate::finishing::{Finished, all_finished};
use crate::handles::OfTable;
use crate::jobs::StreamJob;
use crate::making::Making;
use crate::opening::jobs_of;
use dky_search::SeatScopes;
use m2_base::{Memory, Texts};
use m2_io::Gate;
use relay::do_all;
use scope_table::{ScopeTable, TableSeat};
use std::alloc::Global;
use std::marker::Brand;
use std::sync::Wait;
use std::thread::Threads;
use stream_split::StreamTokens;

/// A unit, over the table that `J` names.
fn run_as<'t, 'g, J: OfTable + Send, G: Gate, R: Threads + Wait + Sync>(
    rt: &R,
    making: &Making<'t, 'g, G>,
    table: &'t ScopeTable,
    streams: Vec<StreamTokens>,
    seats: Vec<TableSeat>,
    workers: u32,
) -> Result<Vec<Finished<SeatScopes<'t>>>, Memory>
    requires this { J.table ≡ Some table.now }
    requires unit { CanBeRun making.now.texts.now }
    requires streams { map stream_view streams.items ≡ streams_of making.now.texts.now }
    requires table { AreOthers table.now making.now.texts.now seats.items }
    requires workers { (0 < workers) × (workers ≤ 64) }
    ensures { IfOk result
        (λ all. AllZip (IsFinished table.now making.now.texts.now) (streams_of making.now.texts.now) all.items) }
{
    let _main = making.texts.main();
    let jobs: Vec<StreamJob<'t, J>> = jobs_of(making.alloc, making.texts, table, streams, seats)?;
    let done = do_all(rt, making.alloc, making, jobs, workers)?;
    all_finished(making.alloc, done)
}

/// What the streams of a unit leave, when so many workers make turns of their tasks at once: of each stream its
/// output, and the handle that filled its scope, in the order of the streams. The table was opened for these texts and
/// the sizes of these streams, and the seats are its own without that of scope 0. Workers have the numbers from 0;
/// what they leave is ended by the caller, as the worker with the next number. Each turn passes the gate directly
/// before and directly after, with its worker, its stream, and how many items and statements are finished. A worker
/// that can't be started is no fault: the others do its work.
pub fn run_unit<'t, G: Gate, R: Threads + Wait + Sync>(
    rt: &R,
    alloc: Global,
    texts: &'t Texts,
    streams: Vec<StreamTokens>,
    table: &'t ScopeTable,
    seats: Vec<TableSeat>,
    workers: u32,
    gate: &G,
) -> Result<Vec<Finished<SeatScopes<'t>>>, Memory>
    requires unit { CanBeRun texts.now }
    requires streams { map stream_view streams.items ≡ streams_of texts.now }
    requires table { AreOthers table.now texts.now seats.items }
    requires workers { (0 < workers) × (workers ≤ 64) }
    ensures streams { IfOk result (λ all. AllZip (IsFinished table.now texts.now) (streams_of texts.now) all.items) }
    ensures unit { IfOk result (λ all. AreOutputs texts.now (outputs_in all.items)) }
{
    let making = Making { alloc, texts, gate };
    run_as::<Brand, G, R>(rt, &making, table, streams, seats, workers)
}
