//! What is decided of a module: each step decides only where none before it does.
ghost use Rattle.std.specs.Prelude.{◌≡◌, ◌≤◌, ◌<◌, ◌^◌, None, Some, IfOk, IsErrOf, length, map, slice_get};
ghost use Rattle.std.specs.List.{All};
ghost use Rattle.m2_base.specs.Statics.BlockLimits.{limit_of};
ghost use Rattle.m2_base.specs.Units.{IsIdentifier, IsUnit};
ghost use Rattle.m2_io.specs.Causes.{Rose};
ghost use Rattle.def_import.specs.Answers.{IsWhole};
ghost use Rattle.stream_split.specs.Streams.{main_tokens, streams_of};
ghost use Rattle.stream_split.specs.Views.{stream_view};
ghost use Rattle.unit_merge.specs.Objects.{name_in, spelled};
ghost use Rattle.module_outcome.specs.Decisions.{Decides, DecidesUnit};
ghost use Rattle.module_outcome.specs.Delivery.{IsNamed};
ghost use Rattle.module_outcome.specs.Faults.{told};
ghost use Rattle.module_outcome.specs.Verdicts.{decision_of};

use crate::work::work;
use def_import::{GatherFault, Gathered, gather};
use m2_base::{Memory, Texts};
use m2_io::{Gate, Shelf};
use merge_laws::{merging_gives_the_outcome, outputs_can_be_merged};
use module_outcome::{Limit, Stop, Verdict};
use std::alloc::Global;
use std::sync::Wait;
use std::thread::Threads;
use stream_split::{SplitFault, StreamTokens, cut};
use unit_merge::{Merged, merge};
use unit_outcome::gathered_units_are_whole;
use unit_workers::Crew;

/// What is decided of a whole unit that is cut into these streams.
fn judge_streams<R: Threads + Wait + Sync, G: Gate>(
    crew: &Crew<R, G>,
    alloc: Global,
    texts: Texts,
    streams: Vec<StreamTokens>,
) -> Result<Verdict, Memory>
    requires whole { IsWhole texts }
    requires limits { limit_of (main_tokens texts) ≡ None }
    requires streams { map stream_view streams.items ≡ streams_of texts }
    requires short { All (λ s. length s.tokens.items < 2 ^ 30) streams.items }
    requires few { length streams.items < 2 ^ 31 }
    requires workers { (0 < crew.now.workers) × (crew.now.workers ≤ 64) }
    ensures decides { IfOk result (λ verdict. DecidesUnit texts (decision_of verdict)) }
    ensures named { IfOk result
        (λ verdict. IsNamed (spelled texts.names (name_in (slice_get texts.list 0))) (decision_of verdict)) }
{
    let _unit = texts.main();
    gathered_units_are_whole();
    let outputs = work(crew, alloc, &texts, streams)?;
    outputs_can_be_merged();
    merging_gives_the_outcome();
    match merge(alloc, &texts, outputs)? {
        Merged::Code(object) => Ok(Verdict::Compiled(object)),
        Merged::Diags(diags) => Ok(Verdict::Listed(texts, diags)),
        Merged::TooDeep { .. } => Ok(Verdict::Limited(Limit::Nesting)),
    }
}

/// What is decided of a whole unit.
fn judge_unit<R: Threads + Wait + Sync, G: Gate>(
    crew: &Crew<R, G>,
    alloc: Global,
    texts: Texts,
) -> Result<Verdict, Memory>
    requires whole { IsWhole texts }
    requires workers { (0 < crew.now.workers) × (crew.now.workers ≤ 64) }
    ensures unit { IfOk result (λ verdict. IsUnit texts) }
    ensures decides { IfOk result (λ verdict. DecidesUnit texts (decision_of verdict)) }
    ensures named { IfOk result
        (λ verdict. IsNamed (spelled texts.names (name_in (slice_get texts.list 0))) (decision_of verdict)) }
{
    let _main = texts.main();
    match cut(alloc, &texts) {
        Ok(streams) => judge_streams(crew, alloc, texts, streams),
        Err(SplitFault::TooManyStreams) => Ok(Verdict::Limited(Limit::Procedures)),
        Err(SplitFault::TooNested) => Ok(Verdict::Limited(Limit::StaticLevel)),
        Err(SplitFault::Memory) => Err(Memory),
    }
}

/// What is decided of a module whose texts aren't gathered.
fn judge_fault(fault: GatherFault) -> Result<Verdict, Stop>
    ensures told { IfOk result (λ verdict. told fault ≡ Some (decision_of verdict)) }
    ensures read { IsErrOf result Stop.Read → fault ≡ GatherFault.ReadFault }
    ensures no_write { IsErrOf result Stop.Write → ⊥ }
{
    match fault {
        GatherFault::NoText => Ok(Verdict::NoText),
        GatherFault::TooLong => Ok(Verdict::Limited(Limit::TextBytes)),
        GatherFault::TooManyTexts => Ok(Verdict::Limited(Limit::Texts)),
        GatherFault::TooManyTokens => Ok(Verdict::Limited(Limit::Tokens)),
        GatherFault::TooManyUnitTokens => Ok(Verdict::Limited(Limit::UnitTokens)),
        GatherFault::ReadFault => Err(Stop::Read),
        GatherFault::Memory => Err(Stop::Memory),
    }
}

/// What is decided of the module of that name.
pub(crate) fn judge<R: Threads + Wait + Sync, G: Gate, H: Shelf>(
    crew: &Crew<R, G>,
    alloc: Global,
    shelf: &mut H,
    name: &str,
) -> Result<Verdict, Stop>
    requires named { IsIdentifier name.now }
    requires short { length name.now ≤ 1048576 }
    requires workers { (0 < crew.now.workers) × (crew.now.workers ≤ 64) }
    ensures decides { IfOk result (λ verdict. Decides (H.holds shelf.old) name.now (decision_of verdict)) }
    ensures named { IfOk result (λ verdict. IsNamed name.now (decision_of verdict)) }
    ensures read { IsErrOf result Stop.Read → Rose (H.faults shelf.old) (H.faults shelf.new) }
    ensures no_write { IsErrOf result Stop.Write → ⊥ }
    ensures holds { H.holds shelf.new ≡ H.holds shelf.old }
    ensures put_faults { H.put_faults shelf.new ≡ H.put_faults shelf.old }
{
    match gather(alloc, shelf, name) {
        Ok(Gathered::Whole(texts)) => Ok(judge_unit(crew, alloc, texts)?),
        Ok(Gathered::Wrong(texts, wrongs)) => Ok(Verdict::Listed(texts, wrongs)),
        Err(fault) => judge_fault(fault),
    }
}
