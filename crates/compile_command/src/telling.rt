//! What is told of the module Big: each step tells only where none before it does.
ghost use Rattle.std.specs.Prelude.{◌≡◌, ◌≤◌, ◌<◌, ◌^◌, None, IfOk, IsErrOf, length, map};
ghost use Rattle.std.specs.List.{All};
ghost use Rattle.m2_base.specs.Statics.BlockLimits.{limit_of};
ghost use Rattle.m2_base.specs.Units.{IsUnit};
ghost use Rattle.m2_io.specs.Causes.{Rose};
ghost use Rattle.def_import.specs.Answers.{IsWhole};
ghost use Rattle.def_import.specs.Outcomes.{Limit as TextLimit};
ghost use Rattle.def_import.specs.Views.{fault_of};
ghost use Rattle.stream_split.specs.Streams.{main_tokens, streams_of};
ghost use Rattle.stream_split.specs.Views.{stream_view};
ghost use Rattle.unit_merge.specs.Outcome.{outcome_view};
ghost use Rattle.module_outcome.specs.Big.{TellsBig, TellsUnit};
ghost use Rattle.module_outcome.specs.Counts.{import_counts};
ghost use Rattle.module_outcome.specs.Decisions.{IsCutAnd};
ghost use Rattle.module_outcome.specs.Limits.{of_texts};

use crate::work::work;
use def_import::{GatherFault, Gathered, gather_text};
use m2_base::{Diag, Memory, Texts};
use m2_io::{Gate, Shelf};
use module_gen::big;
use module_outcome::{Counts, Limit, Stop, Summary, sizes_of, tokens_of};
use std::alloc::Global;
use std::sync::Wait;
use std::thread::Threads;
use stream_split::{SplitFault, StreamTokens, cut};
use unit_merge::Merged;
use unit_outcome::{gathered_units_are_whole, outcome};
use unit_workers::Crew;

/// What is told of a unit that is cut into so many streams, and comes to this.
fn tell_merged(
    alloc: Global,
    texts: &Texts,
    streams: usize,
    merged: &Merged,
) -> Result<Summary, Memory>
    requires comes { IsCutAnd texts.now (outcome_view merged.now) }
    requires streams { streams ≡ length (streams_of texts.now) }
    ensures { IfOk result (TellsUnit texts.now) }
{
    let tokens = tokens_of(texts);
    match merged {
        Merged::Code(contents) => {
            let (code, object) = sizes_of(alloc, contents)?;
            let diags = 0;
            Ok(Summary::Counted(Counts {
                tokens,
                streams,
                code,
                object,
                diags,
            }))
        }
        Merged::Diags(diags) => {
            let diags = diags.len();
            Ok(Summary::Counted(Counts {
                tokens,
                streams,
                code: 0,
                object: 0,
                diags,
            }))
        }
        Merged::TooDeep { .. } => Ok(Summary::Limited(Limit::Nesting)),
    }
}

/// What is told of a whole unit that is cut into these streams.
fn tell_streams<R: Threads + Wait + Sync, G: Gate>(
    crew: &Crew<R, G>,
    alloc: Global,
    texts: &Texts,
    streams: Vec<StreamTokens>,
) -> Result<Summary, Memory>
    requires whole { IsWhole texts.now }
    requires limits { limit_of (main_tokens texts.now) ≡ None }
    requires streams { map stream_view streams.items ≡ streams_of texts.now }
    requires short { All (λ s. length s.tokens.items < 2 ^ 30) streams.items }
    requires few { length streams.items < 2 ^ 31 }
    requires workers { (0 < crew.now.workers) × (crew.now.workers ≤ 64) }
    ensures { IfOk result (TellsUnit texts.now) }
{
    gathered_units_are_whole();
    let count = streams.len();
    let outputs = work(crew, alloc, texts, streams)?;
    let merged = outcome(alloc, texts, outputs)?;
    tell_merged(alloc, texts, count, &merged)
}

/// What is told of a whole unit.
fn tell_unit<R: Threads + Wait + Sync, G: Gate>(
    crew: &Crew<R, G>,
    alloc: Global,
    texts: &Texts,
) -> Result<Summary, Memory>
    requires whole { IsWhole texts.now }
    requires workers { (0 < crew.now.workers) × (crew.now.workers ≤ 64) }
    ensures unit { IfOk result (λ summary. IsUnit texts.now) }
    ensures tells { IfOk result (TellsUnit texts.now) }
{
    let _main = texts.main();
    match cut(alloc, texts) {
        Ok(streams) => tell_streams(crew, alloc, texts, streams),
        Err(SplitFault::TooManyStreams) => Ok(Summary::Limited(Limit::Procedures)),
        Err(SplitFault::TooNested) => Ok(Summary::Limited(Limit::StaticLevel)),
        Err(SplitFault::Memory) => Err(Memory),
    }
}

/// What is told of a unit with wrong imports.
fn tell_wrongs(texts: &Texts, wrongs: &[Diag]) -> Summary
    ensures unit { IsUnit texts.now }
    ensures wrongs { result ≡ Summary.Counted (import_counts texts.now wrongs.now) }
{
    Summary::Counted(Counts {
        tokens: tokens_of(texts),
        streams: 0,
        code: 0,
        object: 0,
        diags: wrongs.len(),
    })
}

/// What is told of a text that isn't gathered with those that it imports.
fn tell_fault(fault: GatherFault) -> Result<Summary, Stop>
    ensures limit { IfOk result
        (λ summary. (limit : TextLimit) × (fault ≡ fault_of limit) × (summary ≡ Summary.Limited (of_texts limit))) }
    ensures read { IsErrOf result Stop.Read → fault ≡ GatherFault.ReadFault }
    ensures no_write { IsErrOf result Stop.Write → ⊥ }
{
    match fault {
        GatherFault::TooLong => Ok(Summary::Limited(Limit::TextBytes)),
        GatherFault::TooManyTexts => Ok(Summary::Limited(Limit::Texts)),
        GatherFault::TooManyTokens => Ok(Summary::Limited(Limit::Tokens)),
        GatherFault::TooManyUnitTokens => Ok(Summary::Limited(Limit::UnitTokens)),
        GatherFault::ReadFault => Err(Stop::Read),
        // The main text is given.
        GatherFault::NoText | GatherFault::Memory => Err(Stop::Memory),
    }
}

/// What is told of the module of so many procedures.
pub(crate) fn tell<R: Threads + Wait + Sync, G: Gate, H: Shelf>(
    crew: &Crew<R, G>,
    alloc: Global,
    procedures: u32,
    shelf: &mut H,
) -> Result<Summary, Stop>
    requires most { procedures ≤ 16384 }
    requires workers { (0 < crew.now.workers) × (crew.now.workers ≤ 64) }
    ensures tells { IfOk result (TellsBig (H.holds shelf.old) procedures) }
    ensures holds { H.holds shelf.new ≡ H.holds shelf.old }
    ensures put_faults { H.put_faults shelf.new ≡ H.put_faults shelf.old }
    ensures read { IsErrOf result Stop.Read → Rose (H.faults shelf.old) (H.faults shelf.new) }
    ensures no_write { IsErrOf result Stop.Write → ⊥ }
{
    let text = big(alloc, procedures)?;
    match gather_text(alloc, shelf, "Big", text.as_slice()) {
        Ok(Gathered::Whole(texts)) => Ok(tell_unit(crew, alloc, &texts)?),
        Ok(Gathered::Wrong(texts, wrongs)) => Ok(tell_wrongs(&texts, wrongs.as_slice())),
        Err(fault) => tell_fault(fault),
    }
}
