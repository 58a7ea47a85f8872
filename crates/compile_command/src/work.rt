//! The work on a unit's streams.
ghost use Rattle.std.specs.Prelude.{◌≡◌, ◌<◌, ◌≤◌, ◌^◌, None, IfOk, length, map};
ghost use Rattle.std.specs.List.{All};
ghost use Rattle.m2_base.specs.Statics.BlockLimits.{limit_of};
ghost use Rattle.m2_base.specs.Units.{Front, TextOf};
ghost use Rattle.merge_laws.specs.Outputs.{AreOutputs};
ghost use Rattle.merge_laws.specs.Texts.{IsWhole};
ghost use Rattle.stream_split.specs.Streams.{main_tokens, streams_of};
ghost use Rattle.stream_split.specs.Views.{stream_view};

use m2_base::{Memory, Output, Texts};
use m2_io::Gate;
use std::alloc::Global;
use std::sync::Wait;
use std::thread::Threads;
use stream_split::StreamTokens;
use unit_workers::{Crew, outputs_by};

/// What the work of a crew on the streams of a whole unit leaves: the output of each, in their order.
pub(crate) fn work<R: Threads + Wait + Sync, G: Gate>(
    crew: &Crew<R, G>,
    alloc: Global,
    texts: &Texts,
    streams: Vec<StreamTokens>,
) -> Result<Vec<Output>, Memory>
    requires whole { (front : TextOf → Front) × IsWhole front texts.now }
    requires limits { limit_of (main_tokens texts.now) ≡ None }
    requires streams { map stream_view streams.items ≡ streams_of texts.now }
    requires short { All (λ s. length s.tokens.items < 2 ^ 30) streams.items }
    requires few { length streams.items < 2 ^ 31 }
    requires workers { (0 < crew.now.workers) × (crew.now.workers ≤ 64) }
    ensures { IfOk result (λ outputs. AreOutputs texts.now outputs.items) }
{
    outputs_by(crew, alloc, texts, streams)
}
