//! Cutting a unit.
ghost use Rattle.std.specs.Prelude.{◌≡◌, ◌<◌, ◌^◌, IfOk, length, map, slice_get};
ghost use Rattle.std.specs.List.{All};
ghost use Rattle.m2_base.specs.Statics.BlockLimits.{limit_of};
ghost use Rattle.stream_split.specs.Limits.{Within};
ghost use Rattle.stream_split.specs.Streams.{streams_of, main_tokens, definition_streams, tokens_in};
ghost use Rattle.stream_split.specs.Views.{stream_view};

use crate::cutter::{main_streams, number_of};
use crate::streams::{SplitFault, StreamTokens};
use m2_base::{StreamKind, Texts, Token};
use std::alloc::{AllocError, Global};

/// The tokens of the text with this number; none where there is none.
fn tokens_of(alloc: Global, texts: &Texts, text: u32) -> Result<Vec<Token>, AllocError>
    ensures tokens { IfOk result (λ tokens. tokens.items ≡ tokens_in (slice_get texts.now.list text)) }
{
    let mut tokens = Vec::new(alloc);
    let Some(found) = texts.list.get(text as usize) else {
        return Ok(tokens);
    };
    tokens.extend_from_slice(found.tokens.as_slice())?;
    Ok(tokens)
}

/// The streams of the definition modules, in dependency order.
fn definition_texts(alloc: Global, texts: &Texts) -> Result<Vec<StreamTokens>, AllocError>
    ensures streams { IfOk result
        (λ out. map stream_view out.items ≡ definition_streams 1 texts.now.list texts.now.order) }
{
    let mut streams = Vec::new(alloc);
    for k in &texts.order {
        let Some(stream) = number_of(1, streams.len()) else {
            return Err(AllocError);
        };
        let tokens = tokens_of(alloc, texts, *k)?;
        streams.push(StreamTokens {
            stream,
            text: *k,
            outer: 0,
            level: 0,
            kind: StreamKind::Definition,
            tokens,
        })?;
    }
    Ok(streams)
}

/// The streams of the definition modules, and behind them those of the main text.
fn with_main(
    alloc: Global,
    texts: &Texts,
    streams: Vec<StreamTokens>,
) -> Result<Vec<StreamTokens>, SplitFault>
    requires { map stream_view streams.items ≡ definition_streams 1 texts.now.list texts.now.order }
    ensures streams { IfOk result (λ out. map stream_view out.items ≡ streams_of texts.now) }
    ensures short { IfOk result (λ out. All (λ s. length s.tokens.items < 2 ^ 30) out.items) }
    ensures few { IfOk result (λ out. length out.items < 2 ^ 31) }
    ensures limits { Within (limit_of (main_tokens texts.now)) result }
{
    let mut all = streams;
    let Some(first) = number_of(1, all.len()) else {
        return Err(SplitFault::Memory);
    };
    match main_streams(alloc, first, texts.main().tokens.as_slice()) {
        Ok(mut more) => match all.append(&mut more) {
            Ok(()) => Ok(all),
            Err(_) => Err(SplitFault::Memory),
        },
        Err(fault) => Err(fault),
    }
}

/// The streams of a unit: those of the definition modules in dependency order, of the main module, and of its
/// procedures in the order of their PROCEDURE tokens. The first has the number 1. There are none where the main text
/// has too many procedures, or one that is nested too deep. Each stream is short enough for `sizes`, and there are
/// fewer than numbers of 31 bits.
pub fn cut(alloc: Global, texts: &Texts) -> Result<Vec<StreamTokens>, SplitFault>
    ensures streams { IfOk result (λ out. map stream_view out.items ≡ streams_of texts.now) }
    ensures short { IfOk result (λ out. All (λ s. length s.tokens.items < 2 ^ 30) out.items) }
    ensures few { IfOk result (λ out. length out.items < 2 ^ 31) }
    ensures limits { Within (limit_of (main_tokens texts.now)) result }
{
    match definition_texts(alloc, texts) {
        Ok(streams) => with_main(alloc, texts, streams),
        Err(_) => Err(SplitFault::Memory),
    }
}
