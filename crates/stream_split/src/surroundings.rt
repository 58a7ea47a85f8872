//! What surrounds a block.
ghost use Rattle.std.specs.Prelude.{◌≡◌, ◌<◌, ◌+◌, ◌-◌, ◌≤◌, IfOk, IfSome, Some, None, length, map, slice_get};
ghost use Rattle.std.specs.Prelude.{option_map, [], ◌==◌, position};
ghost use Rattle.m2_base.specs.Statics.Blocks.{with_own as spec_with_own};
ghost use Rattle.m2_base.specs.declared.trees.declarations.StreamKind.TheVariants.{Main, Definition};
ghost use Rattle.stream_split.specs.Chains.{outer_of as spec_outer_of, chain_from, scope_in};
ghost use Rattle.stream_split.specs.Chains.{own_scope as spec_own_scope, block_by, block_of, around_view};
ghost use Rattle.stream_split.specs.Streams.{main_number};
ghost use Rattle.stream_split.specs.Views.{stream_view};

use crate::cutter::number_of;
use crate::streams::StreamTokens;
use m2_base::{Around, Chain, Memory, StreamKind, Texts};
use std::alloc::Global;

/// The scope right round that of a stream; 0 where there is none.
#[tactic(auto, using(crate::proofs::Climbs::outer_there, crate::proofs::Climbs::outer_zero, crate::proofs::Climbs::outer_past))]
fn outer_of(streams: &[StreamTokens], stream: u32) -> u32
    ensures { result ≡ spec_outer_of (map stream_view streams.now) stream }
{
    if stream == 0 {
        return 0;
    }
    let index = stream as usize - 1;
    if index >= streams.len() {
        return 0;
    }
    streams[index].outer
}

/// The scope of a stream and so many round it, from the inside out.
fn chain_of(
    alloc: Global,
    streams: &[StreamTokens],
    stream: u32,
    level: u32,
) -> Result<Vec<u32>, Memory>
    ensures { IfOk result (λ out. out.items ≡ chain_from level (map stream_view streams.now) stream) }
{
    let mut chain = Vec::new(alloc);
    chain.push(stream)?;
    let mut inner = stream;
    for _ in 0..level {
        inner = outer_of(streams, inner);
        chain.push(inner)?;
    }
    Ok(chain)
}

/// The place of a text in the dependency order.
fn place_of(order: &[u32], text: u32) -> Option<usize>
    ensures { result ≡ position (λ x. x == text) order.now }
{
    order.iter().position(|k| *k == text)
}

/// The scope of the own definition of an implementation module.
fn own_scope(texts: &Texts) -> Result<Option<u32>, Memory>
    ensures { IfOk result (λ own. own ≡ spec_own_scope texts.now) }
{
    match texts.own {
        None => Ok(None),
        Some(own) => match place_of(texts.order.as_slice(), own) {
            None => Ok(None),
            Some(index) => match number_of(1, index) {
                Some(scope) => Ok(Some(scope)),
                None => Err(Memory),
            },
        },
    }
}

/// The chain, and behind it the own definition where there is one.
fn with_own(chain: Vec<u32>, own: Option<u32>) -> Result<Vec<u32>, Memory>
    ensures { IfOk result (λ out. out.items ≡ spec_with_own chain.items own) }
{
    let mut all = chain;
    if let Some(scope) = own {
        all.push(scope)?;
    }
    Ok(all)
}

/// What surrounds a definition module's block.
fn around_definition(alloc: Global, found: &StreamTokens) -> Result<Around, Memory>
    ensures { IfOk result (λ a. around_view a ≡ block_by Definition 0 None [] (stream_view found.now)) }
{
    let mut scopes = Vec::new(alloc);
    scopes.push(found.stream)?;
    Ok(Around {
        scope: found.stream,
        text: found.text,
        level: 0,
        module: found.stream,
        own: None,
        chain: Chain { scopes },
    })
}

/// What surrounds a block of the main text.
fn around_main(
    alloc: Global,
    texts: &Texts,
    streams: &[StreamTokens],
    found: &StreamTokens,
) -> Result<Around, Memory>
    ensures { IfOk result (λ a. around_view a ≡ block_by Main (main_number texts.now) (spec_own_scope texts.now)
        (map stream_view streams.now) (stream_view found.now)) }
{
    let Some(module) = number_of(1, texts.order.len()) else {
        return Err(Memory);
    };
    let own = own_scope(texts)?;
    let chain = chain_of(alloc, streams, found.stream, found.level)?;
    let scopes = with_own(chain, own)?;
    Ok(Around {
        scope: found.stream,
        text: found.text,
        level: found.level,
        module,
        own,
        chain: Chain { scopes },
    })
}

/// What surrounds the block of the stream of this number: its chain is the block's scope, those of the procedures
/// round it, the module's, and the own definition's where there is one.
pub fn around(
    alloc: Global,
    texts: &Texts,
    streams: &[StreamTokens],
    stream: u32,
) -> Result<Around, Memory>
    requires low { 1 ≤ stream }
    requires there { stream ≤ length streams.now }
    ensures block { IfOk result
        (λ a. Some (around_view a) ≡ option_map (block_of (main_number texts.now) (spec_own_scope texts.now)
        (map stream_view streams.now)) (slice_get (map stream_view streams.now) (stream - 1))) }
{
    let found = &streams[stream as usize - 1];
    match found.kind {
        StreamKind::Definition => around_definition(alloc, found),
        StreamKind::Main | StreamKind::Procedure => around_main(alloc, texts, streams, found),
    }
}
