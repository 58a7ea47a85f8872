//! The blocks of a unit's streams.
ghost use Rattle.std.specs.Prelude.{◌≡◌, IfOk, map};
ghost use Rattle.stream_split.specs.Chains.{around_view};
ghost use Rattle.stream_split.specs.Streams.{streams_of};
ghost use Rattle.stream_split.specs.Surroundings.{surroundings_of};
ghost use Rattle.stream_split.specs.Views.{stream_view};

use m2_base::{Around, Memory, Texts};
use std::alloc::Global;
use stream_split::{StreamTokens, around};

/// What surrounds the block of each stream.
pub fn surroundings(
    alloc: Global,
    texts: &Texts,
    streams: &[StreamTokens],
) -> Result<Vec<Around>, Memory>
    requires { map stream_view streams.now ≡ streams_of texts.now }
    ensures { IfOk result (λ arounds. map around_view arounds.items ≡ surroundings_of texts.now) }
{
    let mut arounds = Vec::with_capacity(alloc, streams.len())?;
    for stream in streams {
        arounds.push(around(alloc, texts, streams, stream.stream)?)?;
    }
    Ok(arounds)
}
