//! Single fields.
ghost use Rattle.std.specs.Prelude.{◌≡◌};
ghost use Rattle.object_file.specs.Fields.{Gives, number_at, text_at, raw_at, exact_at, match_at, valid_at, ends_at};

use crate::fault::Stop;
use std::alloc::Global;

/// A number of four bytes, the lowest byte first.
pub(crate) fn number(bytes: &mut &[u8]) -> Result<u32, Stop>
    ensures { Gives (λ x. (x, bytes.new.now)) result (number_at bytes.old.now) }
{
    if bytes.len() < 4 {
        return Err(Stop::Bad(0, 1));
    }
    let (front, rest) = bytes.split_at(4);
    *bytes = rest;
    Ok(u32::from_le_bytes([front[0], front[1], front[2], front[3]]))
}

/// So many bytes, whichever they are.
pub(crate) fn raw(alloc: Global, len: usize, bytes: &mut &[u8]) -> Result<Vec<u8>, Stop>
    ensures { Gives (λ x. (x.items, bytes.new.now)) result (raw_at len bytes.old.now) }
{
    if bytes.len() < len {
        return Err(Stop::Bad(0, 1));
    }
    let (front, rest) = bytes.split_at(len);
    *bytes = rest;
    Ok(Vec::from_slice(alloc, front)?)
}

/// A length and so many bytes.
#[tactic(auto, unfolding(crate::specs::Fields::text_at))]
pub(crate) fn text(alloc: Global, bytes: &mut &[u8]) -> Result<Vec<u8>, Stop>
    ensures { Gives (λ x. (x.items, bytes.new.now)) result (text_at bytes.old.now) }
{
    let len = number(bytes)? as usize;
    raw(alloc, len, bytes)
}

/// The expected bytes.
#[tactic(auto, unfolding(crate::specs::Fields::exact_at))]
pub(crate) fn exact(expected: &[u8], bytes: &mut &[u8]) -> Result<(), Stop>
    ensures { Gives (λ x. bytes.new.now) result (exact_at expected.now bytes.old.now) }
{
    if bytes.len() < expected.len() {
        return Err(Stop::Bad(0, 1));
    }
    for i in 0..expected.len() {
        if bytes[i] != expected[i] {
            return Err(Stop::Bad(bytes.len() - i, 3));
        }
    }
    let (_, rest) = bytes.split_at(expected.len());
    *bytes = rest;
    Ok(())
}

/// The field that begins these bytes is valid.
pub(crate) fn valid(ok: bool, bytes: &[u8]) -> Result<bool, Stop>
    ensures { Gives (λ x. x) result (valid_at ok bytes.now) }
{
    if ok {
        Ok(true)
    } else {
        Err(Stop::Bad(bytes.len(), 4))
    }
}

/// Nothing follows.
pub(crate) fn ends(bytes: &[u8]) -> Result<bool, Stop>
    ensures { Gives (λ x. x) result (ends_at bytes.now) }
{
    match bytes {
        [] => Ok(true),
        [_, ..] => Err(Stop::Bad(bytes.len(), 2)),
    }
}
