//! Places in a code, and instructions at them.
ghost use Rattle.std.specs.Prelude.{◌≡◌, ◌+◌, ◌*◌, ◌<◌, ◌^◌, pos, ◌-ℤ◌, ◌≤ℤ◌};
ghost use Rattle.code_form.specs.Bytes.{size};

use code_form::Instr;

/// A place between instructions.
#[derive(Clone, Copy, Debug)]
pub(crate) struct Place {
    pub(crate) at: usize,
    /// The stack's height there.
    pub(crate) height: i128,
    ghost short: { at < 2 ^ 63 },
    ghost low: { (pos 0 -ℤ pos (2 ^ 64 * at)) ≤ℤ height },
    ghost high: { height ≤ℤ pos (2 ^ 64 * at) },
}

/// An instruction at its place.
#[derive(Drop)]
pub(crate) struct Point {
    pub(crate) at: usize,
    /// The place behind it.
    pub(crate) end: usize,
    /// The stack's height before it.
    pub(crate) height: i128,
    pub(crate) takes: u64,
    pub(crate) leaves: u64,
    pub(crate) instr: Instr,
    ghost ends: { end ≡ at + size instr },
    ghost forward: { at < end },
    ghost short: { end < 2 ^ 63 },
    ghost low: { (pos 0 -ℤ pos (2 ^ 64 * at)) ≤ℤ height },
    ghost high: { height ≤ℤ pos (2 ^ 64 * at) },
}
