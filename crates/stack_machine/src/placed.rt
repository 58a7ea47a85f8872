//! An instruction at its place.
ghost use Rattle.std.specs.Prelude.{◌≡◌, ◌+◌, ◌<◌, ◌^◌};
ghost use Rattle.code_form.specs.Bytes.{size};

use code_form::Instr;

/// An instruction, its place in the code, and the place behind it.
#[derive(Drop)]
pub(crate) struct Placed {
    pub(crate) at: usize,
    pub(crate) end: usize,
    pub(crate) instr: Instr,
    ghost ends: { end ≡ at + size instr },
    ghost short: { end < 2 ^ 32 },
}
