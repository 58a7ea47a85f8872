//! The instructions of a procedure.
ghost use Rattle.std.specs.Prelude.{◌≡◌, ◌≢◌, ◌+◌, ◌<◌, ◌≤◌, ◌^◌, ◌+ℤ◌, ℕ, List, pos, length, map, slice_get, IfOk};
ghost use Rattle.std.specs.Prelude.{IfSome, IfNone, Some};
ghost use Rattle.code_form.specs.declared.instr.Instr.{Instr as InstrData};
ghost use Rattle.code_form.specs.Valid.{AreInstrs};
ghost use Rattle.stack_machine.specs.Loading.{instr_at, spots};
ghost use Rattle.stack_machine.specs.Sites.{spot_of, Ascend};

use crate::placed::Placed;
use code_form::decode;
use std::alloc::{AllocError, Global};

/// The instructions of a code.
pub(crate) fn instrs(alloc: Global, code: &[u8]) -> Result<Vec<Placed>, AllocError>
    requires instrs { (is : List InstrData) × AreInstrs code.now is }
    requires short { length code.now < 2 ^ 32 }
    ensures are { IfOk result
        (λ v. (is : List InstrData) × AreInstrs code.now is × (map spot_of v.items ≡ spots 0 is)) }
    ensures ascend { IfOk result (λ v. Ascend (map spot_of v.items)) }
{
    let mut all = Vec::new(alloc);
    let mut at = 0;
    while at < code.len() {
        let Some((instr, end)) = decode(code, at) else {
            unreachable!()
        };
        all.push(Placed { at, end, instr })?;
        at = end;
    }
    Ok(all)
}

/// The number of the instruction at a place.
fn find(all: &[Placed], to: usize) -> usize
    requires { Ascend (map spot_of all.now) }
    ensures is { result ≡ instr_at (map spot_of all.now) (pos to) }
    ensures within { result ≤ length all.now }
{
    let mut low = 0;
    let mut high = all.len();
    while low < high {
        let middle = low + (high - low) / 2;
        if all[middle].at < to {
            low = middle + 1;
        } else {
            high = middle;
        }
    }
    if low < all.len() && all[low].at == to {
        low
    } else {
        all.len()
    }
}

/// The place so many bytes behind another, or before it.
fn place_of(end: usize, distance: i32) -> Option<usize>
    ensures some { IfSome result (λ to. pos end +ℤ distance ≡ pos to) }
    ensures none { IfNone result ((n : ℕ) → n < 2 ^ 64 → pos end +ℤ distance ≢ pos n) }
{
    end.checked_add_signed(distance as isize)
}

/// The number of the instruction so many bytes behind a place, or before it.
pub(crate) fn landing(all: &[Placed], end: usize, distance: i32) -> usize
    requires { Ascend (map spot_of all.now) }
    ensures is { result ≡ instr_at (map spot_of all.now) (pos end +ℤ distance) }
    ensures within { result ≤ length all.now }
{
    match place_of(end, distance) {
        Some(to) => find(all, to),
        None => all.len(),
    }
}
