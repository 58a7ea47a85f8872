//! Cells and addresses.
ghost use Rattle.std.specs.Prelude.{◌≡◌, ◌<◌, ◌≤◌, ◌-◌, ◌^◌, ◌+◌, ◌*◌, ◌+ℤ◌, ◌-ℤ◌, pos, length, slice_set, Some};
ghost use Rattle.std.specs.Prelude.{IfSome, IfNone};
ghost use Rattle.std.specs.List.{copy_within};
ghost use Rattle.stack_machine.specs.Able.{HasRoom, CanDo, Comes};
ghost use Rattle.stack_machine.specs.Numbers.{below, count_of};
ghost use Rattle.stack_machine.specs.State.{state_of};
ghost use Rattle.stack_machine.specs.Step.{cell_at, part_at, source_at, cleared, cell_of, made, indexed, allocated};
ghost use Rattle.stack_machine.specs.Step.{copied, open_copied, does, empty, nothing};
ghost use Rattle.stack_machine.specs.declared.op.Op.TheVariants.{Load, Store, Move, Offset, Index, IndexOpen, Nil};
ghost use Rattle.stack_machine.specs.declared.op.Op.TheVariants.{New, OpenCopy};

use crate::arithmetic::zero;
use crate::core_state::Core;
use crate::next::Next;
use crate::stack::{give, operand, take};
use crate::trap::Trap;

/// The cell at an address, which isn't NIL's.
#[inline(always)]
pub(crate) fn cell(cells: &[i64], address: i64) -> Option<usize>
    requires { length cells.now < 2 ^ 32 }
    ensures { result ≡ cell_at cells.now address }
{
    if 1 <= address && address < cells.len() as i64 {
        Some(address as usize)
    } else {
        None
    }
}

#[inline(always)]
#[tactic(auto, unfolding(crate::specs::Step::does))]
pub(crate) fn load(core: &mut Core) -> Next
    requires able { CanDo core.old 1 }
    ensures comes { Comes result (does empty nothing Load (state_of core.old)) (state_of core.old)
        (state_of core.new) }
    ensures room { HasRoom core.new }
{
    match cell(&core.cells, operand(core, 0)) {
        Some(a) => {
            let v = core.cells[a];
            give(core, 1, v)
        }
        None => Next::Traps(Trap::Address),
    }
}

#[inline(always)]
#[tactic(auto, using(crate::proofs::OperandLaws::below_is), unfolding(crate::specs::Step::does))]
pub(crate) fn store(core: &mut Core) -> Next
    requires able { CanDo core.old 2 }
    ensures comes { Comes result (does empty nothing Store (state_of core.old)) (state_of core.old)
        (state_of core.new) }
    ensures room { HasRoom core.new }
{
    match cell(&core.cells, operand(core, 1)) {
        Some(a) => {
            core.cells[a] = operand(core, 0);
            take(core, 2)
        }
        None => Next::Traps(Trap::Address),
    }
}

/// The first of n cells from an address on.
fn part(cells: &[i64], n: usize, address: i64) -> Option<usize>
    requires small { length cells.now < 2 ^ 32 }
    requires n { n < 2 ^ 63 }
    ensures { result ≡ part_at cells.now n address }
{
    if 1 <= address && address < 4294967296 && address as usize + n <= cells.len() {
        Some(address as usize)
    } else {
        None
    }
}

/// Copies n cells as if at once.
fn copy(cells: &mut [i64], from: usize, n: usize, to: usize)
    requires from { from + n ≤ length cells.old }
    requires to { to + n ≤ length cells.old }
    ensures { cells.new ≡ copy_within cells.old from (from + n) to }
{
    cells.copy_within(from..from + n, to);
}

#[tactic(auto, unfolding(crate::specs::Step::does))]
pub(crate) fn copy_cells(core: &mut Core, n: u32) -> Next
    requires able { CanDo core.old 2 }
    ensures comes { Comes result (does empty nothing (Move n) (state_of core.old)) (state_of core.old)
        (state_of core.new) }
    ensures room { HasRoom core.new }
{
    if n == 0 {
        return take(core, 2);
    }
    let n = n as usize;
    let Some(to) = part(&core.cells, n, operand(core, 1)) else {
        return Next::Traps(Trap::Address);
    };
    let Some(from) = part(&core.cells, n, operand(core, 0)) else {
        return Next::Traps(Trap::Address);
    };
    copy(&mut core.cells, from, n, to);
    take(core, 2)
}

/// The address so far behind another.
#[inline(always)]
fn reach(address: i64, far: u64, cells: usize) -> Option<usize>
    ensures { result ≡ below cells (address +ℤ pos far) }
{
    match far.checked_add_signed(address) {
        Some(a) if a < cells as u64 => Some(a as usize),
        _ => None,
    }
}

#[inline(always)]
fn give_address(core: &mut Core, n: usize, a: Option<usize>) -> Next
    requires able { CanDo core.old n }
    requires small { IfSome a (λ k. k < 2 ^ 63) }
    ensures comes { Comes result (made (state_of core.old) n a) (state_of core.old) (state_of core.new) }
    ensures room { HasRoom core.new }
{
    match a {
        Some(a) => give(core, n, a as i64),
        None => Next::Traps(Trap::Address),
    }
}

#[inline(always)]
#[tactic(auto, unfolding(crate::specs::Step::does))]
pub(crate) fn offset(core: &mut Core, n: u32) -> Next
    requires able { CanDo core.old 1 }
    ensures comes { Comes result (does empty nothing (Offset n) (state_of core.old)) (state_of core.old)
        (state_of core.new) }
    ensures room { HasRoom core.new }
{
    let a = reach(operand(core, 0), n as u64, core.cells.len());
    give_address(core, 1, a)
}

/// How far an index is behind the lowest one, where it is below the number of elements.
#[inline(always)]
fn within(i: i64, low: i64, n: u32) -> Option<u32>
    ensures { result ≡ below n (i -ℤ low) }
{
    match i.checked_sub(low) {
        Some(k) if 0 <= k && k < n as i64 => Some(k as u32),
        _ => None,
    }
}

#[inline(always)]
fn product(k: u32, size: u32) -> u64
    ensures { result ≡ k * size }
{
    k as u64 * size as u64
}

/// The address of the element with a number, of n operands.
#[inline(always)]
fn index_at(core: &mut Core, n: usize, address: i64, size: u32, k: Option<u32>) -> Next
    requires able { CanDo core.old n }
    ensures comes { Comes result (indexed (state_of core.old) n address size k) (state_of core.old)
        (state_of core.new) }
    ensures room { HasRoom core.new }
{
    let Some(k) = k else {
        return Next::Traps(Trap::Index);
    };
    let a = reach(address, product(k, size), core.cells.len());
    give_address(core, n, a)
}

#[inline(always)]
#[tactic(auto, unfolding(crate::specs::Step::does))]
pub(crate) fn index(core: &mut Core, low: i64, n: u32, size: u32) -> Next
    requires able { CanDo core.old 2 }
    ensures comes { Comes result (does empty nothing (Index low n size) (state_of core.old)) (state_of core.old)
        (state_of core.new) }
    ensures room { HasRoom core.new }
{
    let k = within(operand(core, 0), low, n);
    let address = operand(core, 1);
    index_at(core, 2, address, size, k)
}

/// The number of an element of an open array, where there is one.
fn element(i: i64, high: i64) -> Option<u64>
    ensures { result ≡ below (count_of high) i }
{
    if 0 <= i && i <= high {
        Some(i as u64)
    } else {
        None
    }
}

/// The address of the element with a number in an open array.
fn open_index_at(core: &mut Core, address: i64, size: u32, k: Option<u64>) -> Next
    requires able { CanDo core.old 3 }
    ensures comes { Comes result (indexed (state_of core.old) 3 address size k) (state_of core.old)
        (state_of core.new) }
    ensures room { HasRoom core.new }
{
    let Some(k) = k else {
        return Next::Traps(Trap::Index);
    };
    // No cell is 2^64 or more behind an address.
    let Some(far) = k.checked_mul(size as u64) else {
        return Next::Traps(Trap::Address);
    };
    let a = reach(address, far, core.cells.len());
    give_address(core, 3, a)
}

#[tactic(auto, unfolding(crate::specs::Step::does))]
pub(crate) fn open_index(core: &mut Core, size: u32) -> Next
    requires able { CanDo core.old 3 }
    ensures comes { Comes result (does empty nothing (IndexOpen size) (state_of core.old)) (state_of core.old)
        (state_of core.new) }
    ensures room { HasRoom core.new }
{
    let k = element(operand(core, 0), operand(core, 1));
    let address = operand(core, 2);
    open_index_at(core, address, size, k)
}

#[inline(always)]
#[tactic(auto, unfolding(crate::specs::Step::does))]
pub(crate) fn not_nil(core: &mut Core) -> Next
    requires able { CanDo core.old 1 }
    ensures comes { Comes result (does empty nothing Nil (state_of core.old)) (state_of core.old) (state_of core.new) }
    ensures room { HasRoom core.new }
{
    if zero(operand(core, 0)) {
        return Next::Traps(Trap::Nil);
    }
    core.at += 1;
    Next::Goes
}

/// Makes n cells 0.
pub(crate) fn clear(cells: &mut [i64], at: usize, n: usize)
    requires { at + n ≤ length cells.old }
    ensures { cells.new ≡ cleared cells.old at n }
{
    cells[at..at + n].fill(0);
}

#[tactic(auto, using(crate::proofs::OperandLaws::below_is), unfolding(crate::specs::Step::allocated))]
pub(crate) fn allocate(core: &mut Core, n: u32) -> Next
    requires able { CanDo core.old 1 }
    ensures comes { Comes result (allocated n (state_of core.old)) (state_of core.old) (state_of core.new) }
    ensures room { HasRoom core.new }
{
    let n = n as usize;
    if core.heap < core.top + n {
        return Next::Traps(Trap::Memory);
    }
    let Some(a) = cell(&core.cells, operand(core, 0)) else {
        return Next::Traps(Trap::Address);
    };
    let heap = core.heap - n;
    clear(&mut core.cells, heap, n);
    core.cells[a] = heap as i64;
    core.heap = heap;
    take(core, 1)
}

/// How many elements an open array with this HIGH has.
pub(crate) fn count(high: i64) -> u64
    ensures { result ≡ count_of high }
{
    if high < 0 { 0 } else { high as u64 + 1 }
}

/// How many cells the elements of an open array are, where that is below a bound.
fn open_size(high: i64, size: u32, bound: usize) -> Option<usize>
    requires { bound < 2 ^ 63 }
    ensures some { IfSome result (λ n. (n ≡ count_of high * size) × (n ≤ bound)) }
    ensures none { IfNone result (bound < count_of high * size) }
{
    let n = count(high) as u128 * size as u128;
    if n <= bound as u128 {
        Some(n as usize)
    } else {
        None
    }
}

/// The first cell of an open array, or any where it has none.
fn source(cells: &[i64], n: usize, address: i64) -> Option<usize>
    requires small { length cells.now < 2 ^ 32 }
    requires n { n < 2 ^ 63 }
    ensures { result ≡ source_at cells.now n address }
{
    if n == 0 {
        Some(0)
    } else {
        part(cells, n, address)
    }
}

/// Copies n cells, and writes into a cell where the copy is.
fn copy_noted(cells: &mut [i64], from: usize, n: usize, to: usize, o: usize)
    requires from { from + n ≤ length cells.old }
    requires to { to + n ≤ length cells.old }
    requires o { o < length cells.old }
    requires small { to < 2 ^ 63 }
    ensures { cells.new ≡ slice_set (copy_within cells.old from (from + n) to) o (pos to) }
{
    copy(cells, from, n, to);
    cells[o] = to as i64;
}

/// The copy of an open array's n cells, behind the frame.
fn copy_open(core: &mut Core, n: usize, o: u32, from: usize) -> Next
    requires able { CanDo core.old 0 }
    requires local { core.old.base + o < length core.old.cells.items }
    requires from { from + n ≤ length core.old.cells.items }
    requires free { core.old.top + n ≤ core.old.heap }
    ensures comes { Comes result (copied n o (Some from) (state_of core.old)) (state_of core.old) (state_of core.new) }
    ensures room { HasRoom core.new }
{
    if core.top >= core.cells.len() {
        return Next::Traps(Trap::Address);
    }
    let note = core.base + o as usize;
    copy_noted(&mut core.cells, from, n, core.top, note);
    core.top += n;
    core.at += 1;
    Next::Goes
}

#[tactic(auto, unfolding(crate::specs::Step::does, crate::specs::Step::open_copied))]
pub(crate) fn open_copy(core: &mut Core, o: u32, size: u32) -> Next
    requires able { CanDo core.old 0 }
    requires local { core.old.base + o + 1 < core.old.top }
    ensures comes { Comes result (does empty nothing (OpenCopy o size) (state_of core.old)) (state_of core.old)
        (state_of core.new) }
    ensures room { HasRoom core.new }
{
    let cell = core.base + o as usize;
    let free = core.heap - core.top;
    let Some(n) = open_size(core.cells[cell + 1], size, free) else {
        return Next::Traps(Trap::Memory);
    };
    let Some(from) = source(&core.cells, n, core.cells[cell]) else {
        return Next::Traps(Trap::Address);
    };
    copy_open(core, n, o, from)
}
