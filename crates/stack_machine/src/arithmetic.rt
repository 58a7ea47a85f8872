//! Arithmetic and comparisons.
ghost use Rattle.std.specs.Prelude.{◌≡◌, ◌<◌, ◌≤◌, pos, ◌+ℤ◌, ◌-ℤ◌, ◌*ℤ◌, neg_ℤ, int_le};
ghost use Rattle.stack_machine.specs.Able.{HasRoom, CanDo, Comes};
ghost use Rattle.stack_machine.specs.Numbers.{in_kind, truth, is_zero, same, has_more, capital};
ghost use Rattle.stack_machine.specs.State.{state_of};
ghost use Rattle.stack_machine.specs.Step.{checked, does, empty, nothing};
ghost use Rattle.stack_machine.specs.declared.op.Op.TheVariants.{Check, Add, Sub, Mul, Div, Mod, Neg, Abs, Not, Eq};
ghost use Rattle.stack_machine.specs.declared.op.Op.TheVariants.{Ne, Lt, Le, Gt, Ge, More, Cap};

use crate::core_state::Core;
use crate::next::Next;
use crate::op::Kind;
use crate::stack::{give, operand};
use crate::trap::Trap;
use m2_base::{GREATEST_CARDINAL, GREATEST_INTEGER, LEAST_INTEGER};

/// Whether a number is of this type.
#[inline(always)]
pub(crate) fn fits(kind: Kind, v: i64) -> bool
    ensures { result ≡ in_kind kind v }
{
    match kind {
        Kind::Integer => LEAST_INTEGER <= v && v <= GREATEST_INTEGER,
        Kind::Cardinal => 0 <= v && v <= GREATEST_CARDINAL,
    }
}

/// Takes n operands and gives a number, where it is of this type.
#[inline(always)]
fn give_checked(core: &mut Core, kind: Kind, n: usize, v: i64) -> Next
    requires able { CanDo core.old n }
    ensures comes { Comes result (checked kind (state_of core.old) n v) (state_of core.old) (state_of core.new) }
    ensures room { HasRoom core.new }
{
    if fits(kind, v) {
        give(core, n, v)
    } else {
        Next::Traps(Trap::Range)
    }
}

#[inline(always)]
pub(crate) fn as_value(is: bool) -> i64
    ensures { result ≡ truth is }
{
    if is { 1 } else { 0 }
}

#[inline(always)]
fn are_same(x: i64, y: i64) -> bool
    ensures { result ≡ same x y }
{
    x == y
}

#[inline(always)]
pub(crate) fn zero(v: i64) -> bool
    ensures { result ≡ is_zero v }
{
    v == 0
}

/// Whether x + c hasn't passed the last value.
fn more_left(x: i64, c: i64, last: i64) -> bool
    ensures { result ≡ has_more x c last }
{
    match x.checked_add(c) {
        Some(next) if c < 0 => last <= next,
        Some(next) => next <= last,
        None => false,
    }
}

fn capital_of(v: i64) -> i64
    ensures { result ≡ capital v }
{
    if 97 <= v && v <= 122 { v - 32 } else { v }
}

#[inline(always)]
#[tactic(auto, unfolding(crate::specs::Step::does))]
pub(crate) fn check(core: &mut Core, low: i64, high: i64) -> Next
    requires able { CanDo core.old 1 }
    ensures comes { Comes result (does empty nothing (Check low high) (state_of core.old)) (state_of core.old)
        (state_of core.new) }
    ensures room { HasRoom core.new }
{
    let v = operand(core, 0);
    if low <= v && v <= high {
        core.at += 1;
        Next::Goes
    } else {
        Next::Traps(Trap::Range)
    }
}

#[inline(always)]
#[tactic(auto, unfolding(crate::specs::Step::does))]
pub(crate) fn add(core: &mut Core, kind: Kind) -> Next
    requires able { CanDo core.old 2 }
    ensures comes { Comes result (does empty nothing (Add kind) (state_of core.old)) (state_of core.old)
        (state_of core.new) }
    ensures room { HasRoom core.new }
{
    match operand(core, 1).checked_add(operand(core, 0)) {
        Some(v) => give_checked(core, kind, 2, v),
        None => Next::Traps(Trap::Range),
    }
}

#[inline(always)]
#[tactic(auto, unfolding(crate::specs::Step::does))]
pub(crate) fn subtract(core: &mut Core, kind: Kind) -> Next
    requires able { CanDo core.old 2 }
    ensures comes { Comes result (does empty nothing (Sub kind) (state_of core.old)) (state_of core.old)
        (state_of core.new) }
    ensures room { HasRoom core.new }
{
    match operand(core, 1).checked_sub(operand(core, 0)) {
        Some(v) => give_checked(core, kind, 2, v),
        None => Next::Traps(Trap::Range),
    }
}

#[inline(always)]
#[tactic(auto, unfolding(crate::specs::Step::does))]
pub(crate) fn multiply(core: &mut Core, kind: Kind) -> Next
    requires able { CanDo core.old 2 }
    ensures comes { Comes result (does empty nothing (Mul kind) (state_of core.old)) (state_of core.old)
        (state_of core.new) }
    ensures room { HasRoom core.new }
{
    match operand(core, 1).checked_mul(operand(core, 0)) {
        Some(v) => give_checked(core, kind, 2, v),
        None => Next::Traps(Trap::Range),
    }
}

#[inline(always)]
#[tactic(auto, unfolding(crate::specs::Step::does))]
pub(crate) fn divide(core: &mut Core, kind: Kind) -> Next
    requires able { CanDo core.old 2 }
    ensures comes { Comes result (does empty nothing (Div kind) (state_of core.old)) (state_of core.old)
        (state_of core.new) }
    ensures room { HasRoom core.new }
{
    let divisor = operand(core, 0);
    if divisor <= 0 {
        return Next::Traps(Trap::Divisor);
    }
    let v = operand(core, 1).div_euclid(divisor);
    give_checked(core, kind, 2, v)
}

#[inline(always)]
#[tactic(auto, unfolding(crate::specs::Step::does))]
pub(crate) fn remainder(core: &mut Core, kind: Kind) -> Next
    requires able { CanDo core.old 2 }
    ensures comes { Comes result (does empty nothing (Mod kind) (state_of core.old)) (state_of core.old)
        (state_of core.new) }
    ensures room { HasRoom core.new }
{
    let divisor = operand(core, 0);
    if divisor <= 0 {
        return Next::Traps(Trap::Divisor);
    }
    let v = operand(core, 1).rem_euclid(divisor);
    give_checked(core, kind, 2, v)
}

#[inline(always)]
#[tactic(auto, unfolding(crate::specs::Step::does))]
pub(crate) fn negate(core: &mut Core) -> Next
    requires able { CanDo core.old 1 }
    ensures comes { Comes result (does empty nothing Neg (state_of core.old)) (state_of core.old) (state_of core.new) }
    ensures room { HasRoom core.new }
{
    match operand(core, 0).checked_neg() {
        Some(v) => give_checked(core, Kind::Integer, 1, v),
        None => Next::Traps(Trap::Range),
    }
}

#[inline(always)]
#[tactic(auto, unfolding(crate::specs::Step::does))]
pub(crate) fn absolute(core: &mut Core) -> Next
    requires able { CanDo core.old 1 }
    ensures comes { Comes result (does empty nothing Abs (state_of core.old)) (state_of core.old) (state_of core.new) }
    ensures room { HasRoom core.new }
{
    match operand(core, 0).checked_abs() {
        Some(v) => give_checked(core, Kind::Integer, 1, v),
        None => Next::Traps(Trap::Range),
    }
}

#[inline(always)]
#[tactic(auto, unfolding(crate::specs::Step::does))]
pub(crate) fn negation(core: &mut Core) -> Next
    requires able { CanDo core.old 1 }
    ensures comes { Comes result (does empty nothing Not (state_of core.old)) (state_of core.old) (state_of core.new) }
    ensures room { HasRoom core.new }
{
    let v = as_value(zero(operand(core, 0)));
    give(core, 1, v)
}

#[inline(always)]
#[tactic(auto, unfolding(crate::specs::Step::does))]
pub(crate) fn equal(core: &mut Core) -> Next
    requires able { CanDo core.old 2 }
    ensures comes { Comes result (does empty nothing Eq (state_of core.old)) (state_of core.old) (state_of core.new) }
    ensures room { HasRoom core.new }
{
    let v = as_value(are_same(operand(core, 1), operand(core, 0)));
    give(core, 2, v)
}

#[inline(always)]
#[tactic(auto, unfolding(crate::specs::Step::does))]
pub(crate) fn differ(core: &mut Core) -> Next
    requires able { CanDo core.old 2 }
    ensures comes { Comes result (does empty nothing Ne (state_of core.old)) (state_of core.old) (state_of core.new) }
    ensures room { HasRoom core.new }
{
    let v = as_value(!are_same(operand(core, 1), operand(core, 0)));
    give(core, 2, v)
}

#[inline(always)]
#[tactic(auto, unfolding(crate::specs::Step::does))]
pub(crate) fn less(core: &mut Core) -> Next
    requires able { CanDo core.old 2 }
    ensures comes { Comes result (does empty nothing Lt (state_of core.old)) (state_of core.old) (state_of core.new) }
    ensures room { HasRoom core.new }
{
    let v = as_value(operand(core, 1) < operand(core, 0));
    give(core, 2, v)
}

#[inline(always)]
#[tactic(auto, unfolding(crate::specs::Step::does))]
pub(crate) fn at_most(core: &mut Core) -> Next
    requires able { CanDo core.old 2 }
    ensures comes { Comes result (does empty nothing Le (state_of core.old)) (state_of core.old) (state_of core.new) }
    ensures room { HasRoom core.new }
{
    let v = as_value(operand(core, 1) <= operand(core, 0));
    give(core, 2, v)
}

#[inline(always)]
#[tactic(auto, unfolding(crate::specs::Step::does))]
pub(crate) fn greater(core: &mut Core) -> Next
    requires able { CanDo core.old 2 }
    ensures comes { Comes result (does empty nothing Gt (state_of core.old)) (state_of core.old) (state_of core.new) }
    ensures room { HasRoom core.new }
{
    let v = as_value(operand(core, 1) > operand(core, 0));
    give(core, 2, v)
}

#[inline(always)]
#[tactic(auto, unfolding(crate::specs::Step::does))]
pub(crate) fn at_least(core: &mut Core) -> Next
    requires able { CanDo core.old 2 }
    ensures comes { Comes result (does empty nothing Ge (state_of core.old)) (state_of core.old) (state_of core.new) }
    ensures room { HasRoom core.new }
{
    let v = as_value(operand(core, 1) >= operand(core, 0));
    give(core, 2, v)
}

#[inline(always)]
#[tactic(auto, unfolding(crate::specs::Step::does))]
pub(crate) fn more(core: &mut Core, c: i64) -> Next
    requires able { CanDo core.old 2 }
    ensures comes { Comes result (does empty nothing (More c) (state_of core.old)) (state_of core.old)
        (state_of core.new) }
    ensures room { HasRoom core.new }
{
    let v = as_value(more_left(operand(core, 1), c, operand(core, 0)));
    give(core, 2, v)
}

#[inline(always)]
#[tactic(auto, unfolding(crate::specs::Step::does))]
pub(crate) fn capitalize(core: &mut Core) -> Next
    requires able { CanDo core.old 1 }
    ensures comes { Comes result (does empty nothing Cap (state_of core.old)) (state_of core.old) (state_of core.new) }
    ensures room { HasRoom core.new }
{
    let v = capital_of(operand(core, 0));
    give(core, 1, v)
}
