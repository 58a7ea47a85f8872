//! Sets: the low 32 bits of a value.
ghost use Rattle.std.specs.Prelude.{◌≡◌, ◌<◌, ◌≤◌, ◌-◌, ◌^◌, ◌+◌, pos, IfSome};
ghost use Rattle.stack_machine.specs.Able.{HasRoom, CanDo, Comes};
ghost use Rattle.stack_machine.specs.Numbers.{truth, below, set_of, union, difference, intersection};
ghost use Rattle.stack_machine.specs.Numbers.{symmetric_difference, is_subset, is_in, span as set_span};
ghost use Rattle.stack_machine.specs.State.{state_of};
ghost use Rattle.stack_machine.specs.Step.{does, empty, nothing};
ghost use Rattle.stack_machine.specs.declared.op.Op.TheVariants.{Union, Diff, Inter, SymDiff, Subset, Superset, In};
ghost use Rattle.stack_machine.specs.declared.op.Op.TheVariants.{Bit, Span};

use crate::arithmetic::as_value;
use crate::core_state::Core;
use crate::next::Next;
use crate::stack::{give, operand};
use crate::trap::Trap;

/// The set that a value is.
#[inline(always)]
fn set(v: i64) -> u32
    ensures { result ≡ set_of v }
{
    v.rem_euclid(4294967296) as u32
}

/// An element from 0 to 31.
#[inline(always)]
fn element(v: i64) -> Option<u32>
    ensures { result ≡ below 32 v }
{
    if 0 <= v && v < 32 {
        Some(v as u32)
    } else {
        None
    }
}

fn union(x: i64, y: i64) -> u32
    ensures { result ≡ union x y }
{
    set(x) | set(y)
}

fn difference(x: i64, y: i64) -> u32
    ensures { result ≡ difference x y }
{
    set(x) & !set(y)
}

fn intersection(x: i64, y: i64) -> u32
    ensures { result ≡ intersection x y }
{
    set(x) & set(y)
}

fn symmetric_difference(x: i64, y: i64) -> u32
    ensures { result ≡ symmetric_difference x y }
{
    set(x) ^ set(y)
}

fn is_subset(x: i64, y: i64) -> bool
    ensures { result ≡ is_subset x y }
{
    intersection(x, y) == set(x)
}

fn is_in(element: Option<u32>, set: u32) -> bool
    requires { IfSome element (λ k. k < 32) }
    ensures { result ≡ is_in element set }
{
    match element {
        None => false,
        Some(k) => (set >> k) & 1 == 1,
    }
}

/// A power of 2.
fn power(k: u32) -> u64
    requires { k ≤ 32 }
    ensures value { result ≡ 2 ^ k }
    ensures small { result ≤ 2 ^ 32 }
{
    1u64 << k
}

/// All elements from the one to the other.
fn span(low: u32, high: u32) -> i64
    requires low { low < 32 }
    requires high { high < 32 }
    ensures { result ≡ pos (set_span low high) }
{
    power(high + 1).saturating_sub(power(low)) as i64
}

fn bit(k: u32) -> i64
    requires { k < 32 }
    ensures { result ≡ pos (2 ^ k) }
{
    power(k) as i64
}

#[inline(always)]
#[tactic(auto, unfolding(crate::specs::Step::does))]
pub(crate) fn unite(core: &mut Core) -> Next
    requires able { CanDo core.old 2 }
    ensures comes { Comes result (does empty nothing Union (state_of core.old)) (state_of core.old)
        (state_of core.new) }
    ensures room { HasRoom core.new }
{
    let v = union(operand(core, 1), operand(core, 0));
    give(core, 2, v as i64)
}

#[inline(always)]
#[tactic(auto, unfolding(crate::specs::Step::does))]
pub(crate) fn subtract_set(core: &mut Core) -> Next
    requires able { CanDo core.old 2 }
    ensures comes { Comes result (does empty nothing Diff (state_of core.old)) (state_of core.old)
        (state_of core.new) }
    ensures room { HasRoom core.new }
{
    let v = difference(operand(core, 1), operand(core, 0));
    give(core, 2, v as i64)
}

#[inline(always)]
#[tactic(auto, unfolding(crate::specs::Step::does))]
pub(crate) fn intersect(core: &mut Core) -> Next
    requires able { CanDo core.old 2 }
    ensures comes { Comes result (does empty nothing Inter (state_of core.old)) (state_of core.old)
        (state_of core.new) }
    ensures room { HasRoom core.new }
{
    let v = intersection(operand(core, 1), operand(core, 0));
    give(core, 2, v as i64)
}

#[inline(always)]
#[tactic(auto, unfolding(crate::specs::Step::does))]
pub(crate) fn exclusive(core: &mut Core) -> Next
    requires able { CanDo core.old 2 }
    ensures comes { Comes result (does empty nothing SymDiff (state_of core.old)) (state_of core.old)
        (state_of core.new) }
    ensures room { HasRoom core.new }
{
    let v = symmetric_difference(operand(core, 1), operand(core, 0));
    give(core, 2, v as i64)
}

#[inline(always)]
#[tactic(auto, unfolding(crate::specs::Step::does))]
pub(crate) fn subset(core: &mut Core) -> Next
    requires able { CanDo core.old 2 }
    ensures comes { Comes result (does empty nothing Subset (state_of core.old)) (state_of core.old)
        (state_of core.new) }
    ensures room { HasRoom core.new }
{
    let v = as_value(is_subset(operand(core, 1), operand(core, 0)));
    give(core, 2, v)
}

#[inline(always)]
#[tactic(auto, unfolding(crate::specs::Step::does))]
pub(crate) fn superset(core: &mut Core) -> Next
    requires able { CanDo core.old 2 }
    ensures comes { Comes result (does empty nothing Superset (state_of core.old)) (state_of core.old)
        (state_of core.new) }
    ensures room { HasRoom core.new }
{
    let v = as_value(is_subset(operand(core, 0), operand(core, 1)));
    give(core, 2, v)
}

#[inline(always)]
#[tactic(auto, unfolding(crate::specs::Step::does))]
pub(crate) fn contains(core: &mut Core) -> Next
    requires able { CanDo core.old 2 }
    ensures comes { Comes result (does empty nothing In (state_of core.old)) (state_of core.old) (state_of core.new) }
    ensures room { HasRoom core.new }
{
    let v = as_value(is_in(element(operand(core, 1)), set(operand(core, 0))));
    give(core, 2, v)
}

#[inline(always)]
#[tactic(auto, unfolding(crate::specs::Step::does))]
pub(crate) fn single(core: &mut Core) -> Next
    requires able { CanDo core.old 1 }
    ensures comes { Comes result (does empty nothing Bit (state_of core.old)) (state_of core.old) (state_of core.new) }
    ensures room { HasRoom core.new }
{
    match element(operand(core, 0)) {
        Some(k) => give(core, 1, bit(k)),
        None => Next::Traps(Trap::Range),
    }
}

#[inline(always)]
#[tactic(auto, unfolding(crate::specs::Step::does))]
pub(crate) fn range(core: &mut Core) -> Next
    requires able { CanDo core.old 2 }
    ensures comes { Comes result (does empty nothing Span (state_of core.old)) (state_of core.old)
        (state_of core.new) }
    ensures room { HasRoom core.new }
{
    match (element(operand(core, 1)), element(operand(core, 0))) {
        (Some(low), Some(high)) => give(core, 2, span(low, high)),
        _ => Next::Traps(Trap::Range),
    }
}
