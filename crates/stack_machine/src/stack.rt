//! The operands of a state.
ghost use Rattle.std.specs.Prelude.{◌≡◌, ◌≤◌, ◌<◌, ◌-◌, length};
ghost use Rattle.stack_machine.specs.Able.{HasRoom, CanDo, Comes};
ghost use Rattle.stack_machine.specs.Operands.{top_of};
ghost use Rattle.stack_machine.specs.State.{state_of};
ghost use Rattle.stack_machine.specs.Step.{gives, leaves, does, empty, nothing};
ghost use Rattle.stack_machine.specs.declared.op.Op.TheVariants.{Push, Dup};

use crate::core_state::Core;
use crate::next::Next;

/// The operand with n others above it.
#[inline(always)]
#[tactic(auto, using(crate::proofs::OperandLaws::top_is))]
pub(crate) fn operand(core: &Core, n: usize) -> i64
    requires there { n < core.now.sp }
    requires room { HasRoom core.now }
    ensures { result ≡ top_of n (state_of core.now).operands }
{
    core.stack[core.sp - 1 - n]
}

/// Takes n operands and gives one.
#[inline(always)]
#[tactic(auto, using(crate::proofs::OperandLaws::put_is))]
pub(crate) fn give(core: &mut Core, n: usize, v: i64) -> Next
    requires able { CanDo core.old n }
    ensures comes { Comes result (gives (state_of core.old) n v) (state_of core.old) (state_of core.new) }
    ensures room { HasRoom core.new }
{
    let at = core.sp - n;
    core.stack[at] = v;
    core.sp = at + 1;
    core.at += 1;
    Next::Goes
}

/// Takes n operands.
#[inline(always)]
#[tactic(auto, using(crate::proofs::OperandLaws::below_is))]
pub(crate) fn take(core: &mut Core, n: usize) -> Next
    requires able { CanDo core.old n }
    ensures comes { Comes result (leaves (state_of core.old) n core.old.cells.items) (state_of core.old)
        (state_of core.new) }
    ensures room { HasRoom core.new }
{
    core.sp -= n;
    core.at += 1;
    Next::Goes
}

#[inline(always)]
#[tactic(auto, unfolding(crate::specs::Step::does))]
pub(crate) fn push(core: &mut Core, v: i64) -> Next
    requires able { CanDo core.old 0 }
    ensures comes { Comes result (does empty nothing (Push v) (state_of core.old)) (state_of core.old)
        (state_of core.new) }
    ensures room { HasRoom core.new }
{
    give(core, 0, v)
}

#[inline(always)]
#[tactic(auto, unfolding(crate::specs::Step::does))]
pub(crate) fn duplicate(core: &mut Core) -> Next
    requires able { CanDo core.old 1 }
    ensures comes { Comes result (does empty nothing Dup (state_of core.old)) (state_of core.old) (state_of core.new) }
    ensures room { HasRoom core.new }
{
    let v = operand(core, 0);
    give(core, 0, v)
}
