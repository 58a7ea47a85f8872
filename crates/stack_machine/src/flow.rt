//! Jumps, calls and returns.
ghost use Rattle.std.specs.Prelude.{◌≡◌, ◌<◌, ◌≤◌, ◌-◌, ◌^◌, ◌+◌, ◌*◌, length, List, ℕ, Some, slice_get, IfSome};
ghost use Rattle.stack_machine.specs.Able.{HasRoom, CanDo, Comes};
ghost use Rattle.stack_machine.specs.Numbers.{is_zero};
ghost use Rattle.stack_machine.specs.State.{state_of, program_of};
ghost use Rattle.stack_machine.specs.Step.{base_out, number_out, written, with_frame_at, called, entered, innermost};
ghost use Rattle.stack_machine.specs.Step.{body_behind, next_body as body_next, does, empty, nothing};
ghost use Rattle.stack_machine.specs.Ready.{IsSmall, Nests, AreBodies};
ghost use Rattle.stack_machine.specs.declared.core_state.Frame.{Frame as FrameData};
ghost use Rattle.stack_machine.specs.declared.op.Op.TheVariants.{Local, Jump, JumpFalse, AndJump, OrJump, Return};

use crate::arithmetic::zero;
use crate::code::{Code, Routine};
use crate::core_state::{Core, Frame};
use crate::memory::clear;
use crate::next::Next;
use crate::stack::{give, operand, take};
use crate::trap::Trap;

#[inline(always)]
#[tactic(auto, unfolding(crate::specs::Step::does))]
pub(crate) fn jump(core: &mut Core, to: usize) -> Next
    requires able { CanDo core.old 0 }
    ensures comes { Comes result (does empty nothing (Jump to) (state_of core.old)) (state_of core.old)
        (state_of core.new) }
    ensures room { HasRoom core.new }
{
    core.at = to;
    Next::Goes
}

#[inline(always)]
#[tactic(auto, using(crate::proofs::OperandLaws::below_is), unfolding(crate::specs::Step::does))]
pub(crate) fn jump_false(core: &mut Core, to: usize) -> Next
    requires able { CanDo core.old 1 }
    ensures comes { Comes result (does empty nothing (JumpFalse to) (state_of core.old)) (state_of core.old)
        (state_of core.new) }
    ensures room { HasRoom core.new }
{
    let is_false = zero(operand(core, 0));
    core.sp -= 1;
    core.at = if is_false { to } else { core.at + 1 };
    Next::Goes
}

#[inline(always)]
#[tactic(auto, unfolding(crate::specs::Step::does))]
pub(crate) fn and_jump(core: &mut Core, to: usize) -> Next
    requires able { CanDo core.old 1 }
    ensures comes { Comes result (does empty nothing (AndJump to) (state_of core.old)) (state_of core.old)
        (state_of core.new) }
    ensures room { HasRoom core.new }
{
    if zero(operand(core, 0)) {
        core.at = to;
        Next::Goes
    } else {
        take(core, 1)
    }
}

#[inline(always)]
#[tactic(auto, unfolding(crate::specs::Step::does))]
pub(crate) fn or_jump(core: &mut Core, to: usize) -> Next
    requires able { CanDo core.old 1 }
    ensures comes { Comes result (does empty nothing (OrJump to) (state_of core.old)) (state_of core.old)
        (state_of core.new) }
    ensures room { HasRoom core.new }
{
    if zero(operand(core, 0)) {
        take(core, 1)
    } else {
        core.at = to;
        Next::Goes
    }
}

/// The first cell of the frame to which h static links lead.
fn outer_base(frames: &[Frame], h: u32, base: usize, link: usize) -> usize
    requires short { length frames.now < 2 ^ 32 }
    requires linked { (b : ℕ) × (base_out frames.now h base link ≡ Some b) }
    ensures { base_out frames.now h base link ≡ Some result }
{
    let mut first = base;
    let mut next = link;
    for _ in 0..h {
        let frame = frames[next];
        first = frame.base;
        next = frame.link;
    }
    first
}

/// The first cell of the frame to which h static links lead from the current one.
#[inline(always)]
#[tactic(auto, unfolding(crate::specs::Step::base_out))]
fn base_from(core: &Core, h: u32) -> usize
    requires linked { (b : ℕ) × (base_out core.now.frames.items h core.now.base core.now.link ≡ Some b) }
    requires short { length core.now.frames.items < 2 ^ 32 }
    ensures { base_out core.now.frames.items h core.now.base core.now.link ≡ Some result }
{
    if h == 0 {
        core.base
    } else {
        outer_base(&core.frames, h, core.base, core.link)
    }
}

#[inline(always)]
#[tactic(auto, unfolding(crate::specs::Step::does))]
pub(crate) fn local(core: &mut Core, h: u32, o: u32) -> Next
    requires able { CanDo core.old 0 }
    requires linked { (b : ℕ) × (base_out core.old.frames.items h core.old.base core.old.link ≡ Some b)
        × (b ≤ core.old.top) }
    requires short { length core.old.frames.items < 2 ^ 32 }
    ensures comes { Comes result (does empty nothing (Local h o) (state_of core.old)) (state_of core.old)
        (state_of core.new) }
    ensures room { HasRoom core.new }
{
    let base = base_from(core, h);
    let address = base + o as usize;
    give(core, 0, address as i64)
}

/// The number of the frame to which h static links lead.
pub(crate) fn outer_number(frames: &[Frame], h: u32, number: usize, link: usize) -> usize
    requires short { length frames.now < 2 ^ 32 }
    requires linked { (n : ℕ) × (number_out frames.now h number link ≡ Some n) }
    ensures { number_out frames.now h number link ≡ Some result }
{
    let mut reached = number;
    let mut next = link;
    for _ in 0..h {
        reached = next;
        next = frames[next].link;
    }
    reached
}

/// Writes values into cells.
fn write(cells: &mut [i64], at: usize, values: &[i64])
    requires { at + length values.now ≤ length cells.old }
    ensures { cells.new ≡ written cells.old at values.now }
{
    cells[at..at + values.len()].copy_from_slice(values);
}

/// Lays out a new frame.
fn lay(cells: &mut [i64], at: usize, size: usize, params: &[i64])
    requires within { at + size ≤ length cells.old }
    requires params { length params.now ≤ size }
    ensures { cells.new ≡ with_frame_at cells.old at size params.now }
{
    clear(cells, at, size);
    write(cells, at, params);
}

/// Calls a procedure, and takes n operands, the topmost of which are its parameters.
#[inline(always)]
#[tactic(auto, using(crate::proofs::OperandLaws::call_is), unfolding(crate::specs::Step::called))]
pub(crate) fn call(core: &mut Core, p: &Routine, n: usize, link: usize) -> Next
    requires able { CanDo core.old n }
    requires params { p.now.params ≤ n }
    requires small { IsSmall p.now }
    requires frames { length core.old.frames.items * 4 + 4 ≤ length core.old.cells.items }
    ensures comes { Comes result (called p.now n link (state_of core.old)) (state_of core.old) (state_of core.new) }
    ensures room { HasRoom core.new }
{
    let size = p.locals + p.high + 4;
    if core.heap < core.top + size {
        return Next::Traps(Trap::Memory);
    }
    let params = &core.stack[core.sp - p.params..core.sp];
    lay(&mut core.cells, core.top, size, params);
    let frame = Frame {
        at: core.at + 1,
        base: core.base,
        top: core.top,
        link: core.link,
    };
    let Ok(()) = core.frames.push(frame) else {
        unreachable!()
    };
    core.sp -= n;
    core.at = p.entry;
    core.base = core.top;
    core.top += size;
    core.link = link;
    Next::Goes
}

/// Begins the body of a module.
#[tactic(auto, unfolding(crate::specs::Step::entered))]
pub(crate) fn enter(core: &mut Core, p: &Routine) -> Next
    requires room { HasRoom core.old }
    requires small { IsSmall p.now }
    ensures comes { Comes result (entered (Some p.now) (state_of core.old)) (state_of core.old) (state_of core.new) }
    ensures room { HasRoom core.new }
{
    let size = p.locals + p.high + 4;
    if core.heap < core.base + size {
        return Next::NoFrame(p.entry);
    }
    clear(&mut core.cells, core.base, size);
    core.at = p.entry;
    core.top = core.base + size;
    core.link = 0;
    Next::Goes
}

/// The body behind the one whose code has a place.
fn body_after(code: &Code, at: usize) -> Option<usize>
    requires { at < length code.now.origins.items }
    ensures { result ≡ body_behind (program_of code.now) at }
{
    let next = code.origins[at].module as usize + 1;
    if next < code.bodies.len() {
        Some(code.bodies[next])
    } else {
        None
    }
}

/// Begins the next body, if there is one.
fn next_body(code: &Code, core: &mut Core) -> Next
    requires room { HasRoom core.old }
    requires origin { core.old.at < length code.now.origins.items }
    requires bodies { AreBodies (program_of code.now) }
    ensures comes { Comes result (body_next (program_of code.now) (body_behind (program_of code.now) core.old.at)
        (state_of core.old)) (state_of core.old) (state_of core.new) }
    ensures room { HasRoom core.new }
{
    match body_after(code, core.at) {
        Some(k) => enter(core, &code.routines[k]),
        None => Next::Halts,
    }
}

/// Back to the caller.
#[inline(always)]
#[tactic(auto, using(crate::proofs::OperandLaws::innermost_is), unfolding(crate::specs::Step::does))]
pub(crate) fn leave(code: &Code, core: &mut Core) -> Next
    requires room { HasRoom core.old }
    requires nested { (f : FrameData) → innermost core.old.frames.items ≡ Some f → Nests f core.old.heap }
    requires origin { core.old.at < length code.now.origins.items }
    requires bodies { AreBodies (program_of code.now) }
    ensures comes { Comes result (does (program_of code.now) nothing Return (state_of core.old)) (state_of core.old)
        (state_of core.new) }
    ensures room { HasRoom core.new }
{
    match core.frames.pop() {
        None => next_body(code, core),
        Some(frame) => {
            core.at = frame.at;
            core.base = frame.base;
            core.top = frame.top;
            core.link = frame.link;
            Next::Goes
        }
    }
}
