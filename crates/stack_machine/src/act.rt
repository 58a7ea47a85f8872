//! One operation that calls no procedure of InOut.
ghost use Rattle.std.specs.Prelude.{◌≡◌, ◌≤◌, ◌<◌, ◌+◌, ◌*◌, ◌^◌, None, Some, ℕ, length, slice_get, IfSome};
ghost use Rattle.stack_machine.specs.Able.{HasRoom, CanDo, Comes};
ghost use Rattle.stack_machine.specs.InOut.{Got, params_of, services};
ghost use Rattle.stack_machine.specs.Ready.{Able, AsksCall, IsSmall};
ghost use Rattle.stack_machine.specs.Runs.{asked_by};
ghost use Rattle.stack_machine.specs.State.{Program, state_of, program_of};
ghost use Rattle.stack_machine.specs.Step.{does, takes, callee_of, numbered as procedure_numbered, routine_if};
ghost use Rattle.stack_machine.specs.Step.{service_if, number_out, link_of};
ghost use Rattle.stack_machine.specs.declared.code.Routine.{Routine as RoutineData};
ghost use Rattle.stack_machine.specs.declared.op.Op.TheVariants.{Call, CallVar};

use crate::arithmetic::{
    absolute, add, at_least, at_most, capitalize, check, differ, divide, equal, greater, less,
    more, multiply, negate, negation, remainder, subtract,
};
use crate::code::{Callee, Code};
use crate::core_state::Core;
use crate::flow::{and_jump, call, jump, jump_false, leave, local, or_jump, outer_number};
use crate::memory::{
    allocate, copy_cells, index, load, not_nil, offset, open_copy, open_index, store,
};
use crate::next::Next;
use crate::op::{Op, Service};
use crate::sets::{
    contains, exclusive, intersect, range, single, subset, subtract_set, superset, unite,
};
use crate::stack::{duplicate, operand, push};
use crate::trap::Trap;

/// InOut's procedures in the order of their headings.
pub(crate) const SERVICES: [Service; 8] = [
    Service::Read,
    Service::ReadInt,
    Service::ReadCard,
    Service::Write,
    Service::WriteString,
    Service::WriteLn,
    Service::WriteInt,
    Service::WriteCard,
];

impl Service {
    /// The cells of its parameters.
    pub(crate) fn params(self) -> u32
        ensures { result ≡ params_of self }
    {
        match self {
            Service::Read | Service::ReadInt | Service::ReadCard | Service::Write => 1,
            Service::WriteString | Service::WriteInt | Service::WriteCard => 2,
            Service::WriteLn => 0,
        }
    }
}

/// The procedure with this number, if it has these parameters and this result and none around it.
fn routine_with(code: &Code, k: usize, n: u32, r: u32) -> Option<Callee>
    requires { k < length code.now.routines.items }
    ensures { result ≡ routine_if k n r (slice_get code.now.routines.items k) }
{
    let p = &code.routines[k];
    if p.params == n as usize && p.result == r as usize && p.outer.is_none() {
        Some(Callee::Routine(k))
    } else {
        None
    }
}

/// The procedure of InOut with this number, if it has these parameters and this result.
fn service_with(k: usize, n: u32, r: u32) -> Option<Callee>
    ensures { result ≡ service_if n r (slice_get services k) }
{
    let service = *SERVICES.get(k)?;
    if service.params() == n && r == 0 {
        Some(Callee::Service(service))
    } else {
        None
    }
}

/// The procedure that has a number among those of the program and InOut's.
fn numbered(code: &Code, k: usize, n: u32, r: u32) -> Option<Callee>
    ensures { result ≡ procedure_numbered (program_of code.now) k n r }
{
    if k < code.routines.len() {
        return routine_with(code, k, n, r);
    }
    if code.has_in_out {
        service_with(k - code.routines.len(), n, r)
    } else {
        None
    }
}

/// The procedure that a value is, if it is one with these parameters and this result.
pub(crate) fn callee(code: &Code, v: i64, n: u32, r: u32) -> Option<Callee>
    ensures { result ≡ callee_of (program_of code.now) v n r }
{
    if v <= 0 {
        None
    } else {
        numbered(code, v.unsigned_abs() as usize - 1, n, r)
    }
}

/// The number of the frame of the procedure that encloses one.
fn link_to(core: &Core, outer: Option<usize>, h: u32) -> usize
    requires short { length core.now.frames.items < 2 ^ 32 }
    requires linked { IfSome outer
        (λ e. (n : ℕ) × (number_out core.now.frames.items h (length core.now.frames.items) core.now.link ≡ Some n)) }
    ensures { link_of outer (state_of core.now) h ≡ Some result }
{
    match outer {
        None => 0,
        Some(_) => outer_number(&core.frames, h, core.frames.len(), core.link),
    }
}

/// Calls a procedure.
#[tactic(auto, unfolding(crate::specs::Step::does))]
fn call_routine(code: &Code, core: &mut Core, k: usize, h: u32) -> Next
    requires able { CanDo core.old 0 }
    requires frames { length core.old.frames.items * 4 + 4 ≤ length core.old.cells.items }
    requires asks { AsksCall code.now.routines.items core.old k h }
    ensures comes { (got : Got) → Comes result (does (program_of code.now) got (Call k h) (state_of core.old))
        (state_of core.old) (state_of core.new) }
    ensures room { HasRoom core.new }
{
    let p = &code.routines[k];
    let link = link_to(core, p.outer, h);
    call(core, p, p.params, link)
}

/// Calls the procedure of the program that a variable is.
#[tactic(auto, unfolding(crate::specs::Step::does))]
fn call_value(code: &Code, core: &mut Core, n: u32, r: u32) -> Next
    requires able { CanDo core.old (n + 1) }
    requires frames { length core.old.frames.items * 4 + 4 ≤ length core.old.cells.items }
    requires small { (q : ℕ) (p : RoutineData) → slice_get code.now.routines.items q ≡ Some p → IsSmall p }
    requires asked { asked_by (program_of code.now) (Some (CallVar n r)) (state_of core.old) ≡ None }
    ensures comes { (got : Got) → Comes result (does (program_of code.now) got (CallVar n r) (state_of core.old))
        (state_of core.old) (state_of core.new) }
    ensures room { HasRoom core.new }
{
    match callee(code, operand(core, n as usize), n, r) {
        Some(Callee::Routine(k)) => call(core, &code.routines[k], n as usize + 1, 0),
        Some(Callee::Service(_)) => unreachable!(),
        None => Next::Traps(Trap::Procedure),
    }
}

macro_rules! action {
    (($op:ident, $core:ident) alone { $($name:ident $(($($x:ident),*))? $act:ident;)* } other { $($pattern:pat => $next:expr;)* }) => {
        match *$op {
            $(Op::$name $(($($x),*))? => $act($core $($(, $x)*)?),)*
            $($pattern => $next,)*
        }
    };
}

/// One operation that calls no procedure of InOut.
#[inline(always)]
#[tactic(auto, unfolding(crate::specs::Step::does))]
pub(crate) fn act(code: &Code, core: &mut Core, op: &Op) -> Next
    requires able { Able (program_of code.now) core.old op.now }
    requires asked { asked_by (program_of code.now) (Some op.now) (state_of core.old) ≡ None }
    ensures comes { (got : Got) → Comes result (does (program_of code.now) got op.now (state_of core.old))
        (state_of core.old) (state_of core.new) }
    ensures room { HasRoom core.new }
{
    action!((op, core)
        alone {
            Push(v) push; Local(h, o) local; Load load; Store store; Move(n) copy_cells; Dup duplicate;
            Offset(n) offset; Index(low, n, size) index; IndexOpen(size) open_index; Check(low, high) check; Nil not_nil;
            Add(kind) add; Sub(kind) subtract; Mul(kind) multiply; Div(kind) divide; Mod(kind) remainder;
            Neg negate; Abs absolute; Not negation;
            Eq equal; Ne differ; Lt less; Le at_most; Gt greater; Ge at_least;
            Union unite; Diff subtract_set; Inter intersect; SymDiff exclusive; Subset subset; Superset superset;
            In contains; Bit single; Span range; More(c) more; Cap capitalize;
            Jump(to) jump; JumpFalse(to) jump_false; AndJump(to) and_jump; OrJump(to) or_jump;
            New(n) allocate; OpenCopy(o, size) open_copy;
        }
        other {
            Op::Call(k, h) => call_routine(code, core, k, h);
            Op::CallService(_) => unreachable!();
            Op::CallVar(n, r) => call_value(code, core, n, r);
            Op::Return => leave(code, core);
            Op::Trap(trap) => Next::Traps(trap);
            Op::Halt => Next::Halts;
        }
    )
}
