//! Runs.
ghost use Rattle.std.specs.Prelude.{◌≡◌, ◌≤◌, ◌<◌, None, Some, ℕ, List, [], length, slice_get, IfOk, IfErr, OnErr};
ghost use Rattle.std.specs.Prelude.{IfSome, option_map};
ghost use Rattle.m2_io.specs.Causes.{Rose};
ghost use Rattle.stack_machine.specs.Able.{HasRoom, CanDo, Comes};
ghost use Rattle.stack_machine.specs.InOut.{Got, params_of, printed, can_go_on, Reads};
ghost use Rattle.stack_machine.specs.Machines.{IsPlaced};
ghost use Rattle.stack_machine.specs.Operands.{top_of};
ghost use Rattle.stack_machine.specs.Readings.{Taken};
ghost use Rattle.stack_machine.specs.Ready.{Ready};
ghost use Rattle.stack_machine.specs.Runs.{asked_by, asked, prints_by, service_in, Ends};
ghost use Rattle.stack_machine.specs.State.{state_of, program_of};
ghost use Rattle.stack_machine.specs.Step.{served, step, takes, callee_of};
ghost use Rattle.stack_machine.specs.Stepping.{Serves, ServedSo, HasServed, Stepped, Broken, FailedWith, IsFramed};
ghost use Rattle.stack_machine.specs.Stepping.{IsTrapped, IsEnded, failed_end, is_going};

use crate::act::{act, callee};
use crate::code::{Callee, Code};
use crate::core_state::Core;
use crate::next::Next;
use crate::op::{Op, Service};
use crate::services::serve;
use crate::stack::operand;
use crate::trap::Trap;
use crate::{printing, reading};
use m2_io::{Sink, Source};

/// How a run ended.
#[derive(Clone, Copy, Debug, PartialEq, Eq)]
pub enum End {
    /// The program is over.
    Halted,
    /// The code of the trap, and the object in running order, the procedure and the place in its code where it came.
    Trapped {
        code: u8,
        module: u32,
        procedure: u32,
        offset: u32,
    },
    /// So many steps were made.
    StepsSpent,
    /// The source failed.
    ReadFailed,
    /// The sink failed.
    WriteFailed,
}

/// What failed.
#[derive(Clone, Copy)]
pub(crate) enum Failure {
    Read,
    Write,
}

/// A procedure of InOut that an operation calls, and how many operands it takes.
#[derive(Clone, Copy)]
pub(crate) struct Asked {
    pub(crate) service: Service,
    pub(crate) operands: usize,
}

/// The procedure of InOut that a variable is, if it is one of these parameters and this result.
fn service_called(code: &Code, core: &Core, n: u32, r: u32) -> Option<Service>
    requires there { n < core.now.sp }
    requires room { HasRoom core.now }
    ensures { result ≡ service_in (callee_of (program_of code.now) (top_of n (state_of core.now).operands) n r) }
{
    match callee(code, operand(core, n as usize), n, r) {
        Some(Callee::Service(service)) => Some(service),
        Some(Callee::Routine(_)) => None,
        None => None,
    }
}

/// The procedure of InOut that an operation calls.
#[inline(always)]
#[tactic(auto, using(crate::proofs::Serving::serves_service, crate::proofs::Serving::serves_variable))]
fn asked_for(code: &Code, core: &Core, op: &Op) -> Option<Asked>
    requires there { takes op.now ≤ core.now.sp }
    requires room { HasRoom core.now }
    ensures service { option_map (λ x. x.service) result
        ≡ asked_by (program_of code.now) (Some op.now) (state_of core.now) }
    ensures serves { IfSome result
        (λ x. Serves (program_of code.now) op.now (state_of core.now) x.service x.operands) }
{
    match *op {
        Op::CallService(service) => Some(Asked {
            service,
            operands: service.params() as usize,
        }),
        Op::CallVar(n, r) => match service_called(code, core, n, r) {
            Some(service) => Some(Asked {
                service,
                operands: n as usize + 1,
            }),
            None => None,
        },
        _ => None,
    }
}

/// Reads what a procedure of InOut reads, once the sink keeps nothing back, and leaves what it leaves.
fn read_and_serve<P: Sink, K: Source>(
    core: &mut Core,
    service: Service,
    n: usize,
    goes_on: bool,
    print: &P,
    keys: &mut K,
) -> Result<Next, Failure>
    requires handed { Reads service → P.kept print.now ≡ 0 }
    requires able { CanDo core.old n }
    requires some { params_of service ≤ n }
    requires done { 1 < length core.old.cells.items }
    requires goes_on { goes_on ≡ can_go_on service core.old.cells.items (state_of core.old).operands }
    ensures comes { IfOk result (λ next.
        (got : Got) × Comes next (served service n got (state_of core.old)) (state_of core.old) (state_of core.new)) }
    ensures told { IfOk result (λ next. IfSome (K.left keys.old)
        (λ l. ServedSo service n (state_of core.old) next (state_of core.new) l (K.left keys.new))) }
    ensures same { OnErr result (state_of core.new ≡ state_of core.old) }
    ensures taken { OnErr result (Taken (K.left keys.old) (K.left keys.new)) }
    ensures which { IfErr result (λ e. e ≡ Failure.Read) }
    ensures reads { OnErr result (Reads service) }
    ensures failed { OnErr result (Rose (K.faults keys.old) (K.faults keys.new)) }
    ensures later { K.faults keys.old ≤ K.faults keys.new }
    ensures room { HasRoom core.new }
{
    match reading::read(service, core.kept, print, keys) {
        Err(_) => Err(Failure::Read),
        Ok(reading) => Ok(serve(core, service, n, goes_on, reading)),
    }
}

/// Calls a procedure of InOut.
fn call_service<P: Sink, K: Source>(
    core: &mut Core,
    service: Service,
    n: usize,
    print: &mut P,
    keys: &mut K,
) -> Result<Next, Failure>
    requires able { CanDo core.old n }
    requires some { params_of service ≤ n }
    requires done { 1 < length core.old.cells.items }
    ensures comes { IfOk result (λ next.
        (got : Got) × Comes next (served service n got (state_of core.old)) (state_of core.old) (state_of core.new)) }
    ensures told { IfOk result (λ next. IfSome (K.left keys.old) (λ l. HasServed service n (state_of core.old) next
        (state_of core.new) l (P.written print.old) (P.written print.new) (K.left keys.new))) }
    ensures same { OnErr result (state_of core.new ≡ state_of core.old) }
    ensures broken { OnErr result (IfSome (K.left keys.old) (λ l. Broken (printed service core.old.cells.items
        (state_of core.old).operands) l (P.written print.old) (P.written print.new) (K.left keys.new))) }
    ensures failed { IfErr result
        (λ e. FailedWith e (P.faults print.old) (P.faults print.new) (K.faults keys.old) (K.faults keys.new)) }
    ensures handed { IfErr result (λ e. e ≡ Failure.Read → P.kept print.new ≡ 0) }
    ensures prints_later { P.faults print.old ≤ P.faults print.new }
    ensures reads_later { K.faults keys.old ≤ K.faults keys.new }
    ensures room { HasRoom core.new }
{
    match printing::print(service, print, core) {
        Err(_) => Err(Failure::Write),
        Ok(goes_on) => read_and_serve(core, service, n, goes_on, print, keys),
    }
}

/// One step.
#[inline(always)]
#[tactic(auto, using(crate::proofs::Readiness::at_within))]
fn one_step<P: Sink, K: Source>(
    code: &Code,
    core: &mut Core,
    print: &mut P,
    keys: &mut K,
) -> Result<Next, Failure>
    requires ready { Ready code.now core.old }
    ensures ready { Ready code.now core.new }
    ensures framed { IfOk result (λ next. IsFramed next (length code.now.origins.items)) }
    ensures told { IfOk result
        (λ next. IfSome (K.left keys.old) (λ l. Stepped (program_of code.now) (state_of core.old) next
        (state_of core.new) l (P.written print.old) (P.written print.new) (K.left keys.new))) }
    ensures same { OnErr result (state_of core.new ≡ state_of core.old) }
    ensures broken { OnErr result (IfSome (K.left keys.old) (λ l. Broken (prints_by (asked (program_of code.now)
        (state_of core.old)) (state_of core.old)) l (P.written print.old) (P.written print.new) (K.left keys.new))) }
    ensures failed { IfErr result
        (λ e. FailedWith e (P.faults print.old) (P.faults print.new) (K.faults keys.old) (K.faults keys.new)) }
    ensures handed { IfErr result (λ e. e ≡ Failure.Read → P.kept print.new ≡ 0) }
    ensures prints_later { P.faults print.old ≤ P.faults print.new }
    ensures reads_later { K.faults keys.old ≤ K.faults keys.new }
{
    let op = &code.ops[core.at];
    match asked_for(code, core, op) {
        None => Ok(act(code, core, op)),
        Some(asked) => call_service(core, asked.service, asked.operands, print, keys),
    }
}

/// The end by a trap at a place.
pub(crate) fn trapped(code: &Code, trap: Trap, at: usize) -> End
    requires { at < length code.now.origins.items }
    ensures { IsTrapped result (program_of code.now) trap at }
{
    let origin = code.origins[at];
    End::Trapped {
        code: trap.code(),
        module: origin.module,
        procedure: origin.procedure,
        offset: origin.offset,
    }
}

/// The end by a failure.
fn failed(failure: Failure) -> End
    ensures { result ≡ failed_end failure }
{
    match failure {
        Failure::Read => End::ReadFailed,
        Failure::Write => End::WriteFailed,
    }
}

fn goes_on(next: Next) -> bool
    ensures { result ≡ is_going next }
{
    match next {
        Next::Goes => true,
        Next::Halts => false,
        Next::Traps(_) => false,
        Next::NoFrame(_) => false,
    }
}

/// The end by a step at a place, which doesn't go on.
fn ended(code: &Code, at: usize, next: Next) -> End
    requires at { at < length code.now.origins.items }
    requires framed { IsFramed next (length code.now.origins.items) }
    ensures { IsEnded result (program_of code.now) at next }
{
    match next {
        Next::Goes => End::StepsSpent,
        Next::Halts => End::Halted,
        Next::Traps(trap) => trapped(code, trap, at),
        Next::NoFrame(first) => trapped(code, Trap::Memory, first),
    }
}

/// At most so many steps.
pub(crate) fn steps<P: Sink, K: Source>(
    code: &Code,
    core: &mut Core,
    most: u64,
    print: &mut P,
    keys: &mut K,
) -> End
    requires ready { Ready code.now core.old }
    ensures ready { Ready code.now core.new }
    ensures ends { IfSome (K.left keys.old) (λ input. Ends result (program_of code.now) most (state_of core.old)
        (state_of core.new) input (P.written print.old) (P.written print.new) (K.left keys.new)) }
    ensures placed { IsPlaced result (program_of code.now) }
    // It fails only where a count of faults rose.
    ensures write_failed { result ≡ End.WriteFailed → Rose (P.faults print.old) (P.faults print.new) }
    ensures read_failed { result ≡ End.ReadFailed → Rose (K.faults keys.old) (K.faults keys.new) }
    // What was written is handed on before each read, also before one that fails.
    ensures handed { result ≡ End.ReadFailed → P.kept print.new ≡ 0 }
    ensures prints_later { P.faults print.old ≤ P.faults print.new }
    ensures reads_later { K.faults keys.old ≤ K.faults keys.new }
{
    for _ in 0..most {
        match one_step(code, core, print, keys) {
            Err(failure) => return failed(failure),
            Ok(next) => {
                if !goes_on(next) {
                    return ended(code, core.at, next);
                }
            }
        }
    }
    End::StepsSpent
}
