//! What InOut's procedures leave, behind what they print and read.
ghost use Rattle.std.specs.Prelude.{◌≡◌, ◌≤◌, ◌<◌, Option, ℕ, Some, None, pos, slice_set, length, []};
ghost use Rattle.stack_machine.specs.Able.{HasRoom, CanDo, Comes};
ghost use Rattle.stack_machine.specs.InOut.{params_of, can_go_on};
ghost use Rattle.stack_machine.specs.Readings.{got_of};
ghost use Rattle.stack_machine.specs.State.{state_of};
ghost use Rattle.stack_machine.specs.Step.{served, assigned, number_read};

use crate::arithmetic::as_value;
use crate::core_state::Core;
use crate::memory::cell;
use crate::next::Next;
use crate::op::Service;
use crate::reading::Reading;
use crate::stack::{operand, take};
use crate::trap::Trap;

/// The variable at the address on top gets a value, and Done gets another.
fn assign(core: &mut Core, n: usize, kept: Option<u8>, value: i64, done: i64) -> Next
    requires able { CanDo core.old n }
    requires some { 1 ≤ n }
    requires done { 1 < length core.old.cells.items }
    ensures comes { Comes result (assigned (state_of core.old) n kept value done) (state_of core.old)
        (state_of core.new) }
    ensures room { HasRoom core.new }
{
    match cell(&core.cells, operand(core, 0)) {
        Some(a) => {
            core.cells[a] = value;
            core.cells[1] = done;
            core.kept = kept;
            take(core, n)
        }
        None => Next::Traps(Trap::Address),
    }
}

/// A number that was read is assigned; where none was, Done is false.
fn assign_number(core: &mut Core, n: usize, reading: Reading) -> Next
    requires able { CanDo core.old n }
    requires some { 1 ≤ n }
    requires done { 1 < length core.old.cells.items }
    ensures comes { Comes result (number_read (state_of core.old) n (got_of reading []) reading.value)
        (state_of core.old) (state_of core.new) }
    ensures room { HasRoom core.new }
{
    match reading.value {
        Some(v) => assign(core, n, reading.kept, v, 1),
        None => {
            core.cells[1] = 0;
            core.kept = reading.kept;
            take(core, n)
        }
    }
}

/// What a procedure leaves of n operands.
pub(crate) fn serve(
    core: &mut Core,
    service: Service,
    n: usize,
    goes_on: bool,
    reading: Reading,
) -> Next
    requires able { CanDo core.old n }
    requires some { params_of service ≤ n }
    requires done { 1 < length core.old.cells.items }
    requires goes_on { goes_on ≡ can_go_on service core.old.cells.items (state_of core.old).operands }
    ensures comes { Comes result (served service n (got_of reading []) (state_of core.old)) (state_of core.old)
        (state_of core.new) }
    ensures room { HasRoom core.new }
{
    match service {
        Service::Read => {
            let done = as_value(reading.value.is_some());
            assign(core, n, reading.kept, reading.value.unwrap_or(0), done)
        }
        Service::ReadInt | Service::ReadCard => assign_number(core, n, reading),
        Service::WriteString if !goes_on => Next::Traps(Trap::Address),
        Service::WriteInt | Service::WriteCard if !goes_on => Next::Traps(Trap::Range),
        Service::Write
        | Service::WriteString
        | Service::WriteLn
        | Service::WriteInt
        | Service::WriteCard => { take(core, n) }
    }
}
