//! Where a machine begins.
ghost use Rattle.std.specs.Prelude.{◌≡◌, ◌<◌, ◌≤◌, ◌++◌, ◌^◌, map, length, replicate, pos, IfOk, OnOk, slice_get};
ghost use Rattle.object_file.specs.Programs.{IsProgram};
ghost use Rattle.object_file.specs.Views.{procedure_of};
ghost use Rattle.stack_machine.specs.Able.{HasRoom};
ghost use Rattle.stack_machine.specs.Loading.{IsLoaded, data_at, frames_of, data_cells, all_data, first_cells};
ghost use Rattle.stack_machine.specs.Loading.{blank as blank_state};
ghost use Rattle.stack_machine.specs.Machines.{IsFirst, now_of};
ghost use Rattle.stack_machine.specs.Sites.{HasLayout};
ghost use Rattle.stack_machine.specs.State.{state_of, program_of};
ghost use Rattle.stack_machine.specs.Step.{next_body};

use crate::code::Code;
use crate::core_state::Core;
use crate::flow::enter;
use crate::layout::Layout;
use crate::next::Next;
use m2_base::ProcCode;
use object_file::Object;
use std::alloc::{AllocError, Global};

/// Appends data, one byte in a cell.
fn push_bytes(cells: &mut Vec<i64>, bytes: &[u8]) -> Result<(), AllocError>
    ensures { OnOk result (cells.new.items ≡ cells.old.items ++ map pos bytes.now) }
{
    for byte in bytes {
        cells.push(i64::from(*byte))?;
    }
    Ok(())
}

/// Appends the data of procedures.
fn push_texts(cells: &mut Vec<i64>, procedures: &[ProcCode]) -> Result<(), AllocError>
    ensures { OnOk result (cells.new.items ≡ cells.old.items ++ data_cells (map procedure_of procedures.now)) }
{
    for procedure in procedures {
        push_bytes(cells, &procedure.bytes)?;
    }
    Ok(())
}

fn push_object(cells: &mut Vec<i64>, object: &Object) -> Result<(), AllocError>
    ensures { OnOk result (cells.new.items ≡ cells.old.items ++ data_cells object.now.procedures) }
{
    push_texts(cells, object.procedures())
}

/// Appends the data of all objects.
fn push_data(cells: &mut Vec<i64>, objects: &[Object]) -> Result<(), AllocError>
    ensures { OnOk result (cells.new.items ≡ cells.old.items ++ all_data objects.now) }
{
    for object in objects {
        push_object(cells, object)?;
    }
    Ok(())
}

/// The first cells of a program: all are 0 but those of the data.
fn first_of(
    alloc: Global,
    objects: &[Object],
    texts: usize,
    size: usize,
) -> Result<Vec<i64>, AllocError>
    requires texts { texts ≡ data_at objects.now }
    requires room { frames_of objects.now ≤ size }
    ensures { IfOk result (λ cells. cells.items ≡ first_cells objects.now size) }
{
    let mut cells = Vec::with_capacity(alloc, size)?;
    cells.resize(texts, 0)?;
    push_data(&mut cells, objects)?;
    cells.resize(size, 0)?;
    Ok(cells)
}

fn zeros(alloc: Global, size: usize) -> Result<Vec<i64>, AllocError>
    ensures { IfOk result (λ cells. length cells.items ≡ size) }
{
    let mut cells = Vec::with_capacity(alloc, size)?;
    cells.resize(size, 0)?;
    Ok(cells)
}

/// The state before the first body, with room for all that a run needs.
pub(crate) fn blank(
    alloc: Global,
    objects: &[Object],
    layout: &Layout,
    size: usize,
) -> Result<Core, AllocError>
    requires layout { HasLayout layout.now objects.now }
    requires room { frames_of objects.now ≤ size }
    requires small { size < 2 ^ 32 }
    ensures state { IfOk result (λ core. state_of core ≡ blank_state objects.now size) }
    ensures room { IfOk result (λ core. HasRoom core) }
{
    let cells = first_of(alloc, objects, layout.texts, size)?;
    let stack = zeros(alloc, size)?;
    let frames = Vec::with_capacity(alloc, size / 4 + 1)?;
    Ok(Core {
        at: 0,
        sp: 0,
        base: layout.frames,
        top: layout.frames,
        link: 0,
        heap: size,
        kept: None,
        cells,
        stack,
        frames,
    })
}

/// Begins the first body. The place where it begins, if it finds no room.
pub(crate) fn begin(code: &Code, core: &mut Core) -> Option<usize>
    requires first { IsFirst code.now core.old }
    ensures begun { now_of result core.new
        ≡ next_body (program_of code.now) (slice_get code.now.bodies.items 0) (state_of core.old) }
    ensures room { HasRoom core.new }
{
    match enter(core, &code.routines[code.bodies[0]]) {
        Next::NoFrame(at) => Some(at),
        Next::Goes => None,
        Next::Halts => None,
        Next::Traps(_) => None,
    }
}
