//! Pieces of a block's code: what a body copies first, and how it ends.
ghost use Rattle.std.specs.Prelude.{◌≡◌, [], IfOk, OnOk, map, option_map};
ghost use Rattle.m2_base.specs.Views.{heading_view};
ghost use Rattle.m2_base.specs.Copies.{copy_view};
ghost use Rattle.block_code.specs.Parts.{none};
ghost use Rattle.expr_sem.specs.Pieces.{Appended};
ghost use Rattle.block_code.specs.BlockCode.{copy_code, ending as spec_ending, first_cell as spec_cell};
ghost use Rattle.block_code.specs.BlockCode.{prologue as spec_prologue};
ghost use Rattle.stmt_sem.specs.Stating.{made_in, spot_at};

use crate::procedure_codes::results_of;
use code_form::Instr;
use expr_sem::{Piece, Step, push_instr};
use m2_base::{Heading, Memory, ParamCopy, StreamKind};
use std::alloc::Global;

/// The trap at the end of a function.
const END_OF_FUNCTION: u8 = 7;

/// A piece that has nothing yet, whose temporary cells begin at this cell and whose data at this byte.
pub fn empty_piece(alloc: Global, cell: u32, byte: u32) -> Piece
    ensures { made_in result ≡ none (spot_at cell byte) }
{
    Piece {
        steps: Vec::new(alloc),
        bytes: Vec::new(alloc),
        cell,
        byte,
    }
}

/// The first temporary cell of a block whose variables end before this cell.
fn first_cell(kind: StreamKind, cell: u32) -> u32
    ensures { result ≡ spec_cell kind cell }
{
    match kind {
        StreamKind::Procedure => cell,
        _ => 0,
    }
}

/// Appends the copy of a parameter.
fn append_copy(copy: &ParamCopy, piece: &mut Piece) -> Result<(), Memory>
    ensures { OnOk result (Appended piece.old piece.new [] (copy_code (copy_view copy.now))) }
{
    match *copy {
        ParamCopy::Own(own, cell, size) => {
            push_instr(piece, Instr::Local(0, own))?;
            push_instr(piece, Instr::Local(0, cell))?;
            push_instr(piece, Instr::Load)?;
            push_instr(piece, Instr::Move(size))
        }
        ParamCopy::Open(cell, size) => push_instr(piece, Instr::OpenCopy(cell, size)),
    }
}

/// A piece with what a body copies first. The variables of its block end before this cell.
pub fn begun(
    alloc: Global,
    kind: StreamKind,
    cells: u32,
    copies: &[ParamCopy],
) -> Result<Piece, Memory>
    ensures { IfOk result
        (λ piece. made_in piece ≡ spec_prologue (map copy_view copies.now) (spot_at (spec_cell kind cells) 0)) }
{
    let mut piece = empty_piece(alloc, first_cell(kind, cells), 0);
    for copy in copies {
        append_copy(copy, &mut piece)?;
    }
    Ok(piece)
}

/// Appends the end of a body: a function that comes to it traps.
pub fn append_ending(heading: &Option<Heading>, piece: &mut Piece) -> Result<(), Memory>
    ensures { OnOk result (Appended piece.old piece.new [] (spec_ending (option_map heading_view heading.now))) }
{
    if results_of(heading) != 0 {
        return push_instr(piece, Instr::Trap(END_OF_FUNCTION));
    }
    piece.steps.push(Step {
        instr: Instr::Return,
        takes: 0,
        leaves: 0,
    })?;
    Ok(())
}
