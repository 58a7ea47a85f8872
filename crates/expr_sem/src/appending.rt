//! The forms of fragments, appended to a piece one after another.
ghost use Rattle.std.specs.Prelude.{◌≡◌, ◌+◌, ◌∷◌, [], List, ◌++◌, OnOk, length, map, min, slice_index};
ghost use Rattle.m2_base.specs.Lists.{IsPrefixOf};
ghost use Rattle.m2_base.specs.Statics.Cells.{capped};
ghost use Rattle.block_code.specs.Arguments.{string_copy as spec_copy};
ghost use Rattle.expr_sem.specs.Fragments.{AreSound, IsIn, IsMadeOf, part};
ghost use Rattle.block_code.specs.Parts.{plain, steps, text as spec_text, unless_too_many};
ghost use Rattle.expr_sem.specs.Pieces.{Appended, Begins};
ghost use Rattle.expr_sem.specs.declared.pieces.With.{With as OpenWith};
ghost use Rattle.expr_sem.specs.Stacks.{Visited};

use crate::fragments::{Form, Fragment, Fragments};
use crate::pieces::{Piece, With};
use crate::steps::Step;
use code_form::Instr;
use m2_base::{Memory, TOO_MANY_CELLS};

/// So many temporary cells, or bytes of data, and so many more; each sum above the most that a block may have is
/// `TOO_MANY_CELLS`. So none is too great for its number, and the block is refused when it ends.
pub fn capped_sum(count: u32, more: usize) -> u32
    ensures { result ≡ capped (count + more) }
{
    let Ok(more) = u32::try_from(more) else {
        return TOO_MANY_CELLS;
    };
    match count.checked_add(more) {
        Some(sum) if sum < TOO_MANY_CELLS => sum,
        _ => TOO_MANY_CELLS,
    }
}

/// Appends to a piece an instruction that is no call and no return, with what the machine's table says that it takes
/// from the stack and leaves there. Where memory is wanted the piece has at least what it had.
pub fn push_instr(piece: &mut Piece, instr: Instr) -> Result<(), Memory>
    ensures begins { Begins piece.old piece.new }
    ensures ok { (ws : List OpenWith) → OnOk result (Appended piece.old piece.new ws (plain (instr ∷ []))) }
{
    piece.steps.push(Step::plain(instr))?;
    Ok(())
}

/// Appends characters with a 0 behind them to bytes of data, unless they would end behind the last that a block can
/// have.
fn push_bytes(bytes: &mut Vec<u8>, characters: &Vec<u8>, last: u32) -> Result<(), Memory>
    ensures begins { IsPrefixOf bytes.old.items bytes.new.items }
    ensures ok { OnOk result
        (bytes.new.items ≡ bytes.old.items ++ unless_too_many last (characters.now.items ++ 0 ∷ [])) }
{
    if last < TOO_MANY_CELLS {
        bytes.extend_from_slice(characters)?;
        bytes.push(0)?;
    }
    Ok(())
}

/// Appends the address of these characters, and the characters to the data.
fn push_text(piece: &mut Piece, characters: &Vec<u8>) -> Result<(), Memory>
    ensures begins { Begins piece.old piece.new }
    ensures ok { (ws : List OpenWith)
        → OnOk result (Appended piece.old piece.new ws (spec_text characters.now.items)) }
{
    let first = piece.byte;
    let last = capped_sum(first, characters.len() + 1);
    push_bytes(&mut piece.bytes, characters, last)?;
    piece.byte = last;
    push_instr(piece, Instr::Str(first))
}

/// How many cells a copy of so many characters with a 0 behind them takes among so many.
fn moved(length: usize, size: u32) -> u32
    ensures { result ≡ min (length + 1) size }
{
    match u32::try_from(length) {
        Ok(length) if length < size => length + 1,
        _ => size,
    }
}

/// Appends the address of temporary cells with a copy of these characters.
fn push_copy(piece: &mut Piece, size: u32, characters: &Vec<u8>) -> Result<(), Memory>
    ensures begins { Begins piece.old piece.new }
    ensures ok { (ws : List OpenWith)
        → OnOk result (Appended piece.old piece.new ws (spec_copy size characters.now.items)) }
{
    let first = piece.cell;
    let moved = moved(characters.len(), size);
    piece.cell = capped_sum(first, size as usize);
    push_instr(piece, Instr::Local(0, first))?;
    push_text(piece, characters)?;
    push_instr(piece, Instr::Move(moved))?;
    push_instr(piece, Instr::Local(0, first))
}

/// The cell of an open WITH.
fn cell_of(withs: &[With], number: u32) -> u32
    ensures { result ≡ slice_index (map (λ w. w.cell) withs.now) number }
{
    match withs.get(number as usize) {
        Some(with) => with.cell,
        None => 0,
    }
}

/// Appends a form's own part; the fragments that it is made of are put on the stack, the first one last.
fn visit(
    fragments: &Fragments,
    form: &Form,
    withs: &[With],
    rest: &mut Vec<Fragment>,
    piece: &mut Piece,
) -> Result<(), Memory>
    requires sound { AreSound fragments.now.nodes.items }
    requires there { IsMadeOf (length fragments.now.nodes.items) form.now }
    ensures begins { Begins piece.old piece.new }
    ensures ok { OnOk result
        (Visited piece.old piece.new withs.now fragments.now.nodes.items form.now rest.old.items rest.new.items) }
{
    match form {
        Form::One(step) => {
            piece.steps.push(*step)?;
            Ok(())
        }
        Form::Text(characters) => push_text(piece, characters),
        Form::StringCopy(size, characters) => push_copy(piece, *size, characters),
        Form::WithRecord(number) => {
            push_instr(piece, Instr::Local(0, cell_of(withs, *number)))?;
            push_instr(piece, Instr::Load)
        }
        Form::Then(first, second) => {
            rest.push(*second)?;
            rest.push(*first)?;
            Ok(())
        }
        Form::Skip(connective, skipped) => {
            let Ok(distance) = i32::try_from(fragments.size(*skipped)) else {
                return Err(Memory);
            };
            push_instr(piece, connective.jump(distance))?;
            rest.push(*skipped)?;
            Ok(())
        }
    }
}

/// Appends a fragment, one of `fragments`, to a piece: its steps, its bytes of data, and the temporary cells that it
/// takes. Where memory is wanted a beginning of it may be there, which the caller takes off again, as `append` does.
pub fn append_all(
    fragments: &Fragments,
    fragment: Fragment,
    withs: &[With],
    piece: &mut Piece,
) -> Result<(), Memory>
    requires sound { AreSound fragments.now.nodes.items }
    requires there { IsIn fragments.now.nodes.items fragment }
    ensures begins { Begins piece.old piece.new }
    ensures ok { OnOk result (Appended piece.old piece.new withs.now (part fragments.now.nodes.items fragment)) }
{
    let mut rest = Vec::new(*piece.steps.allocator());
    rest.push(fragment)?;
    while let Some(next) = rest.pop() {
        match next {
            Fragment::Nothing => {}
            Fragment::Node(number) => {
                let node = &fragments.nodes[number as usize];
                visit(fragments, &node.form, withs, &mut rest, piece)?;
            }
        }
    }
    Ok(())
}
