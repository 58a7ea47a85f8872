//! The code that a statement has of its own, appended to a piece.
ghost use Rattle.std.specs.Prelude.{◌≡◌, ◌+◌, ◌∷◌, [], List, IfOk, OnOk, map, negsuc, pos};
ghost use Rattle.expr_sem.specs.Fragments.{AreSound};
ghost use Rattle.block_code.specs.Parts.{plain};
ghost use Rattle.expr_sem.specs.Pieces.{Appended, Begins};
ghost use Rattle.expr_sem.specs.declared.pieces.With.{With as OpenWith};
ghost use Rattle.code_form.specs.declared.instr.Instr.TheVariants.{Load, Local, Push};
ghost use Rattle.block_code.specs.Cases.{label_code, labels_code};
ghost use Rattle.case_labels.specs.Seen.{test_seen};
ghost use Rattle.stmt_sem.specs.FlowTrees.{IsCodeOf, code_by};

use crate::flow_sizes::{bound_size, jump_size, label_size, sum};
use crate::flows::Code;
use case_labels::LabelTest;
use code_form::Instr;
use expr_sem::{Fragments, Piece, With, append_all, push_instr};
use m2_base::Memory;

/// The distance of a jump over code of this length.
pub fn forward(over: u64) -> Result<i32, Memory>
    ensures { IfOk result (λ d. d ≡ pos over) }
{
    match i32::try_from(over) {
        Ok(distance) => Ok(distance),
        Err(_) => Err(Memory),
    }
}

/// The distance of a jump back over code of this length and itself.
pub fn backward(over: u64) -> Result<i32, Memory>
    ensures { IfOk result (λ d. d ≡ negsuc (over + 4)) }
{
    let distance = forward(sum(over, jump_size())?)?;
    Ok(-distance)
}

/// Appends a test of the value in the cell against this one.
fn push_bound(piece: &mut Piece, cell: u32, bound: i64, test: Instr) -> Result<(), Memory>
    ensures begins { Begins piece.old piece.new }
    ensures ok { (ws : List OpenWith)
        → OnOk result (Appended piece.old piece.new ws (plain (Local 0 cell ∷ Load ∷ Push bound ∷ test ∷ []))) }
{
    push_instr(piece, Instr::Local(0, cell))?;
    push_instr(piece, Instr::Load)?;
    push_instr(piece, Instr::Push(bound))?;
    push_instr(piece, test)
}

/// Appends the test of a label.
fn push_label(piece: &mut Piece, label: &LabelTest, cell: u32) -> Result<(), Memory>
    ensures begins { Begins piece.old piece.new }
    ensures ok { (ws : List OpenWith)
        → OnOk result (Appended piece.old piece.new ws (label_code cell (test_seen label.now))) }
{
    match label.high {
        None => push_bound(piece, cell, label.low, Instr::Eq),
        Some(high) => {
            push_bound(piece, cell, label.low, Instr::Ge)?;
            push_instr(piece, Instr::AndJump(forward(bound_size(Instr::Le))?))?;
            push_bound(piece, cell, high, Instr::Le)
        }
    }
}

/// Appends the tests of an arm's labels, each of which is skipped where one before it holds.
fn push_labels(piece: &mut Piece, labels: &[LabelTest], cell: u32) -> Result<(), Memory>
    ensures begins { Begins piece.old piece.new }
    ensures ok { (ws : List OpenWith)
        → OnOk result (Appended piece.old piece.new ws (labels_code cell (map test_seen labels.now))) }
{
    let Some((first, rest)) = labels.split_first() else {
        return push_instr(piece, Instr::Push(0));
    };
    push_label(piece, first, cell)?;
    for label in rest {
        push_instr(piece, Instr::OrJump(forward(label_size(label))?))?;
        push_label(piece, label, cell)?;
    }
    Ok(())
}

/// Appends a statement's own code, or a beginning of it.
pub fn append_code(
    fragments: &Fragments,
    code: &Code,
    cell: u32,
    withs: &[With],
    piece: &mut Piece,
) -> Result<(), Memory>
    requires sound { AreSound fragments.now.nodes.items }
    requires there { IsCodeOf fragments.now.nodes.items code.now }
    ensures begins { Begins piece.old piece.new }
    ensures ok { OnOk result
        (Appended piece.old piece.new withs.now (code_by fragments.now.nodes.items code.now cell)) }
{
    match code {
        Code::Fixed(fragment) => append_all(fragments, *fragment, withs, piece),
        Code::Stored(fragment) => {
            push_instr(piece, Instr::Local(0, cell))?;
            append_all(fragments, *fragment, withs, piece)?;
            push_instr(piece, Instr::Store)
        }
        Code::Compared(fragment, instr) => {
            append_all(fragments, *fragment, withs, piece)?;
            push_instr(piece, Instr::Load)?;
            push_instr(piece, Instr::Local(0, cell))?;
            push_instr(piece, Instr::Load)?;
            push_instr(piece, *instr)
        }
        Code::Labels(labels) => push_labels(piece, labels, cell),
    }
}
