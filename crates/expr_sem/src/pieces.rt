//! The code of a block in the making, and its bytes of data.
ghost use Rattle.std.specs.Prelude.{OnOk, OnErr};
ghost use Rattle.expr_sem.specs.Fragments.{AreSound, IsIn, part};
ghost use Rattle.expr_sem.specs.Pieces.{Appended, IsAsBefore};

use crate::appending::append_all;
use crate::fragments::{Fragment, Fragments};
use crate::steps::Step;
use m2_base::{Memory, Place};

/// A piece of a block's code: its steps, and what it takes of the block's data.
#[derive(Drop)]
pub struct Piece {
    pub steps: Vec<Step>,
    /// Bytes of the block's data.
    pub bytes: Vec<u8>,
    /// The next temporary cell.
    pub cell: u32,
    /// The number of the next byte of the block's data.
    pub byte: u32,
}

/// An open WITH: the type of its record, and the cell that has the record's address.
/// In a list the innermost is the first.
#[derive(Clone, Copy)]
pub struct With {
    pub of: Place,
    pub cell: u32,
}

/// Appends a fragment, one of `fragments`, to a piece of a block's code, within the open WITHs: its steps, its bytes
/// of data, and the temporary cells that it takes. Without memory the piece has what it had before, and no more.
pub fn append(
    fragments: &Fragments,
    fragment: Fragment,
    withs: &[With],
    piece: &mut Piece,
) -> Result<(), Memory>
    requires sound { AreSound fragments.now.nodes.items }
    requires there { IsIn fragments.now.nodes.items fragment }
    ensures ok { OnOk result (Appended piece.old piece.new withs.now (part fragments.now.nodes.items fragment)) }
    ensures err { OnErr result (IsAsBefore piece.old piece.new) }
{
    let (steps, bytes) = (piece.steps.len(), piece.bytes.len());
    let (cell, byte) = (piece.cell, piece.byte);
    let appended = append_all(fragments, fragment, withs, piece);
    if appended.is_err() {
        piece.steps.truncate(steps);
        piece.bytes.truncate(bytes);
        piece.cell = cell;
        piece.byte = byte;
    }
    appended
}
