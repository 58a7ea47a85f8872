//! Where the variables of a block begin.
ghost use Rattle.std.specs.Prelude.{◌≡◌, ◌<◌, ◌≤◌, ◌+◌};
ghost use Rattle.m2_base.specs.Rows.{row_meaning};
ghost use Rattle.m2_base.specs.States.{Waits, fills_of};
ghost use Rattle.m2_base.specs.Statics.BlockRows.{cell_after as spec_after, cells_after, first_cell as spec_first};
ghost use Rattle.m2_base.specs.Statics.Cells.{most_cells};
ghost use Rattle.m2_base.specs.Tables.{rows_at};
ghost use Rattle.type_rules.specs.Asks.{Reads, WhereKnown, WhereWaiting};
ghost use Rattle.type_rules.specs.Scenes.{IsRowOf, Suits, WhereTold, rows_of, scene_of};

use crate::cells::capped;
use crate::variables::cells_in;
use m2_base::{Around, Ask, Place, Row, RowMeaning, Scopes, StreamKind, read_row};
use type_rules::{row_at, row_before};

/// The next free cell after a row of the own definition: a variable has the cells of its type.
#[tactic(auto, using(type_rules::proofs::Reading::reading))]
fn cell_after<S: Scopes>(
    scopes: &mut S,
    around: &Around,
    place: Place,
    row: &Row,
    cell: u32,
) -> Ask<u32>
    requires suits { Suits (S.state scopes.old).frame around.now }
    requires before { place.scope < fills_of (S.state scopes.old) }
    requires row { IsRowOf (S.state scopes.old).frame place row.now }
    requires cell { cell ≤ most_cells + 1 }
    ensures reads { Reads (S.state scopes.old) (S.state scopes.new) }
    ensures waits { WhereWaiting result (λ head. Waits (S.state scopes.old) (S.state scopes.new) head) }
    ensures told { WhereTold (S.state scopes.old).frame (λ made.
        WhereKnown result
        (λ next. next ≡ spec_after (scene_of (S.state scopes.old).frame made around.now) cell (row_meaning row.now))) }
    ensures cell { WhereKnown result (λ next. next ≤ most_cells + 1) }
{
    let _scope = place.scope;
    let RowMeaning::Var(of, _, _) = read_row(row) else {
        return Ask::Known(cell);
    };
    let row = known!(row_at(scopes, around, of));
    Ask::Known(capped(cell as u64 + cells_in(&row)))
}

/// The next free cell after all variables of the own definition.
#[tactic(auto, using(type_rules::proofs::Reading::reading))]
fn cell_behind<S: Scopes>(scopes: &mut S, around: &Around, own: u32) -> Ask<u32>
    requires suits { Suits (S.state scopes.old).frame around.now }
    requires before { own < fills_of (S.state scopes.old) }
    ensures reads { Reads (S.state scopes.old) (S.state scopes.new) }
    ensures waits { WhereWaiting result (λ head. Waits (S.state scopes.old) (S.state scopes.new) head) }
    ensures told { WhereTold (S.state scopes.old).frame (λ made.
        WhereKnown result (λ cell. cell ≡ cells_after (scene_of (S.state scopes.old).frame made around.now) 0
        (rows_at (rows_of (S.state scopes.old).frame made) own))) }
    ensures cell { WhereKnown result (λ cell. cell ≤ most_cells + 1) }
{
    let mut cell = 0;
    for ordinal in 0..u32::MAX {
        let place = Place {
            scope: own,
            ordinal,
        };
        let Some(row) = known!(row_before(scopes, around, place)) else {
            return Ask::Known(cell);
        };
        cell = known!(cell_after(scopes, around, place, &row, cell));
    }
    Ask::Known(cell)
}

/// The first cell of a block's variables. Those of the own definition come first among an implementation module's
/// cells, so that it waits until that is complete.
#[tactic(auto, using(type_rules::proofs::Reading::reading))]
pub fn first_cell<S: Scopes>(scopes: &mut S, around: &Around, kind: StreamKind) -> Ask<u32>
    requires suits { Suits (S.state scopes.old).frame around.now }
    ensures reads { Reads (S.state scopes.old) (S.state scopes.new) }
    ensures waits { WhereWaiting result (λ head. Waits (S.state scopes.old) (S.state scopes.new) head) }
    ensures told { WhereTold (S.state scopes.old).frame (λ made.
        WhereKnown result
        (λ cell. cell ≡ spec_first (scene_of (S.state scopes.old).frame made around.now) kind around.now.own)) }
    ensures cell { WhereKnown result (λ cell. cell ≤ most_cells + 1) }
{
    match (kind, around.own) {
        (StreamKind::Main, Some(own)) => cell_behind(scopes, around, own),
        _ => Ask::Known(0),
    }
}
