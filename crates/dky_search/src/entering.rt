//! Rows are put and shown.
ghost use Rattle.std.specs.Prelude.{◌≡◌, ◌≢◌, ◌++◌, [], ℕ, false, length};
ghost use Rattle.m2_base.specs.Scopes.{CanEnter};
ghost use Rattle.scope_table.specs.Rule.{shown_at};
ghost use Rattle.scope_table.specs.Seats.{IsOf, IsSameSeat, view, scope_of, key_of};
ghost use Rattle.dky_search.specs.Seen.{state_in};

use m2_base::Row;
use scope_table::{ScopeTable, TableSeat};

/// Puts rows with their cells, and shows them all in one step.
pub(crate) fn put_all(table: &ScopeTable, seat: &mut TableSeat, rows: &[Row])
    requires table { IsOf table.now seat.old }
    requires none { (view seat.old).put ≡ [] }
    requires can { CanEnter (state_in (key_of table.now) (view seat.old) (scope_of seat.old)) rows.now }
    ensures same { IsSameSeat seat.old seat.new }
    ensures about { (view seat.new).about ≡ (view seat.old).about }
    ensures rows { (shown_at (view seat.new) (scope_of seat.old)).rows
        ≡ (shown_at (view seat.old) (scope_of seat.old)).rows ++ rows.now }
    ensures mark { (shown_at (view seat.new) (scope_of seat.old)).complete ≡ false }
    ensures others { (j : ℕ) → j ≢ scope_of seat.old → shown_at (view seat.new) j ≡ shown_at (view seat.old) j }
    ensures none { (view seat.new).put ≡ [] }
    ensures loads { (view seat.new).loads ≡ (view seat.old).loads }
    ensures looks { (view seat.new).looks ≡ (view seat.old).looks }
{
    let _whole = seat.scope();
    for (at, row) in rows.iter().enumerate() {
        table.put_indexed(seat, row, &rows[..at]);
    }
    let _put = seat.scope();
    table.show(seat);
}
