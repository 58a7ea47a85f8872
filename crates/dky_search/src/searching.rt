//! A search goes from scope to scope, and finds the rows of a key by the index of each.
ghost use Rattle.std.specs.Prelude.{◌≡◌, ◌≢◌, ◌+◌, ◌≤◌, ◌<◌, [], ◌||◌, ℕ, Option, length, min, nat_lt, IsNone};
ghost use Rattle.m2_base.specs.Keys.{before_only, first_keyed};
ghost use Rattle.m2_base.specs.Lists.{Each};
ghost use Rattle.m2_base.specs.Rows.{IsWellFormed};
ghost use Rattle.m2_base.specs.Tables.{first_named};
ghost use Rattle.scope_core.specs.Flights.{found_at, next_of};
ghost use Rattle.scope_table.specs.Looks.{CanNote};
ghost use Rattle.scope_table.specs.Plays.{head_in, sees};
ghost use Rattle.scope_table.specs.Rows.{row_of};
ghost use Rattle.scope_table.specs.Rule.{scopes, shown_at, texts_in, IsBefore};
ghost use Rattle.scope_table.specs.Seats.{IsOf, IsSameSeat, view, scope_of, key_of};
ghost use Rattle.dky_search.specs.Flying.{IsFlown, IsFormed, noted_by};

use m2_base::{Head, Place, Row, RowKey, has_key};
use scope_core::{Flight, Load};
use scope_table::{ScopeTable, TableSeat, probe, seed};

/// A row that the seat has seen; it counts. The count stands still at its last value.
pub(crate) fn load_row(
    table: &ScopeTable,
    seat: &mut TableSeat,
    place: Place,
    rows_loaded: &mut u64,
) -> Row
    requires table { IsOf table.now seat.old }
    requires scope { place.scope < scopes (key_of table.now) }
    requires shown { place.ordinal < length (shown_at (view seat.old) place.scope).rows }
    ensures same { seat.new ≡ seat.old }
    ensures row { result ≡ row_of (shown_at (view seat.old) place.scope).rows place.ordinal }
    ensures formed { IsWellFormed (length (texts_in (key_of table.now)).names) place result }
    ensures counted { rows_loaded.new ≡ min (rows_loaded.old + 1) 18446744073709551615 }
    ensures more { rows_loaded.old ≤ rows_loaded.new }
{
    *rows_loaded = rows_loaded.saturating_add(1);
    table.load_row(seat, place)
}

/// The first row of a key among those that the head counts, which are the ones that the seat has seen.
pub(crate) fn find(
    table: &ScopeTable,
    seat: &mut TableSeat,
    head: Head,
    key: RowKey,
    rows_loaded: &mut u64,
) -> Option<(Place, Row)>
    requires table { IsOf table.now seat.old }
    requires scope { head.scope < scopes (key_of table.now) }
    requires count { head.count ≡ length (shown_at (view seat.old) head.scope).rows }
    ensures same { seat.new ≡ seat.old }
    ensures found { result ≡ found_at head.scope (first_keyed key (shown_at (view seat.old) head.scope).rows 0) }
    ensures formed { IsFormed (length (texts_in (key_of table.now)).names) result }
    ensures counted { rows_loaded.old ≤ rows_loaded.new }
{
    let Head { scope, count, .. } = head;
    let _whole = seat.scope();
    let width = table.width(scope);
    let seed = seed(key);
    for distance in 0..width {
        let cell = probe(width, seed, distance);
        let Some(ordinal) = table.load_cell(seat, scope, cell) else {
            return None;
        };
        if ordinal < count {
            let place = Place { scope, ordinal };
            let row = load_row(table, seat, place, rows_loaded);
            if has_key(&row, key) {
                return Some((place, row));
            }
        }
    }
    None
}

/// Whether the head counts the row of this ordinal, or all rows of its scope.
pub(crate) fn counts(head: Head, ordinal: u32) -> bool
    ensures { result ≡ (head.complete || nat_lt ordinal head.count) }
{
    head.complete || ordinal < head.count
}

/// What was found before an ordinal, with its own.
pub(crate) fn found_before(hit: Option<(Place, Row)>, upto: u32) -> Option<(u32, Row)>
    ensures { (s : ℕ) (o : Option (ℕ × Row)) → hit ≡ found_at s o → result ≡ before_only upto o }
{
    match hit {
        Some((place, row)) => {
            if place.ordinal < upto {
                Some((place.ordinal, row))
            } else {
                None
            }
        }
        None => None,
    }
}

/// Loads the head of a scope, and finds what its rows have of a name.
fn load(
    table: &ScopeTable,
    seat: &mut TableSeat,
    scope: u32,
    name: u32,
    rows_loaded: &mut u64,
) -> Load
    requires table { IsOf table.now seat.old }
    requires scope { scope < scopes (key_of table.now) }
    requires named { name ≢ 0 }
    ensures same { IsSameSeat seat.old seat.new }
    ensures sees { view seat.new ≡ sees (view seat.old) scope (shown_at (view seat.new) scope) }
    ensures later { IsBefore (shown_at (view seat.old) scope) (shown_at (view seat.new) scope) }
    ensures mine { scope ≡ scope_of seat.old → shown_at (view seat.new) scope ≡ shown_at (view seat.old) scope }
    ensures head { result.head ≡ head_in scope (shown_at (view seat.new) scope) }
    ensures hit { result.hit ≡ found_at scope (first_named name (shown_at (view seat.new) scope).rows 0) }
    ensures formed { IsFormed (length (texts_in (key_of table.now)).names) result.hit }
    ensures counted { rows_loaded.old ≤ rows_loaded.new }
{
    let head = table.load_head(seat, scope);
    let hit = find(table, seat, head, RowKey::Name(name), rows_loaded);
    Load { head, hit }
}

/// Takes a search to its reply.
pub(crate) fn fly(
    table: &ScopeTable,
    seat: &mut TableSeat,
    flight: &mut Flight,
    name: u32,
    rows_loaded: &mut u64,
)
    requires table { IsOf table.now seat.old }
    requires start { flight.old.loads ≡ [] }
    requires exist { Each (λ s. s < scopes (key_of table.now)) flight.old.chain }
    requires name { flight.old.name ≡ name }
    requires named { name ≢ 0 }
    ensures same { IsSameSeat seat.old seat.new }
    ensures chain { flight.new.chain ≡ flight.old.chain }
    ensures name { flight.new.name ≡ flight.old.name }
    ensures flown { IsFlown (key_of table.now) (scope_of seat.old) (view seat.old) (view seat.new) flight.new }
    ensures ended { IsNone (next_of flight.new) }
    ensures counted { rows_loaded.old ≤ rows_loaded.new }
{
    while let Some(scope) = flight.next() {
        let load = load(table, seat, scope, name, rows_loaded);
        flight.took(load.head, load.hit);
    }
}

/// Notes a search that has its reply as a look for the token `at`, if there was a scope to be searched.
pub(crate) fn note(
    table: &ScopeTable,
    seat: &mut TableSeat,
    at: u32,
    chain: &[u32],
    flight: &Flight,
)
    requires table { IsOf table.now seat.old }
    requires can { 0 < length chain.now → CanNote (key_of table.now) (view seat.old) flight.now }
    ensures same { IsSameSeat seat.old seat.new }
    ensures noted { view seat.new ≡ noted_by at flight.now chain.now (view seat.old) }
{
    if !chain.is_empty() {
        table.note_look(seat, at, flight);
    }
}
