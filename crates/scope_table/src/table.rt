//! The table and its seats.
ghost use Rattle.std.specs.Prelude.{◌≡◌, ◌≢◌, ℕ, suc, ◌+◌, ◌-◌, ◌*◌, ◌^◌, ◌<◌, ◌≤◌, ◌∷◌, ◌++◌, ◌⊎◌, [], true, false};
ghost use Rattle.std.specs.Prelude.{length, take, slice_index, MatchOption};
ghost use Rattle.scope_table.specs.Cells.{probe as probe_of, seed as seed_of, IsAmong, IsIndexed, IsFirstEmpty};
ghost use Rattle.scope_table.specs.Cells.{IsFull};
ghost use Rattle.m2_base.specs.Rows.{at_place, IsWellFormed};
ghost use Rattle.scope_table.specs.Rows.{words_of, row_of, rows_of};
ghost use Rattle.scope_table.specs.Rule.{shown_at, empty_at, scopes, base, mid, width, texts_in, times, IsFair};
ghost use Rattle.scope_table.specs.Rule.{AreFormed, Begins, IsBefore, IsLaid, IsSeated, IsSound};
ghost use Rattle.scope_table.specs.Looks.{look_of, CanNote};
ghost use Rattle.scope_table.specs.Plays.{head_in, sees, marks, puts, shows, seals, grown, ended, notes, told_of};
ghost use Rattle.scope_table.specs.Plays.{IsWordOf, HasRoom, CanPut, CanMark, HasPut};

use crate::law::{
    Law, LoadCell, LoadHead, LoadRow, Note, NoteLook, Noted, OnceEach, PutCell, PutWord, Seal,
    Show, Tell, Together, Told,
};
use crate::view::{About, Bases, View};
use crate::words::{from_words, to_words};
use atomic_table::{Seat, Table};
use m2_base::{Head, Place, Row, RowKey, has_key, row_key};
use scope_core::Flight;
use std::alloc::Global;
use std::marker::Brand;

/// The tables of all scopes of a unit. Any number of threads may have it at once; each steps with seats of its own.
#[derive(Drop)]
pub struct ScopeTable {
    pub(crate) table: Table<(), View, About, Law, Global>,
    bases: Bases,
    mids: Bases,
    ghost bases_are: { bases ≡ table.shared.key.bases.value },
    ghost mids_are: { mids ≡ table.shared.key.mids.value },
    ghost all_mids: { length table.shared.key.mids.value ≡ scopes table.shared.key },
    ghost behind: { (j : ℕ) → j < scopes table.shared.key → mid table.shared.key j < base table.shared.key (suc j) },
    ghost narrow: { (j : ℕ) → j < scopes table.shared.key → width table.shared.key j ≤ 2 ^ 32 },
    ghost few: { (j : ℕ) → j < scopes table.shared.key
        → mid table.shared.key j < base table.shared.key j + 8 * width table.shared.key j },
    ghost laid: { IsLaid table.shared.key },
    ghost small: { base table.shared.key (scopes table.shared.key) < 2 ^ 63 },
    ghost wide: { table.shared.table_id.words ≡ base table.shared.key (scopes table.shared.key) },
}

/// The right to fill one scope of a table, with what was seen of all scopes.
#[derive(Drop)]
pub struct TableSeat {
    pub(crate) seat: Seat<(), View>,
    scope: u32,
    shown: u64,
    waiting: u64,
    closed: bool,
    ghost seated: { IsSeated seat.me.0 scope shown waiting closed },
    ghost bare: { seat.me.1 ≡ [] },
}

pub(crate) fn make_table(
    table: Table<(), View, About, Law, Global>,
    bases: Bases,
    mids: Bases,
) -> ScopeTable
    requires bases { bases ≡ table.shared.key.bases.value }
    requires mids { mids ≡ table.shared.key.mids.value }
    requires all_mids { length table.shared.key.mids.value ≡ scopes table.shared.key }
    requires behind { (j : ℕ) → j < scopes table.shared.key → mid table.shared.key j < base table.shared.key (suc j) }
    requires narrow { (j : ℕ) → j < scopes table.shared.key → width table.shared.key j ≤ 2 ^ 32 }
    requires few { (j : ℕ) → j < scopes table.shared.key
        → mid table.shared.key j < base table.shared.key j + 8 * width table.shared.key j }
    requires laid { IsLaid table.shared.key }
    requires small { base table.shared.key (scopes table.shared.key) < 2 ^ 63 }
    requires wide { table.shared.table_id.words ≡ base table.shared.key (scopes table.shared.key) }
    ensures { result.table.shared ≡ table.shared }
{
    ScopeTable { table, bases, mids }
}

impl TableSeat {
    ghost use Rattle.scope_table.specs.Seats.{view, scope_of, IsWhole};

    /// The scope that it fills, and what always holds of a seat: what it has seen of each scope keeps to the rule,
    /// its own scope is the one that it has the right to, and scope 0 is seen complete.
    pub fn scope(&self) -> u32
        ensures scope { result ≡ scope_of self.now }
        ensures whole { IsWhole self.now }
    {
        self.scope
    }
}

/// The seat of a scope that is empty.
pub(crate) fn make_seat(seat: Seat<(), View>, scope: u32) -> TableSeat
    requires mine { seat.me.0.rights ≡ scope ∷ [] }
    requires bare { seat.me.1 ≡ [] }
    requires wide { length seat.me.0.seen ≡ scopes seat.me.0.about }
    requires scope { scope < scopes seat.me.0.about }
    requires empty { shown_at seat.me.0 scope ≡ empty_at seat.me.0.about scope }
    requires put { seat.me.0.put ≡ [] }
    requires sound { IsSound seat.me.0 }
    requires zero { scope ≢ 0 → (shown_at seat.me.0 0).complete ≡ true }
    ensures { (result.seat ≡ seat) × (result.scope ≡ scope) }
{
    TableSeat {
        seat,
        scope,
        shown: 0,
        waiting: 0,
        closed: false,
    }
}

impl ScopeTable {
    ghost use Rattle.scope_table.specs.Seats.{view, scope_of, key_of, id_of, IsOf, IsSameSeat};

    /// The head of a scope, which the seat has seen then, with the rows that it counts. Later the scope has the same
    /// rows and maybe more, and after it was complete nothing changes.
    /// Of the scope that it fills the seat has seen all.
    pub fn load_head(&self, seat: &mut TableSeat, scope: u32) -> Head
        requires table { IsOf self.now seat.old }
        requires scope { scope < scopes (key_of self.now) }
        ensures same { IsSameSeat seat.old seat.new }
        ensures head { result ≡ head_in scope (shown_at (view seat.new) scope) }
        ensures later { IsBefore (shown_at (view seat.old) scope) (shown_at (view seat.new) scope) }
        ensures mine { scope ≡ scope_of seat.old → shown_at (view seat.new) scope ≡ shown_at (view seat.old) scope }
        ensures sees { view seat.new ≡ sees (view seat.old) scope (shown_at (view seat.new) scope) }
        ensures others { (j : ℕ) → ¬ (j ≡ scope) → shown_at (view seat.new) j ≡ shown_at (view seat.old) j }
        ensures fair { IsFair (key_of self.now) scope (shown_at (view seat.new) scope).rows
            (shown_at (view seat.new) scope).complete }
    {
        let word = self
            .table
            .shared
            .load::<LoadHead>(&mut seat.seat, scope as usize);
        Head {
            scope,
            count: (word / 2) as u32,
            complete: word % 2 == 1,
        }
    }

    /// A word of the rows that the seat has seen.
    fn load_word(&self, seat: &mut TableSeat, at: usize) -> u64
        requires table { IsOf self.now seat.old }
        requires word { at < (id_of self.now).words }
        ensures same { seat.new ≡ seat.old }
        ensures word { (j i : ℕ) → j < scopes (key_of self.now) → i < length (shown_at (view seat.old) j).rows
            → IsWordOf (view seat.old) j i at result }
    {
        self.table.shared.load::<LoadRow>(&mut seat.seat, at)
    }

    /// The row that was shown there, which is well formed.
    pub fn load_row(&self, seat: &mut TableSeat, place: Place) -> Row
        requires table { IsOf self.now seat.old }
        requires scope { place.scope < scopes (key_of self.now) }
        requires shown { place.ordinal < length (shown_at (view seat.old) place.scope).rows }
        ensures same { seat.new ≡ seat.old }
        ensures row { result ≡ row_of (shown_at (view seat.old) place.scope).rows place.ordinal }
        ensures formed { IsWellFormed (length (texts_in (key_of self.now)).names)
            (at_place place.scope place.ordinal) result }
    {
        let first = (self.bases.at(place.scope) + 8 * place.ordinal as u64) as usize;
        let mut words = [0; 8];
        for field in 0..8 {
            words[field] = self.load_word(seat, first + field);
        }
        from_words(&words)
    }

    /// How many cells the scope has.
    pub fn width(&self, scope: u32) -> u64
        requires { scope < scopes (key_of self.now) }
        ensures { (result ≡ width (key_of self.now) scope) × (0 < result) × (result ≤ 2 ^ 32) }
    {
        self.bases.next(scope) - self.mids.at(scope)
    }

    /// The ordinal in a cell, or none where the cell is empty. A cell that wasn't empty when the head of its scope
    /// was loaded is found as it was then, and so is each cell of the scope that the seat fills.
    pub fn load_cell(&self, seat: &mut TableSeat, scope: u32, cell: u32) -> Option<u32>
        requires table { IsOf self.now seat.old }
        requires scope { scope < scopes (key_of self.now) }
        requires cell { cell < width (key_of self.now) scope }
        ensures same { seat.new ≡ seat.old }
        ensures found { MatchOption result (slice_index (shown_at (view seat.old) scope).cells cell ≡ 0)
            (λ o. slice_index (shown_at (view seat.old) scope).cells cell ≢ 0
            → slice_index (shown_at (view seat.old) scope).cells cell ≡ o + 1) }
        ensures mine { scope ≡ scope_of seat.old
            → MatchOption result (slice_index (shown_at (view seat.old) scope).cells cell ≡ 0)
            (λ o. slice_index (shown_at (view seat.old) scope).cells cell ≡ o + 1) }
    {
        let at = (self.mids.at(scope) + cell as u64) as usize;
        let word = self.table.shared.load::<LoadCell>(&mut seat.seat, at);
        if word == 0 {
            None
        } else {
            Some((word - 1) as u32)
        }
    }

    /// Puts the ordinal of a row that is put and not shown into its cell: the first empty one from the home of its
    /// key.
    pub fn put_cell(&self, seat: &mut TableSeat, cell: u32, ordinal: u32)
        requires table { IsOf self.now seat.old }
        requires going { (shown_at (view seat.old) (scope_of seat.old)).complete ≡ false }
        requires row { CanMark (width (key_of self.now) (scope_of seat.old)) (view seat.old)
            (scope_of seat.old) cell ordinal }
        ensures same { IsSameSeat seat.old seat.new }
        ensures marked { view seat.new ≡ marks (view seat.old) (scope_of seat.old) cell (ordinal + 1) }
    {
        let at = (self.mids.at(seat.scope) + cell as u64) as usize;
        self.table
            .shared
            .store::<PutCell>(&mut seat.seat, at, ordinal as u64 + 1);
    }

    /// Puts the words of a row, the first of them here.
    fn put_words(&self, seat: &mut Seat<(), View>, first: usize, words: &[u64; 8])
        requires table { (seat.old.table_id ≡ id_of self.now) × (seat.old.me.0.about ≡ key_of self.now) }
        requires place { CanPut seat.old.me.0 first }
        ensures same { (seat.new.table_id ≡ seat.old.table_id) × (seat.new.me.1 ≡ seat.old.me.1) }
        ensures put { seat.new.me.0 ≡ puts seat.old.me.0 words.now }
    {
        for field in 0..8 {
            self.table
                .shared
                .store::<PutWord>(seat, first + field, words[field]);
        }
    }

    /// Puts a row into the first place past the rows that are shown and put.
    pub fn put_row(&self, seat: &mut TableSeat, row: &Row)
        requires table { IsOf self.now seat.old }
        requires going { (shown_at (view seat.old) (scope_of seat.old)).complete ≡ false }
        requires room { HasRoom (key_of self.now) (view seat.old) (scope_of seat.old) }
        ensures same { IsSameSeat seat.old seat.new }
        ensures put { view seat.new ≡ puts (view seat.old) (words_of row.now) }
        ensures rows { (grown (view seat.new) (scope_of seat.old)).rows
            ≡ (grown (view seat.old) (scope_of seat.old)).rows ++ row.now ∷ [] }
    {
        let first = (self.bases.at(seat.scope) + 8 * (seat.shown + seat.waiting)) as usize;
        self.put_words(&mut seat.seat, first, &to_words(row));
        seat.waiting += 1;
    }

    /// The first empty cell from the home of a key in the scope that the seat fills; none where one of these rows,
    /// which were put and aren't shown, has the key and a cell before that.
    pub fn first_empty(&self, seat: &mut TableSeat, key: RowKey, before: &[Row]) -> Option<u32>
        requires table { IsOf self.now seat.old }
        ensures same { seat.new ≡ seat.old }
        ensures cell { MatchOption result (IsFull (width (key_of self.now) (scope_of seat.old))
            (seed_of key) (shown_at (view seat.old) (scope_of seat.old)).cells ⊎ IsAmong key before.now)
            (λ c. IsFirstEmpty (width (key_of self.now) (scope_of seat.old)) (seed_of key) c
            (shown_at (view seat.old) (scope_of seat.old)).cells) }
    {
        let scope = seat.scope;
        let shown = seat.shown;
        let width = self.width(scope);
        let seed = seed(key);
        for distance in 0..width {
            let cell = probe(width, seed, distance);
            let Some(ordinal) = self.load_cell(seat, scope, cell) else {
                return Some(cell);
            };
            if is_row_of(before, shown, ordinal, key) {
                return None;
            }
        }
        None
    }

    /// Puts a row with its cell, if it has a key and none of these rows before it, which were put and aren't shown,
    /// has the same. Where the rows put before have theirs, all have then.
    pub fn put_indexed(&self, seat: &mut TableSeat, row: &Row, before: &[Row])
        requires table { IsOf self.now seat.old }
        requires going { (shown_at (view seat.old) (scope_of seat.old)).complete ≡ false }
        requires room { HasRoom (key_of self.now) (view seat.old) (scope_of seat.old) }
        requires before { Begins before.now (rows_of (view seat.old).put) }
        requires index { IsIndexed (width (key_of self.now) (scope_of seat.old))
            (grown (view seat.old) (scope_of seat.old)).rows (grown (view seat.old) (scope_of seat.old)).cells }
        ensures same { IsSameSeat seat.old seat.new }
        ensures rows { (grown (view seat.new) (scope_of seat.old)).rows
            ≡ (grown (view seat.old) (scope_of seat.old)).rows ++ row.now ∷ [] }
        ensures index { IsIndexed (width (key_of self.now) (scope_of seat.old))
            (grown (view seat.new) (scope_of seat.old)).rows (grown (view seat.new) (scope_of seat.old)).cells }
        ensures put { HasPut (view seat.old) (view seat.new) (scope_of seat.old) row.now }
    {
        let ordinal = seat.shown + seat.waiting;
        self.put_row(seat, row);
        let Some(key) = row_key(row) else {
            return;
        };
        let Some(cell) = self.first_empty(seat, key, before) else {
            return;
        };
        self.put_cell(seat, cell, ordinal as u32);
    }

    /// Shows all rows that were put, in one step.
    pub fn show(&self, seat: &mut TableSeat)
        requires table { IsOf self.now seat.old }
        requires going { (shown_at (view seat.old) (scope_of seat.old)).complete ≡ false }
        requires fair { IsFair (key_of self.now) (scope_of seat.old)
            (grown (view seat.old) (scope_of seat.old)).rows false }
        requires formed { AreFormed (key_of self.now) (scope_of seat.old)
            (length (shown_at (view seat.old) (scope_of seat.old)).rows) (rows_of (view seat.old).put) }
        requires index { IsIndexed (width (key_of self.now) (scope_of seat.old))
            (grown (view seat.old) (scope_of seat.old)).rows (grown (view seat.old) (scope_of seat.old)).cells }
        ensures same { IsSameSeat seat.old seat.new }
        ensures shown { view seat.new ≡ shows (view seat.old) (scope_of seat.old) }
    {
        let count = seat.shown + seat.waiting;
        self.table
            .shared
            .store::<Show>(&mut seat.seat, seat.scope as usize, 2 * count);
        seat.shown = count;
        seat.waiting = 0;
    }

    /// Marks the scope as complete.
    pub fn seal(&self, seat: &mut TableSeat)
        requires table { IsOf self.now seat.old }
        requires going { (shown_at (view seat.old) (scope_of seat.old)).complete ≡ false }
        requires none { (view seat.old).put ≡ [] }
        requires fair { IsFair (key_of self.now) (scope_of seat.old)
            (ended (view seat.old) (scope_of seat.old)).rows true }
        ensures same { IsSameSeat seat.old seat.new }
        ensures sealed { view seat.new ≡ seals (view seat.old) (scope_of seat.old) }
    {
        self.table
            .shared
            .store::<Seal>(&mut seat.seat, seat.scope as usize, 2 * seat.shown + 1);
        seat.closed = true;
    }

    fn note_as<J: Noted>(&self, seat: &mut TableSeat, _at: u32, _flight: &Flight)
        requires table { IsOf self.now seat.old }
        requires look { J.look ≡ look_of _at _flight.now }
        requires flown { CanNote (key_of self.now) (view seat.old) _flight.now }
        ensures same { IsSameSeat seat.old seat.new }
        ensures noted { view seat.new ≡ notes (view seat.old) J.look }
    {
        self.table.shared.load::<NoteLook<J>>(&mut seat.seat, 0);
    }

    /// Notes a search that has its reply as a look of the seat, for the token `at`.
    pub fn note_look(&self, seat: &mut TableSeat, at: u32, flight: &Flight)
        requires table { IsOf self.now seat.old }
        requires flown { CanNote (key_of self.now) (view seat.old) flight.now }
        ensures same { IsSameSeat seat.old seat.new }
        ensures noted { view seat.new ≡ notes (view seat.old) (look_of at flight.now) }
    {
        self.note_as::<Brand>(seat, at, flight);
    }

    fn tell_as<J: Told>(&self, to: &mut TableSeat, note: Seat<(), View>)
        requires table { IsOf self.now to.old }
        requires about { J.about ≡ key_of self.now }
        requires note { (note.table_id ≡ id_of self.now) × (note.me.1 ≡ []) × (note.me.0.about ≡ J.about)
            × IsSound note.me.0 }
        ensures same { IsSameSeat to.old to.new }
        ensures told { view to.new ≡ told_of (view to.old) note.me.0 }
    {
        self.table.shared.join_seat::<Tell<J>>(&mut to.seat, note);
    }

    /// Tells a seat what another has seen: afterwards it has seen, of each scope but its own, the later of what the
    /// two have, and all else of both is as before.
    pub fn tell(&self, from: &mut TableSeat, to: &mut TableSeat)
        requires from { IsOf self.now from.old }
        requires to { IsOf self.now to.old }
        ensures from { from.new ≡ from.old }
        ensures same { IsSameSeat to.old to.new }
        ensures told { view to.new ≡ told_of (view to.old) (view from.old) }
    {
        let note = self.table.shared.split_seat::<Note>(&mut from.seat);
        self.tell_as::<Brand>(to, note);
    }

    fn join_as<J: Told>(&self, one: &mut Seat<(), View>, other: Seat<(), View>)
        requires about { J.about ≡ key_of self.now }
        requires table { (one.old.table_id ≡ id_of self.now) × (other.table_id ≡ id_of self.now) × (other.me.1 ≡ [])
            × (0 < (id_of self.now).words) }
        requires both { (j : ℕ) × (0 < times j one.old.me.0.rights) × (0 < times j other.me.0.rights) }
        ensures { (one.new.table_id ≡ one.old.table_id)
            × (one.new.me.0.rights ≡ one.old.me.0.rights ++ other.me.0.rights) }
    {
        self.table.shared.join_seat::<Together<J>>(one, other);
    }

    /// No two seats fill one scope, so this call is never reached.
    pub fn apart(&self, one: TableSeat, other: TableSeat)
        requires one { IsOf self.now one }
        requires other { IsOf self.now other }
        requires same { scope_of one ≡ scope_of other }
        ensures never { ◌≡◌ {A = ℕ} 0 1 }
    {
        let TableSeat {
            seat: mut first,
            scope: _,
            shown: _,
            waiting: _,
            closed: _,
        } = one;
        let TableSeat {
            seat: second,
            scope: _,
            shown: _,
            waiting: _,
            closed: _,
        } = other;
        self.join_as::<Brand>(&mut first, second);
        self.table.shared.load::<OnceEach>(&mut first, 0);
    }
}

/// Whether the row of this ordinal is one of these, the first of which comes behind so many, and has the key.
fn is_row_of(rows: &[Row], first: u64, ordinal: u32, key: RowKey) -> bool
    ensures { result ≡ true → IsAmong key rows.now }
{
    let Some(index) = (ordinal as u64).checked_sub(first) else {
        return false;
    };
    match rows.get(index as usize) {
        Some(row) => has_key(row, key),
        None => false,
    }
}

/// The number by which the cells of a key are spread: of a name its own.
pub fn seed(key: RowKey) -> u32
    ensures { result ≡ seed_of key }
{
    match key {
        RowKey::Name(name) => name,
        RowKey::Member(own, name) => {
            ((own % 4294967296 * 2246822519 + name % 4294967296) % 4294967296) as u32
        }
    }
}

/// The cell at a distance from the home of a seed, of so many.
pub fn probe(width: u64, seed: u32, distance: u64) -> u32
    requires { (0 < width) × (width ≤ 2 ^ 32) × (distance < width) }
    ensures { result ≡ probe_of width seed distance }
{
    let home = seed as u64 * 2654435761 % 4294967296 / (4294967296 / width);
    ((home + distance) % width) as u32
}
