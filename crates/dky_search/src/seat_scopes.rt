//! Scopes over the shared tables.
ghost use Rattle.std.specs.Prelude.{◌≡◌, ◌≢◌, ◌++◌, ◌∷◌, [], ◌≤◌, ◌<◌, ℕ, List, length, map, Some};
ghost use Rattle.m2_base.specs.Keys.{one_thread_field};
ghost use Rattle.m2_base.specs.Lists.{Each, HasNoRepeats};
ghost use Rattle.m2_base.specs.Scopes.{CanSearch, Searched, CanFetch, Fetched, Selected, CanEnter, Entered};
ghost use Rattle.m2_base.specs.Scopes.{CanComplete, Completed, looks_of};
ghost use Rattle.m2_base.specs.States.{IsSound, areas_of, fills_of, texts_of};
ghost use Rattle.m2_base.specs.Tables.{Table, one_thread, one_thread_row};
ghost use Rattle.scope_core.specs.Events.{Stays};
ghost use Rattle.scope_core.specs.Fronts.{ShowsFront};
ghost use Rattle.scope_core.specs.Heads.{heads_of};
ghost use Rattle.scope_table.specs.Plays.{head_in};
ghost use Rattle.scope_table.specs.Rule.{shown_at, texts_in};
ghost use Rattle.scope_table.specs.Seats.{IsOf, view, scope_of, key_of};
ghost use Rattle.dky_search.specs.Seen.{behind, tables_in, look_of, state_in, HaveGrown, IsLawful};

use crate::entering::put_all;
use crate::searching::{counts, find, fly, found_before, load_row, note};
use m2_base::{Ask, Head, Place, Reply, Row, RowKey, Scopes, Texts};
use scope_core::Flight;
use scope_table::{ScopeTable, TableSeat};

/// The scopes of a unit over tables that other threads fill and search meanwhile. It fills the scope of its seat.
#[derive(Drop)]
pub struct SeatScopes<'t> {
    table: &'t ScopeTable,
    seat: TableSeat,
    /// How many rows its searches and fetches have loaded; it stands still at its last value.
    rows_loaded: u64,
    ghost is: { IsOf table.now seat },
    ghost none_put: { (view seat).put ≡ [] },
    ghost inner: { scope_of seat ≢ 0 },
}

impl<'t> SeatScopes<'t> {
    ghost use Rattle.dky_search.specs.SeatScopes.{table_in, view_in, loaded_in, state_of, IsTold};

    /// The scopes of these texts, for which the table was opened. It fills the scope of the seat.
    pub fn new(table: &'t ScopeTable, _texts: &'t Texts, seat: TableSeat) -> SeatScopes<'t>
        requires texts { texts_in (key_of table.now) ≡ _texts.now }
        requires table { IsOf table.now seat }
        requires scope { scope_of seat ≢ 0 }
        requires none { (view seat).put ≡ [] }
        ensures table { table_in result ≡ table.now }
        ensures view { view_in result ≡ view seat }
        ensures state { state_of result ≡ state_in (key_of table.now) (view seat) (scope_of seat) }
        ensures texts { texts_of (state_of result) ≡ _texts.now }
        ensures loaded { loaded_in result ≡ 0 }
    {
        SeatScopes {
            table,
            seat,
            rows_loaded: 0,
        }
    }

    /// The scope that it fills, and what always holds: what is entered there is the front of its finished rows.
    pub fn filled(&self) -> u32
        ensures filled { result ≡ fills_of (state_of self.now) }
        ensures inner { result ≢ 0 }
        ensures sound { IsSound (state_of self.now) }
        ensures front { ShowsFront (state_of self.now) }
        ensures inside { fills_of (state_of self.now) < length (areas_of (state_of self.now)) }
        ensures once { HasNoRepeats (λ r. r.name) (state_of self.now).frame.entered }
    {
        self.seat.scope()
    }

    /// How many rows its searches and fetches have loaded; it stands still at 2^64 - 1.
    pub fn rows_loaded(&self) -> u64
        ensures { result ≡ loaded_in self.now }
    {
        self.rows_loaded
    }

    /// Tells another handle on the table what this one has seen: of each scope but its own it has afterwards seen
    /// the later of the two heads.
    pub fn tell(&mut self, to: &mut SeatScopes<'t>)
        requires table { table_in to.old ≡ table_in self.old }
        ensures from { view_in self.new ≡ view_in self.old }
        ensures state { state_of self.new ≡ state_of self.old }
        ensures same { (table_in self.new ≡ table_in self.old) × (loaded_in self.new ≡ loaded_in self.old) }
        ensures told { IsTold (state_of self.old) (state_of to.old) (state_of to.new) }
        ensures table { table_in to.new ≡ table_in to.old }
        ensures loaded { loaded_in to.new ≡ loaded_in to.old }
    {
        let _whole = (self.seat.scope(), to.seat.scope());
        self.table.tell(&mut self.seat, &mut to.seat);
    }

    /// No two handles on one table fill the same scope, so this call is never reached.
    pub fn apart(self, other: SeatScopes<'t>)
        requires table { table_in other ≡ table_in self }
        requires same { fills_of (state_of other) ≡ fills_of (state_of self) }
        ensures never { ◌≡◌ {A = ℕ} 0 1 }
    {
        let SeatScopes {
            table,
            seat: one,
            rows_loaded: _,
        } = self;
        let SeatScopes {
            table: _,
            seat: two,
            rows_loaded: _,
        } = other;
        table.apart(one, two)
    }
}

impl<'t> Scopes for SeatScopes<'t> {
    ghost use Rattle.dky_search.specs.SeatScopes.{table_in, view_in, loaded_in, state_of, counted, StopsNew, WaitsNew};
    ghost use Rattle.dky_search.specs.SeatScopes.{StaysKnown};

    ghost state = { state_of };

    // The answer is what one thread gives in the tables that the handle has then seen, and its heads are the loads of
    // this call. Its look is lawful in these tables, and in all that they may become.
    fn search(&mut self, at: u32, chain: &[u32], name: u32) -> Reply
        requires { CanSearch (state_of self.old) chain.now name }
        ensures searched { Searched (state_of self.old) (state_of self.new) at chain.now name result }
        ensures answer { result ≡ one_thread (tables_in (view_in self.new)) chain.now name }
        ensures loads { (view_in self.new).loads
            ≡ (view_in self.old).loads ++ heads_of (tables_in (view_in self.new)) chain.now name }
        ensures look { (state_of self.new).looks ≡ Some (map look_of (view_in self.old).looks
            ++ looks_of at name chain.now (heads_of (tables_in (view_in self.new)) chain.now name) result) }
        ensures lawful { (later : List Table) → HaveGrown (tables_in (view_in self.new)) later → Each (IsLawful later)
            (looks_of at name chain.now (heads_of (tables_in (view_in self.new)) chain.now name) result) }
        ensures stops { StopsNew (state_of self.old) result }
        ensures grown { HaveGrown (tables_in (view_in self.old)) (tables_in (view_in self.new)) }
        ensures stays { (later : List Table) → HaveGrown (tables_in (view_in self.new)) later
            → Stays result (one_thread later chain.now name) }
        ensures table { table_in self.new ≡ table_in self.old }
        ensures counted { loaded_in self.old ≤ loaded_in self.new }
    {
        let mut flight = Flight::start(chain, name);
        fly(
            self.table,
            &mut self.seat,
            &mut flight,
            name,
            &mut self.rows_loaded,
        );
        let Some(reply) = flight.reply() else {
            unreachable!();
        };
        note(self.table, &mut self.seat, at, chain, &flight);
        let _whole = self.seat.scope();
        reply
    }

    fn fetch(&mut self, _at: u32, place: Place) -> Ask<Option<Row>>
        requires { CanFetch (state_of self.old) place }
        ensures fetched { Fetched (state_of self.old) (state_of self.new) place result }
        ensures answer { result ≡ one_thread_row (tables_in (view_in self.new)) place }
        ensures loads { (view_in self.new).loads
            ≡ (view_in self.old).loads ++ head_in place.scope (shown_at (view_in self.new) place.scope) ∷ [] }
        ensures waits { WaitsNew (state_of self.old) result }
        ensures grown { HaveGrown (tables_in (view_in self.old)) (tables_in (view_in self.new)) }
        ensures stays { (later : List Table) → HaveGrown (tables_in (view_in self.new)) later
            → StaysKnown result (one_thread_row later place) }
        ensures table { table_in self.new ≡ table_in self.old }
        ensures counted { loaded_in self.new ≡ counted result (loaded_in self.old) }
    {
        let head = self.table.load_head(&mut self.seat, place.scope);
        let _whole = self.seat.scope();
        if place.ordinal < head.count {
            let row = load_row(self.table, &mut self.seat, place, &mut self.rows_loaded);
            return Ask::Known(Some(row));
        }
        not_there(head)
    }

    fn select(&mut self, of: Place, name: u32) -> Ask<Option<(u32, Row)>>
        requires { CanFetch (state_of self.old) of }
        ensures selected { Selected (state_of self.old) (state_of self.new) of name result }
        ensures answer { result ≡ one_thread_field (tables_in (view_in self.new)) of name }
        ensures loads { (view_in self.new).loads
            ≡ (view_in self.old).loads ++ head_in of.scope (shown_at (view_in self.new) of.scope) ∷ [] }
        ensures waits { WaitsNew (state_of self.old) result }
        ensures grown { HaveGrown (tables_in (view_in self.old)) (tables_in (view_in self.new)) }
        ensures stays { (later : List Table) → HaveGrown (tables_in (view_in self.new)) later
            → StaysKnown result (one_thread_field later of name) }
        ensures table { table_in self.new ≡ table_in self.old }
        ensures counted { loaded_in self.old ≤ loaded_in self.new }
    {
        let head = self.table.load_head(&mut self.seat, of.scope);
        let _whole = self.seat.scope();
        if !counts(head, of.ordinal) {
            return Ask::DontKnowYet(head);
        }
        let key = RowKey::Member(of.ordinal as u64, name as u64);
        let hit = find(self.table, &mut self.seat, head, key, &mut self.rows_loaded);
        Ask::Known(found_before(hit, of.ordinal))
    }

    fn enter(&mut self, rows: &[Row])
        requires { CanEnter (state_of self.old) rows.now }
        ensures entered { Entered (state_of self.old) (state_of self.new) rows.now }
        ensures grown { HaveGrown (tables_in (view_in self.old)) (tables_in (view_in self.new)) }
        ensures loads { (view_in self.new).loads ≡ (view_in self.old).loads }
        ensures table { table_in self.new ≡ table_in self.old }
        ensures loaded { loaded_in self.new ≡ loaded_in self.old }
    {
        put_all(self.table, &mut self.seat, rows);
    }

    fn complete(&mut self)
        requires { CanComplete (state_of self.old) }
        ensures completed { Completed (state_of self.old) (state_of self.new) }
        ensures grown { HaveGrown (tables_in (view_in self.old)) (tables_in (view_in self.new)) }
        ensures loads { (view_in self.new).loads ≡ (view_in self.old).loads }
        ensures table { table_in self.new ≡ table_in self.old }
        ensures loaded { loaded_in self.new ≡ loaded_in self.old }
    {
        let _whole = self.seat.scope();
        self.table.seal(&mut self.seat);
    }
}

/// What is known of a place that this head of its scope doesn't count.
fn not_there(head: Head) -> Ask<Option<Row>>
    ensures { result ≡ behind head }
{
    if head.complete {
        Ask::Known(None)
    } else {
        Ask::DontKnowYet(head)
    }
}
