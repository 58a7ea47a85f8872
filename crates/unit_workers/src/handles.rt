//! Handles on one table.
ghost use Rattle.std.specs.Prelude.{◌≡◌, ◌≢◌, ◌<◌, Some};
ghost use Rattle.m2_base.specs.Scopes.{CanSearch, Searched, CanFetch, Fetched, Selected, CanEnter, Entered};
ghost use Rattle.m2_base.specs.Scopes.{CanComplete, Completed};
ghost use Rattle.m2_base.specs.States.{IsSound, fills_of};
ghost use Rattle.scope_core.specs.Fronts.{ShowsFront};
ghost use Rattle.scope_table.specs.Rule.{texts_in};
ghost use Rattle.scope_table.specs.Seats.{key_of};
ghost use Rattle.dky_search.specs.SeatScopes.{table_in, state_of, IsTold};
ghost use Rattle.unit_workers.specs.Starts.{IsUnused, first_state};

use dky_search::SeatScopes;
use m2_base::{Ask, Place, Reply, Row, Scopes, Texts};
use scope_table::{ScopeTable, TableSeat};
use std::marker::{Brand, PhantomData};

/// Which table it is. Each call picks it.
pub trait OfTable {
    ghost use Rattle.std.specs.Prelude.{Option};
    ghost use Rattle.scope_table.specs.declared.table.ScopeTable.{ScopeTable};

    ghost table: { Option ScopeTable };
}

impl OfTable for Brand {
    ghost use Rattle.std.specs.Prelude.{None};

    ghost table = { None };
}

/// A handle on the table. Whoever is lent it can put no handle on another table in its place.
#[derive(Drop)]
pub struct TableScopes<'t, J: OfTable> {
    scopes: SeatScopes<'t>,
    of: PhantomData<J>,
    ghost is: { J.table ≡ Some (table_in scopes) },
}

impl<'t, J: OfTable> TableScopes<'t, J> {
    /// The scopes of these texts, for which the table was opened. It fills the scope of the seat.
    pub(crate) fn new(
        table: &'t ScopeTable,
        texts: &'t Texts,
        seat: TableSeat,
    ) -> TableScopes<'t, J>
        requires this { J.table ≡ Some table.now }
        requires texts { texts_in (key_of table.now) ≡ texts.now }
        requires unused { IsUnused table.now seat }
        ensures state { state_of result.scopes ≡ first_state table.now seat }
    {
        TableScopes {
            scopes: SeatScopes::new(table, texts, seat),
            of: PhantomData,
        }
    }

    /// The scope that it fills, and what always holds.
    pub(crate) fn filled(&self) -> u32
        ensures filled { result ≡ fills_of (state_of self.now.scopes) }
        ensures sound { IsSound (state_of self.now.scopes) }
        ensures front { ShowsFront (state_of self.now.scopes) }
    {
        self.scopes.filled()
    }

    /// Tells another handle what this one has seen.
    pub(crate) fn tell(&mut self, to: &mut TableScopes<'t, J>)
        ensures state { state_of self.new.scopes ≡ state_of self.old.scopes }
        ensures told { IsTold (state_of self.old.scopes) (state_of to.old.scopes) (state_of to.new.scopes) }
    {
        self.scopes.tell(&mut to.scopes);
    }

    /// The handle alone.
    pub(crate) fn into_scopes(self) -> SeatScopes<'t>
        ensures table { J.table ≡ Some (table_in result) }
        ensures state { state_of result ≡ state_of self.entry.scopes }
    {
        let TableScopes { scopes, of: _ } = self;
        scopes
    }
}

impl<'t, J: OfTable> Scopes for TableScopes<'t, J> {
    ghost state = { λ s. state_of s.scopes };

    fn search(&mut self, at: u32, chain: &[u32], name: u32) -> Reply {
        self.scopes.search(at, chain, name)
    }

    fn fetch(&mut self, at: u32, place: Place) -> Ask<Option<Row>> {
        self.scopes.fetch(at, place)
    }

    fn select(&mut self, of: Place, name: u32) -> Ask<Option<(u32, Row)>> {
        self.scopes.select(of, name)
    }

    fn enter(&mut self, rows: &[Row]) {
        self.scopes.enter(rows);
    }

    fn complete(&mut self) {
        self.scopes.complete();
    }
}
