//! A handle that fills scope 1 with rows of variables, whose names follow each other.
ghost use Rattle.std.specs.Prelude.{◌≡◌, ◌+◌, ◌^◌, ◌<◌, ◌∷◌, [], IfOk};
ghost use Rattle.scope_table.specs.Seats.{IsFirst};
ghost use Rattle.dky_search.specs.SeatScopes.{state_of};
ghost use Rattle.search_tests.specs.Named.{HasNamed, IsTable, IsUnread, rows_named};

use dky_search::SeatScopes;
use m2_base::{Memory, Mode, Place, Row, RowMeaning, Scopes, Texts, write_row};
use scope_table::{ScopeTable, TableSeat};
use std::alloc::Global;

/// The name of the first row.
pub(crate) const FIRST: u32 = 100;

/// The place of the standard type.
const INTEGER: Place = Place {
    scope: 0,
    ordinal: 0,
};

/// The row of the variable of this name.
pub(crate) fn row_of(name: u32) -> Row
    ensures { rows_named name 1 ≡ result ∷ [] }
{
    write_row(name, 1, RowMeaning::Var(INTEGER, Mode::Plain, 0))
}

/// So many rows, the first of this name.
fn rows_from(alloc: Global, first: u32, many: u32) -> Result<Vec<Row>, Memory>
    requires { first + many < 2 ^ 32 }
    ensures { IfOk result (λ rows. rows.items ≡ rows_named first many) }
{
    let mut rows = Vec::new(alloc);
    for name in first..first + many {
        let row = row_of(name);
        rows.push(row)?;
    }
    Ok(rows)
}

/// A handle on scope 1, and how far it is filled.
#[derive(Drop)]
pub(crate) struct Filler<'t> {
    scopes: SeatScopes<'t>,
    names: u32,
    room: u32,
    many: u32,
    ghost filled: { HasNamed (state_of scopes) names room many },
}

impl<'t> Filler<'t> {
    /// No row is there yet.
    pub(crate) fn new(
        table: &'t ScopeTable,
        texts: &'t Texts,
        seat: TableSeat,
        room: u32,
    ) -> Filler<'t>
        requires unread { IsUnread texts.now }
        requires table { IsTable table.now texts.now room }
        requires room { room < 2 ^ 31 }
        requires seat { IsFirst table.now 1 seat }
    {
        let scopes = SeatScopes::new(table, texts, seat);
        let names = texts.names.count();
        Filler {
            scopes,
            names,
            room,
            many: 0,
        }
    }

    /// Enters so many rows more. Where there is no room for them, or the unit has fewer names, it finds no memory.
    pub(crate) fn enter(&mut self, alloc: Global, more: u32) -> Result<(), Memory> {
        let first = FIRST + self.many;
        if more > self.room - self.many || first > self.names || more > self.names - first {
            return Err(Memory);
        }
        let rows = rows_from(alloc, first, more)?;
        self.scopes.enter(&rows);
        self.many += more;
        Ok(())
    }

    /// The handle, once the scope is complete.
    pub(crate) fn complete(self) -> SeatScopes<'t> {
        let Filler {
            mut scopes,
            names: _,
            room: _,
            many: _,
        } = self;
        scopes.complete();
        scopes
    }
}
