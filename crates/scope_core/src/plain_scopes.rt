//! The Scopes of one thread.
ghost use Rattle.std.specs.Prelude.{◌≡◌, ◌≢◌, ◌<◌, ◌≤◌, ◌^◌, length, slice_get, Some, IfOk};
ghost use Rattle.m2_base.specs.Keys.{one_thread_field};
ghost use Rattle.m2_base.specs.Lists.{Each, HasNoRepeats};
ghost use Rattle.m2_base.specs.Scopes.{CanEnter, CanComplete};
ghost use Rattle.m2_base.specs.States.{IsSound, areas_of, fills_of};
ghost use Rattle.m2_base.specs.Tables.{one_thread};
ghost use Rattle.scope_core.specs.Fronts.{ShowsFront};
ghost use Rattle.m2_base.specs.Tables.{one_thread_row};
ghost use Rattle.scope_core.specs.PlainScopes.{state_of, filled, closed, moved, started, IsSoundly};

use crate::kept::{Kept, add_rows, close, field_in, reply_in, row_in, standard_tables};
use m2_base::{Ask, Memory, Place, Reply, Row, Scopes, Texts};
use std::alloc::Global;
use std::marker::Model;

/// The scopes of a unit where nobody else fills any of them. Its room is made at first: no later call takes memory.
#[derive(Drop)]
pub struct PlainScopes<'u> {
    texts: &'u Texts,
    tables: Vec<Kept>,
    /// For how many rows each scope has room.
    areas: Vec<u32>,
    /// The scope that is filled now.
    fills: u32,
}

impl<'u> Model for PlainScopes<'u> {
    ghost use Rattle.scope_core.specs.Kept.{tables_in, rooms_in};
    ghost use Rattle.scope_core.specs.PlainScopes.{Plain, IsHoused};

    ghost Value = { Plain };

    ghost view = { λ p.
        record { texts = p.texts.now; tables = tables_in p.tables.items; areas = p.areas.items; fills = p.fills } };

    ghost invariant = { λ p. IsHoused (record {
      texts = p.texts.now;
      tables = tables_in p.tables.items;
      areas = p.areas.items;
      fills = p.fills;
    }) (rooms_in p.tables.items) };
}

impl<'u> PlainScopes<'u> {
    /// Scope 0 with all its rows, and the others empty; scope 1 is filled first. Each scope has room for so many rows.
    pub fn new(alloc: Global, texts: &'u Texts, sizes: &[u32]) -> Result<PlainScopes<'u>, Memory>
        requires several { (2 ≤ length sizes.now) × (length sizes.now < 2 ^ 32) }
        requires first { slice_get sizes.now 0 ≡ Some 37 }
        ensures started { IfOk result (λ scopes. scopes ≡ started texts.now sizes.now) }
        ensures sound { IfOk result (λ scopes. IsSound (state_of scopes)) }
    {
        let _unit = texts.main();
        let tables = standard_tables(alloc, sizes)?;
        let areas = sizes.to_vec(alloc)?;
        Ok(PlainScopes {
            texts,
            tables,
            areas,
            fills: 1,
        })
    }

    /// Fills another scope from now on.
    pub fn move_to(&mut self, scope: u32)
        requires { (1 ≤ scope) × (scope < length self.old.areas) }
        ensures { self.new ≡ moved self.old scope }
    {
        self.fills = scope;
    }

    /// The scope that is filled now, and what always holds: what is entered there is the front of its finished rows.
    pub fn filled(&self) -> u32
        ensures filled { result ≡ fills_of (state_of self.now) }
        ensures sound { IsSound (state_of self.now) }
        ensures front { ShowsFront (state_of self.now) }
        ensures inside { fills_of (state_of self.now) < length (areas_of (state_of self.now)) }
        ensures countable { length (state_of self.now).frame.entered < 2 ^ 32 }
        ensures once { HasNoRepeats (λ r. r.name) (state_of self.now).frame.entered }
    {
        self.fills
    }

    fn reply(&self, chain: &[u32], name: u32) -> Reply
        requires exist { Each (λ s. s < length self.now.areas) chain.now }
        requires named { name ≢ 0 }
        ensures sound { IsSoundly self.now }
        ensures reply { result ≡ one_thread self.now.tables chain.now name }
    {
        reply_in(&self.tables, chain, name)
    }

    fn row(&self, place: Place) -> Ask<Option<Row>>
        requires { place.scope < length self.now.areas }
        ensures sound { IsSoundly self.now }
        ensures row { result ≡ one_thread_row self.now.tables place }
    {
        row_in(&self.tables, place)
    }

    fn field(&self, of: Place, name: u32) -> Ask<Option<(u32, Row)>>
        requires { of.scope < length self.now.areas }
        ensures sound { IsSoundly self.now }
        ensures field { result ≡ one_thread_field self.now.tables of name }
    {
        field_in(&self.tables, of, name)
    }

    fn put(&mut self, rows: &[Row])
        requires { CanEnter (state_of self.old) rows.now }
        ensures sound { IsSoundly self.old }
        ensures filled { self.new ≡ filled self.old rows.now }
    {
        add_rows(&mut self.tables, self.fills as usize, rows).unwrap()
    }

    fn finish(&mut self)
        requires { CanComplete (state_of self.old) }
        ensures sound { IsSoundly self.old }
        ensures closed { self.new ≡ closed self.old }
    {
        close(&mut self.tables, self.fills as usize);
    }
}

impl<'u> Scopes for PlainScopes<'u> {
    ghost use Rattle.scope_core.specs.PlainScopes.{state_of};

    ghost state = { state_of };

    fn search(&mut self, _at: u32, chain: &[u32], name: u32) -> Reply {
        self.reply(chain, name)
    }

    fn fetch(&mut self, _at: u32, place: Place) -> Ask<Option<Row>> {
        self.row(place)
    }

    fn select(&mut self, of: Place, name: u32) -> Ask<Option<(u32, Row)>> {
        self.field(of, name)
    }

    fn enter(&mut self, rows: &[Row]) {
        self.put(rows)
    }

    fn complete(&mut self) {
        self.finish()
    }
}
