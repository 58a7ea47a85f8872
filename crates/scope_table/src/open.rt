//! How a table begins.
ghost use Rattle.std.specs.Prelude.{◌≡◌, ℕ, suc, ◌+◌, ◌*◌, ◌^◌, ◌<◌, ◌≤◌, ◌∷◌, [], length, slice_index, IfOk};
ghost use Rattle.m2_base.specs.Units.{IsUnit};
ghost use Rattle.scope_table.specs.Cells.{IsWidth};
ghost use Rattle.scope_table.specs.Opening.{AreBases, IsEmptyStart, IsStart};
ghost use Rattle.scope_table.specs.Plays.{told_of};
ghost use Rattle.scope_table.specs.Rule.{scopes, base, mid, texts_in, shown_at, empty_at, upto, IsSound};

use crate::law::{Law, Note, OneRight, Tell, Told};
use crate::table::{ScopeTable, TableSeat, make_seat, make_table};
use crate::view::{About, Bases, View};
use atomic_table::{Seat, Table};
use m2_base::{Memory, Texts, standard_rows};
use std::alloc::{AllocError, Global};
use std::marker::Brand;
use std::snapshot::Snapshot;

/// Every scope begins before this word.
const MOST_WORDS: u64 = 1152921504606846976;

/// How many cells go with so many rows.
fn cells_for(size: u32) -> u64
    requires { size < 2 ^ 31 }
    ensures width { IsWidth size result }
    ensures narrow { (0 < result) × (result ≤ 2 ^ 32) }
{
    (2 * size as u64 + 1).max(2).next_power_of_two()
}

/// Where the words of each scope begin, and where its cells do.
fn lay(alloc: Global, sizes: &[u32]) -> Result<(Vec<u64>, Vec<u64>), AllocError>
    requires few { length sizes.now < 2 ^ 32 }
    requires narrow { (k : ℕ) → k < length sizes.now → slice_index sizes.now k < 2 ^ 31 }
    ensures laid { IfOk result (λ v. AreBases v.0.items v.1.items sizes.now) }
    ensures bounded { IfOk result (λ v. (k : ℕ) → k < length sizes.now → slice_index v.0.items k < 2 ^ 60) }
{
    let mut bases = Vec::with_capacity(alloc, sizes.len() + 1)?;
    let mut mids = Vec::with_capacity(alloc, sizes.len())?;
    let mut end = sizes.len() as u64;
    bases.push(end)?;
    for size in sizes {
        if end >= MOST_WORDS {
            return Err(AllocError);
        }
        let mid = end + 8 * *size as u64;
        mids.push(mid)?;
        end = mid + cells_for(*size);
        bases.push(end)?;
    }
    Ok((bases, mids))
}

impl ScopeTable {
    ghost use Rattle.scope_table.specs.Seats.{view, scope_of, key_of, id_of, IsOf, IsSameSeat, AreFirst, IsOpened};

    /// A table for these texts. Scope 0 is complete and has the standard rows, and all others are empty and have room
    /// for so many rows. There is a seat for each scope in order, which has the right to fill it and has seen all
    /// this. Memory runs out, too, where a scope would begin past 2^60 words: the heads come first, a word for each
    /// scope. All room is made here, and meanwhile the words lie in memory twice.
    pub fn open(
        alloc: Global,
        texts: &Texts,
        sizes: &[u32],
    ) -> Result<(ScopeTable, Vec<TableSeat>), Memory>
        requires some { (0 < length sizes.now) × (length sizes.now < 2 ^ 32) }
        requires first { slice_index sizes.now 0 ≡ 37 }
        requires narrow { (k : ℕ) → k < length sizes.now → slice_index sizes.now k < 2 ^ 31 }
        ensures opened { IfOk result (λ r. IsOpened r.0 r.1.items texts.now sizes.now) }
        ensures first { IfOk result (λ r. base (key_of r.0) 0 ≡ length sizes.now) }
        ensures bounded { IfOk result (λ r. (k : ℕ) → k < length sizes.now → base (key_of r.0) k < 2 ^ 60) }
    {
        let _unit = texts.main();
        let laid = lay(alloc, sizes)?;
        let bases = Bases::new(laid.0);
        let mids = Bases::new(laid.1);
        let scopes = sizes.len() as u32;
        let words = Vec::from_elem(alloc, 0u64, bases.at(scopes) as usize)?;
        let about = About {
            texts: Snapshot::of(texts),
            bases: Snapshot::of(&bases),
            mids: Snapshot::of(&mids),
        };
        let (table, first) = Table::of_words(alloc, words.as_slice(), &about)?;
        let table = make_table(table, bases, mids);
        let seats = table.seats(alloc, first, scopes)?;
        Ok((table, seats))
    }

    /// The seats of all scopes, in order. Scope 0 is filled by its own seat, which tells the others.
    fn seats(
        &self,
        alloc: Global,
        mut first: Seat<(), View>,
        many: u32,
    ) -> Result<Vec<TableSeat>, AllocError>
        requires table { (first.table_id ≡ id_of self.now) × (first.me.1 ≡ []) }
        requires start { IsEmptyStart (key_of self.now) first.me.0 }
        requires sound { IsSound first.me.0 }
        requires rights { first.me.0.rights ≡ upto 0 many }
        requires many { (scopes (key_of self.now) ≡ many) × (0 < many) }
        requires room { mid (key_of self.now) 0 ≡ base (key_of self.now) 0 + 8 * 37 }
        requires unit { IsUnit (texts_in (key_of self.now)) }
        ensures { IfOk result (λ v. AreFirst self.now v.items many) }
    {
        let mut seats = Vec::with_capacity(alloc, many as usize)?;
        let zero = self.table.shared.split_seat::<OneRight>(&mut first);
        let mut zero = make_seat(zero, 0);
        self.fill_standard(&mut zero);
        let note = self.table.shared.split_seat::<Note>(&mut zero.seat);
        self.tell_first::<Brand>(&mut first, note);
        seats.push(zero)?;
        for scope in 1..many {
            let seat = self.table.shared.split_seat::<OneRight>(&mut first);
            seats.push(make_seat(seat, scope))?;
        }
        Ok(seats)
    }

    /// Tells the seat that has the rights to the scopes from 1 on what the seat of scope 0 has seen.
    fn tell_first<J: Told>(&self, first: &mut Seat<(), View>, note: Seat<(), View>)
        requires about { J.about ≡ key_of self.now }
        requires table { (first.old.table_id ≡ id_of self.now) × (note.table_id ≡ id_of self.now) × (note.me.1 ≡ []) }
        ensures same { (first.new.table_id ≡ first.old.table_id) × (first.new.me.1 ≡ first.old.me.1) }
        ensures told { first.new.me.0 ≡ told_of first.old.me.0 note.me.0 }
    {
        self.table.shared.join_seat::<Tell<J>>(first, note);
    }

    /// Fills scope 0 with the standard rows, and marks it as complete.
    fn fill_standard(&self, seat: &mut TableSeat)
        requires table { IsOf self.now seat.old }
        requires scope { scope_of seat.old ≡ 0 }
        requires start { IsEmptyStart (key_of self.now) (view seat.old) }
        requires room { mid (key_of self.now) 0 ≡ base (key_of self.now) 0 + 8 * 37 }
        requires unit { IsUnit (texts_in (key_of self.now)) }
        ensures same { IsSameSeat seat.old seat.new }
        ensures rights { (view seat.new).rights ≡ (view seat.old).rights }
        ensures start { IsStart (key_of self.now) (view seat.new) }
    {
        let rows = standard_rows();
        for row in &rows {
            self.put_indexed(seat, row, &[]);
        }
        self.show(seat);
        self.seal(seat);
    }
}
