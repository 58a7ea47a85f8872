//! What the code keeps of each scope.
ghost use Rattle.std.specs.Prelude.{◌≡◌, ℕ, ◌+◌, ◌-◌, ◌<◌, ◌≤◌, ◌≢◌, ◌^◌, [], ◌∷◌, length, nat_lt, slice_get};
ghost use Rattle.std.specs.Prelude.{slice_index, OnOk, OnErr, IsOk, IfOk, replicate, if◌then◌else◌};
ghost use Rattle.std.specs.Option.{option_or};
ghost use Rattle.std.specs.HashMap.{get, spare};
ghost use Rattle.m2_base.specs.Keys.{field_before, first_keyed, is_keyed, is_same_key, one_thread_field};
ghost use Rattle.m2_base.specs.Lists.{Each};
ghost use Rattle.m2_base.specs.declared.rows.RowKey.{RowKey as Key};
ghost use Rattle.m2_base.specs.Tables.{first_named, head_of, one_thread, table_at, no_rows};
ghost use Rattle.m2_base.specs.Standard.{standard_rows as spec_rows};
ghost use Rattle.scope_core.specs.PlainScopes.{first_tables};
ghost use Rattle.m2_base.specs.Tables.{one_thread_row};
ghost use Rattle.scope_core.specs.Kept.{tables_in, rooms_in, longer, marked, with_rows, completed};

use m2_base::{Ask, Head, Memory, Place, Reply, Row, RowKey, row_key, standard_rows};
use std::alloc::{AllocError, Global};
use std::collections::HashMap;
use std::marker::Model;

/// The rows of a scope and its mark, with an index, so that a search doesn't scan the rows.
#[derive(Drop)]
pub struct Kept {
    rows: Vec<Row>,
    complete: bool,
    /// The ordinal of the first row of each key.
    index: HashMap<RowKey, u32>,
}

impl Model for Kept {
    ghost use Rattle.std.specs.Prelude.{◌+◌, length, min, vec_capacity};
    ghost use Rattle.std.specs.HashMap.{get, spare};
    ghost use Rattle.m2_base.specs.Keys.{is_same_key};
    ghost use Rattle.scope_core.specs.Kept.{TableWithRoom, IsIndexOf};

    ghost Value = { TableWithRoom };

    ghost view = { λ k. record {
      table = record { rows = k.rows.items; complete = k.complete };
      room = min (vec_capacity k.rows) (length k.rows.items + spare k.index);
    } };

    ghost invariant = { λ k. IsIndexOf (get is_same_key k.index) k.rows.items };
}

impl Kept {
    /// No rows yet, and room for so many.
    pub fn with_room(alloc: Global, size: usize) -> Result<Kept, AllocError>
        ensures table { IfOk result (λ kept. kept.table ≡ no_rows) }
        ensures room { IfOk result (λ kept. size ≤ kept.room) }
    {
        let rows = Vec::with_capacity(alloc, size)?;
        let index = HashMap::with_capacity(alloc, size)?;
        Ok(Kept {
            rows,
            complete: false,
            index,
        })
    }

    /// What it shows now, as the scope of this number.
    fn head(&self, scope: u32) -> Head
        requires { length self.now.table.rows < 2 ^ 32 }
        ensures { result ≡ head_of scope self.now.table }
    {
        Head {
            scope,
            count: self.rows.len() as u32,
            complete: self.complete,
        }
    }

    /// Whether there will be no more rows.
    fn is_complete(&self) -> bool
        ensures { result ≡ self.now.table.complete }
    {
        self.complete
    }

    /// The row of this ordinal.
    fn row(&self, ordinal: u32) -> Option<Row>
        ensures { result ≡ slice_get self.now.table.rows ordinal }
    {
        self.rows.get(ordinal as usize).copied()
    }

    /// The first row of a key, with its ordinal.
    fn first_keyed(&self, key: RowKey) -> Option<(u32, Row)>
        ensures { result ≡ first_keyed key self.now.table.rows 0 }
    {
        let ordinal = ordinal_of(&self.index, key)?;
        Some((ordinal, self.rows[ordinal as usize]))
    }

    /// The first row under a name, with its ordinal.
    fn first_named(&self, name: u32) -> Option<(u32, Row)>
        requires { name ≢ 0 }
        ensures { result ≡ first_named name self.now.table.rows 0 }
    {
        self.first_keyed(RowKey::Name(name))
    }

    /// Whether it has a row of this ordinal.
    fn has_row(&self, ordinal: u32) -> bool
        ensures { result ≡ nat_lt ordinal (length self.now.table.rows) }
    {
        (ordinal as usize) < self.rows.len()
    }

    /// The first field of this name before the row of its record, which has this ordinal.
    fn field(&self, own: u32, name: u32) -> Option<(u32, Row)>
        ensures { result ≡ field_before self.now.table.rows own name }
    {
        let (ordinal, row) = self.first_keyed(RowKey::Member(own as u64, name as u64))?;
        if ordinal < own {
            Some((ordinal, row))
        } else {
            None
        }
    }

    /// Makes room for so many more rows.
    fn reserve(&mut self, more: usize) -> Result<(), AllocError>
        ensures table { self.new.table ≡ self.old.table }
        ensures room { self.old.room ≤ self.new.room }
        ensures ok { OnOk result (length self.old.table.rows + more ≤ self.new.room) }
        ensures succeeds { length self.old.table.rows + more ≤ self.old.room → IsOk result }
    {
        self.rows.reserve(more)?;
        self.index.reserve(more)
    }

    /// Adds a row, which there is room for.
    fn put(&mut self, row: Row)
        requires room { length self.old.table.rows < self.old.room }
        requires countable { length self.old.table.rows < 2 ^ 32 }
        ensures table { self.new.table ≡ longer self.old.table (row ∷ []) }
        ensures room { self.old.room ≤ self.new.room }
    {
        let ordinal = self.rows.len() as u32;
        self.rows.push(row).unwrap();
        note_first(&mut self.index, row_key(&row), ordinal);
    }

    /// Adds rows. Where memory runs out, it adds none.
    fn add(&mut self, rows: &[Row]) -> Result<(), AllocError>
        requires { length self.old.table.rows + length rows.now ≤ 2 ^ 32 }
        ensures ok { OnOk result (self.new.table ≡ longer self.old.table rows.now) }
        ensures err { OnErr result (self.new.table ≡ self.old.table) }
        ensures room { self.old.room ≤ self.new.room }
        ensures succeeds { length self.old.table.rows + length rows.now ≤ self.old.room → IsOk result }
    {
        self.reserve(rows.len())?;
        for row in rows {
            self.put(*row);
        }
        Ok(())
    }

    /// Marks it as complete.
    fn close(&mut self)
        ensures table { self.new.table ≡ marked self.old.table }
        ensures room { self.new.room ≡ self.old.room }
    {
        self.complete = true;
    }
}

/// What stands under a key.
fn ordinal_of(index: &HashMap<RowKey, u32>, key: RowKey) -> Option<u32>
    ensures { result ≡ get is_same_key index.now key }
{
    index.get(&key).copied()
}

/// Puts an ordinal under a key.
fn put_ordinal(index: &mut HashMap<RowKey, u32>, key: RowKey, ordinal: u32)
    requires { 0 < spare index.old }
    ensures put { (k : Key)
        → get is_same_key index.new k ≡ (if is_same_key key k then Some ordinal else get is_same_key index.old k) }
    ensures room { spare index.old ≤ spare index.new + 1 }
{
    let Ok(_) = index.insert(key, ordinal) else {
        unreachable!()
    };
}

/// Puts an ordinal under a key that has none yet.
fn note_first(index: &mut HashMap<RowKey, u32>, key: Option<RowKey>, ordinal: u32)
    requires { 0 < spare index.old }
    ensures noted { (k : Key) → get is_same_key index.new k
        ≡ option_or (get is_same_key index.old k) (if is_keyed k key then Some ordinal else None) }
    ensures room { spare index.old ≤ spare index.new + 1 }
{
    let Some(key) = key else {
        return;
    };
    if ordinal_of(index, key).is_none() {
        put_ordinal(index, key, ordinal);
    }
}

/// Scopes with room for so many rows each, and none yet.
fn kept_rooms(alloc: Global, sizes: &[u32]) -> Result<Vec<Kept>, Memory>
    ensures empty { IfOk result (λ kept. tables_in kept.items ≡ replicate (length sizes.now) no_rows) }
    ensures rooms { IfOk result (λ kept. (s : ℕ) → slice_index sizes.now s ≤ slice_index (rooms_in kept.items) s) }
{
    let mut kept = Vec::with_capacity(alloc, sizes.len())?;
    for size in sizes {
        let scope = Kept::with_room(alloc, *size as usize)?;
        kept.push(scope)?;
    }
    Ok(kept)
}

/// Fills scope 0 and marks it as complete.
fn fill_first(kept: &mut [Kept]) -> Result<(), AllocError>
    requires inside { 0 < length kept.old }
    requires empty { (table_at (tables_in kept.old) 0).rows ≡ [] }
    ensures tables { OnOk result (tables_in kept.new ≡ completed (with_rows (tables_in kept.old) 0 spec_rows) 0) }
    ensures rooms { (s : ℕ) → slice_index (rooms_in kept.old) s ≤ slice_index (rooms_in kept.new) s }
{
    add_rows(kept, 0, &standard_rows())?;
    close(kept, 0);
    Ok(())
}

/// Scope 0 with all its rows and the others empty, with room for so many rows each.
pub fn standard_tables(alloc: Global, sizes: &[u32]) -> Result<Vec<Kept>, Memory>
    requires { 2 ≤ length sizes.now }
    ensures tables { IfOk result (λ kept. tables_in kept.items ≡ first_tables (length sizes.now - 1)) }
    ensures rooms { IfOk result (λ kept. (s : ℕ) → slice_index sizes.now s ≤ slice_index (rooms_in kept.items) s) }
{
    let mut kept = kept_rooms(alloc, sizes)?;
    fill_first(&mut kept)?;
    Ok(kept)
}

/// What one thread answers.
pub fn reply_in(kept: &[Kept], chain: &[u32], name: u32) -> Reply
    requires exist { Each (λ s. s < length kept.now) chain.now }
    requires named { name ≢ 0 }
    requires fit { (s : ℕ) → length (table_at (tables_in kept.now) s).rows < 2 ^ 32 }
    ensures { result ≡ one_thread (tables_in kept.now) chain.now name }
{
    for s in chain {
        let table = &kept[*s as usize];
        if let Some((ordinal, row)) = table.first_named(name) {
            let place = Place { scope: *s, ordinal };
            return Reply::Found(place, row);
        }
        if !table.is_complete() {
            return Reply::DontKnowYet(table.head(*s));
        }
    }
    Reply::Absent
}

/// Adds rows to a scope. Where memory runs out, it adds none.
pub fn add_rows(kept: &mut [Kept], scope: usize, rows: &[Row]) -> Result<(), AllocError>
    requires inside { scope < length kept.old }
    requires countable { length (table_at (tables_in kept.old) scope).rows + length rows.now ≤ 2 ^ 32 }
    ensures ok { OnOk result (tables_in kept.new ≡ with_rows (tables_in kept.old) scope rows.now) }
    ensures err { OnErr result (tables_in kept.new ≡ tables_in kept.old) }
    ensures rooms { (k : ℕ) → slice_index (rooms_in kept.old) k ≤ slice_index (rooms_in kept.new) k }
    ensures succeeds { length (table_at (tables_in kept.old) scope).rows + length rows.now
        ≤ slice_index (rooms_in kept.old) scope → IsOk result }
{
    kept[scope].add(rows)
}

/// Marks a scope as complete.
pub fn close(kept: &mut [Kept], scope: usize)
    requires { scope < length kept.old }
    ensures tables { tables_in kept.new ≡ completed (tables_in kept.old) scope }
    ensures rooms { rooms_in kept.new ≡ rooms_in kept.old }
{
    kept[scope].close();
}

/// The row at a place.
pub fn row_in(kept: &[Kept], place: Place) -> Ask<Option<Row>>
    requires exist { place.scope < length kept.now }
    requires fit { (s : ℕ) → length (table_at (tables_in kept.now) s).rows < 2 ^ 32 }
    ensures { result ≡ one_thread_row (tables_in kept.now) place }
{
    let table = &kept[place.scope as usize];
    match table.row(place.ordinal) {
        Some(row) => Ask::Known(Some(row)),
        None => {
            if table.is_complete() {
                Ask::Known(None)
            } else {
                Ask::DontKnowYet(table.head(place.scope))
            }
        }
    }
}

/// The field of this name of the record at a place.
pub fn field_in(kept: &[Kept], of: Place, name: u32) -> Ask<Option<(u32, Row)>>
    requires exist { of.scope < length kept.now }
    requires fit { (s : ℕ) → length (table_at (tables_in kept.now) s).rows < 2 ^ 32 }
    ensures { result ≡ one_thread_field (tables_in kept.now) of name }
{
    let table = &kept[of.scope as usize];
    if table.is_complete() || table.has_row(of.ordinal) {
        Ask::Known(table.field(of.ordinal, name))
    } else {
        Ask::DontKnowYet(table.head(of.scope))
    }
}
