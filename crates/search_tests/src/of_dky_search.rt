//! Replies before a row is shown, after it is, and when its scope is complete, by hand; and how many rows are loaded.
ghost use Rattle.std.specs.Prelude.{◌≡◌, ◌≢◌, ◌^◌, ◌<◌, ◌≤◌};

use crate::filling::{FIRST, Filler, row_of};
use crate::opening::{Opened, open, unit_with};
use dky_search::SeatScopes;
use m2_base::{Ask, Head, Memory, Place, Reply, Row, Scopes};
use std::alloc::Global;
use std::test::Fail;

/// Looks a name up in scope 1.
pub(crate) fn look(scopes: &mut SeatScopes, name: u32) -> Reply
    requires { name ≢ 0 }
{
    let _own = scopes.filled();
    scopes.search(0, &[1], name)
}

/// Fetches the row of this ordinal in scope 1.
fn row_at(scopes: &mut SeatScopes, ordinal: u32) -> Ask<Option<Row>> {
    let _own = scopes.filled();
    scopes.fetch(0, place(ordinal))
}

/// Selects a field of the record whose row has this ordinal in scope 1.
fn field_at(scopes: &mut SeatScopes, ordinal: u32, name: u32) -> Ask<Option<(u32, Row)>> {
    let _own = scopes.filled();
    scopes.select(place(ordinal), name)
}

/// The head of scope 1 with so many rows, where more may follow.
fn head(count: u32) -> Head {
    Head {
        scope: 1,
        count,
        complete: false,
    }
}

/// The place of the row of scope 1 that has so many before it.
pub(crate) fn place(ordinal: u32) -> Place
    ensures { result.scope ≡ 1 }
{
    Place { scope: 1, ordinal }
}

/// The names 100, 101 and 102 are shown together, and 110 never is. They are no fields.
#[test]
fn replies_as_rows_are_shown(rt: HostRuntime) -> Result<(), Fail> {
    let alloc = rt.alloc();
    let texts = unit_with(alloc, FIRST)?;
    let Opened { table, one, two } = open(alloc, &texts, 3)?;
    let mut filler = Filler::new(&table, &texts, one, 3);
    let mut reader = SeatScopes::new(&table, &texts, two);
    assert_eq!(rt; look(&mut reader, 101), Reply::DontKnowYet(head(0)));
    assert_eq!(rt; row_at(&mut reader, 2), Ask::DontKnowYet(head(0)));
    assert_eq!(rt; field_at(&mut reader, 2, 101), Ask::DontKnowYet(head(0)));
    filler.enter(alloc, 3)?;
    let found = Reply::Found(place(1), row_of(101));
    assert_eq!(rt; look(&mut reader, 101), found);
    assert_eq!(rt; row_at(&mut reader, 2), Ask::Known(Some(row_of(102))));
    assert_eq!(rt; field_at(&mut reader, 2, 101), Ask::Known(None));
    assert_eq!(rt; look(&mut reader, 110), Reply::DontKnowYet(head(3)));
    assert_eq!(rt; row_at(&mut reader, 3), Ask::DontKnowYet(head(3)));
    assert_eq!(rt; field_at(&mut reader, 3, 101), Ask::DontKnowYet(head(3)));
    let mut filled = filler.complete();
    assert_eq!(rt; look(&mut reader, 110), Reply::Absent);
    assert_eq!(rt; row_at(&mut reader, 3), Ask::Known(None));
    assert_eq!(rt; field_at(&mut reader, 3, 101), Ask::Known(None));
    assert_eq!(rt; look(&mut reader, 101), found);
    assert_eq!(rt; look(&mut filled, 102), Reply::Found(place(2), row_of(102)));
    Ok(())
}

/// A handle is told what another has seen, where no row is there yet.
#[test]
fn tells_another_handle(rt: HostRuntime) -> Result<(), Fail> {
    let alloc = rt.alloc();
    let texts = unit_with(alloc, FIRST)?;
    let Opened { table, one, two } = open(alloc, &texts, 3)?;
    let mut teller = SeatScopes::new(&table, &texts, one);
    let mut reader = SeatScopes::new(&table, &texts, two);
    teller.tell(&mut reader);
    assert_eq!(rt; look(&mut reader, 101), Reply::DontKnowYet(head(0)));
    Ok(())
}

/// A scope is filled to its last row and complete. Of so many searches, one for each name that it has: how many find a
/// row, and how many rows they load together.
fn searched(alloc: Global, many: u32) -> Result<(u32, u64), Memory>
    requires { many < 2 ^ 31 }
{
    let texts = unit_with(alloc, FIRST + many)?;
    let Opened { table, one, two } = open(alloc, &texts, many)?;
    let mut filler = Filler::new(&table, &texts, one, many);
    filler.enter(alloc, many)?;
    let _filled = filler.complete();
    let mut reader = SeatScopes::new(&table, &texts, two);
    let mut found = 0u32;
    for name in FIRST..FIRST + many {
        if let Reply::Found(_, _) = look(&mut reader, name) {
            found = found.saturating_add(1);
        }
    }
    Ok((found, reader.rows_loaded()))
}

/// The second number of rows is that of names which the scope of a module of as many procedures has.
#[test]
fn loads_at_most_two_rows_a_search(rt: HostRuntime) -> Result<(), Fail> {
    for many in [1024, 16_384] {
        let (found, loaded) = searched(rt.alloc(), many)?;
        assert_eq!(rt; found, many);
        assert!(rt; loaded <= 2 * many as u64, "{loaded} rows for {many} names");
    }
    Ok(())
}
