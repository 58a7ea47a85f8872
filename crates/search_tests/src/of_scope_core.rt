//! A reply stays over a run of events.
ghost use Rattle.std.specs.Prelude.{◌≡◌};
ghost use Rattle.m2_base.specs.Rows.{row_of};
ghost use Rattle.m2_base.specs.declared.rows.RowMeaning.TheVariants.{Standard};

use m2_base::{Head, Place, Reply, Row, RowMeaning, write_row};
use scope_core::{Event, Tables, look, settle, step};
use std::test::Fail;

/// A row of this name.
fn row(name: u32) -> Row
    ensures { result ≡ row_of name 5 (Standard name) }
{
    write_row(name, 5, RowMeaning::Standard(name))
}

#[test]
fn a_reply_stays(rt: HostRuntime) -> Result<(), Fail> {
    let alloc = rt.alloc();
    let mut tables = Tables::new(alloc, 2)?;
    let outer = vec![in alloc; row(30), row(31)]?;
    let event = Event::Enter {
        scope: 0,
        rows: outer,
    };
    step(alloc, &mut tables, event)?;
    let unknown = Reply::DontKnowYet(Head {
        scope: 1,
        count: 0,
        complete: false,
    });
    assert_eq!(rt; look(&tables, &[1, 0], 30), unknown);
    step(alloc, &mut tables, Event::Complete { scope: 1 })?;
    let place = Place {
        scope: 0,
        ordinal: 0,
    };
    let found = Reply::Found(place, row(30));
    assert_eq!(rt; look(&tables, &[1, 0], 30), found);
    let more = vec![in alloc; row(32), row(0)]?;
    let event = Event::Enter {
        scope: 0,
        rows: more,
    };
    let run = vec![in alloc; event, Event::Complete { scope: 0 }]?;
    settle(alloc, &mut tables, run, &[1, 0], 30)?;
    assert_eq!(rt; look(&tables, &[1, 0], 30), found);
    assert_eq!(rt; look(&tables, &[1, 0], 33), Reply::Absent);
    Ok(())
}
