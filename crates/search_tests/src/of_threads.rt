//! One thread enters rows in pieces, while another searches for them.
ghost use Rattle.std.specs.Prelude.{◌≢◌, ◌≤◌, ◌<◌};

use crate::filling::{FIRST, Filler, row_of};
use crate::of_dky_search::{look, place};
use crate::opening::{Opened, open, unit_with};
use dky_search::SeatScopes;
use m2_base::{Memory, Reply};
use std::alloc::Global;
use std::test::Fail;
use std::thread::join;

/// So many rows are entered at a time, and so often.
const PIECE: u32 = 100;

const PIECES: u32 = 100;

const ROWS: u32 = PIECE * PIECES;

/// A name that no row has.
const MISSING: u32 = 20_000;

/// How often it is tried.
const RUNS: u32 = 100;

/// Enters all rows, in pieces.
fn enter_all(alloc: Global, filler: &mut Filler) -> Result<(), Memory> {
    for _ in 0..PIECES {
        filler.enter(alloc, PIECE)?;
    }
    Ok(())
}

/// Enters all rows, and marks the scope as complete even if there is no memory for them, so that who waits for it
/// comes to an end.
fn fill<'t>(alloc: Global, mut filler: Filler<'t>) -> Result<SeatScopes<'t>, Memory> {
    let entered = enter_all(alloc, &mut filler);
    let filled = filler.complete();
    entered?;
    Ok(filled)
}

/// What replies have told of the scope: at least so many rows, or all.
#[derive(Clone, Copy)]
struct Told {
    rows: u32,
    all: bool,
}

impl Told {
    /// Whether a reply takes nothing back of what was told before, and is right of a name that comes with the row of
    /// this ordinal.
    fn agrees(&mut self, ordinal: u32, reply: Reply) -> bool
        requires { ordinal < 10000 }
    {
        match reply {
            Reply::Found(at, row) => {
                self.rows = self.rows.max(ordinal + 1);
                at == place(ordinal) && row == row_of(FIRST + ordinal)
            }
            Reply::Absent => false,
            Reply::DontKnowYet(head) => {
                let grows = self.rows <= head.count && !self.all;
                self.rows = head.count;
                grows && head.scope == 1 && head.count <= ordinal && !head.complete
            }
        }
    }

    /// The same of the name that no row has.
    fn agrees_missing(&mut self, reply: Reply) -> bool {
        match reply {
            Reply::Found(_, _) => false,
            Reply::Absent => {
                self.all = true;
                true
            }
            Reply::DontKnowYet(head) => {
                let grows = self.rows <= head.count && !self.all;
                self.rows = head.count;
                grows && head.scope == 1 && head.count <= ROWS && !head.complete
            }
        }
    }
}

/// Searches until the scope is complete, and then for all names. Whether no reply takes another back.
fn watch(mut reader: SeatScopes) -> bool {
    let mut told = Told {
        rows: 0,
        all: false,
    };
    let mut agree = true;
    for step in 0..u64::MAX {
        let ordinal = (step % 10000 * 7919 % 10000) as u32;
        agree &= told.agrees(ordinal, look(&mut reader, FIRST + ordinal));
        agree &= told.agrees_missing(look(&mut reader, MISSING));
        if told.all {
            break;
        }
    }
    agree && finds_all(&mut reader)
}

/// Whether all names are found.
fn finds_all(reader: &mut SeatScopes) -> bool {
    for ordinal in 0..ROWS {
        let found = Reply::Found(place(ordinal), row_of(FIRST + ordinal));
        if look(reader, FIRST + ordinal) != found {
            return false;
        }
    }
    true
}

#[test]
fn takes_no_reply_back(rt: HostRuntime) -> Result<(), Fail> {
    let alloc = rt.alloc();
    let texts = unit_with(alloc, FIRST + ROWS)?;
    for run in 0..RUNS {
        let Opened { table, one, two } = open(alloc, &texts, ROWS)?;
        let filler = Filler::new(&table, &texts, one, ROWS);
        let reader = SeatScopes::new(&table, &texts, two);
        let (agree, filled) = join(&rt, move || watch(reader), move || fill(alloc, filler));
        let mut filled = filled?;
        assert!(rt; agree, "run {run}");
        assert!(rt; finds_all(&mut filled), "run {run}");
    }
    Ok(())
}
