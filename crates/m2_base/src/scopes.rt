//! The tables of all scopes as whoever fills one of them sees them, while others may fill the rest.
ghost use Rattle.m2_base.specs.States.{State};
ghost use Rattle.m2_base.specs.Scopes.{CanSearch, Searched, CanFetch, Fetched, Selected, CanEnter, Entered};
ghost use Rattle.m2_base.specs.Scopes.{CanComplete, Completed};

use crate::replies::{Ask, Reply};
use crate::rows::{Place, Row};

/// The scopes of a unit. No call takes memory or waits.
pub trait Scopes {
    /// What the value holds: all that contracts say of it.
    ghost state: { Self → State };

    /// Looks a name up in the scopes of a chain, for the token `at`.
    fn search(&mut self, at: u32, chain: &[u32], name: u32) -> Reply
        requires { CanSearch (state self.old) chain.now name }
        ensures { Searched (state self.old) (state self.new) at chain.now name result };

    /// The row at a place, for the token `at`; None where its scope has fewer rows for good.
    fn fetch(&mut self, at: u32, place: Place) -> Ask<Option<Row>>
        requires { CanFetch (state self.old) place }
        ensures { Fetched (state self.old) (state self.new) place result };

    /// The field of this name of the record whose row stands at a place: the first before that row, with its ordinal;
    /// None where there is none for good.
    fn select(&mut self, of: Place, name: u32) -> Ask<Option<(u32, Row)>>
        requires { CanFetch (state self.old) of }
        ensures { Selected (state self.old) (state self.new) of name result };

    /// Adds rows to the scope that this value fills, in one step.
    fn enter(&mut self, rows: &[Row])
        requires { CanEnter (state self.old) rows.now }
        ensures { Entered (state self.old) (state self.new) rows.now };

    /// Marks the scope that this value fills as complete.
    fn complete(&mut self)
        requires { CanComplete (state self.old) }
        ensures { Completed (state self.old) (state self.new) };
}
