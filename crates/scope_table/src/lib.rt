//! Which rows has each scope, while many threads fill and search the scopes at once?
//!
//! The tables of all scopes are words that change in single atomic steps. A scope has a head, which tells how many of
//! its rows are shown and whether there will be more, its rows, eight words each, and an index of cells from keys to
//! rows. Each scope is filled by the one seat that has the right to it; every seat may load heads, rows and cells at
//! any time. What holds between any two steps, of the words and of what all seats know, is the rule (`specs/Rule`);
//! each kind of step keeps it and tells its seat something (`specs/Plays`). So a row that was seen stays where it is,
//! a complete scope never changes, and a key whose cell was empty after a head was loaded is that of none of the rows
//! that the head counts.
#![tactic(auto)]

mod law;
mod open;
mod table;
mod view;
mod words;

pub use table::{ScopeTable, TableSeat, probe, seed};
pub use view::{About, Bases, Look, Shown, View};
