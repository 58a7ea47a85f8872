//! What does a search in tables answer that fill up while it goes on, and why does its answer stay?
//!
//! The tables are, for each scope, its rows so far and whether there will be more (`m2_base`'s `Tables`). They change
//! by events alone: rows are entered into a scope that isn't complete, or a scope is marked as complete. `look` is
//! what one thread answers, `step` and `settle` let events happen, and `settle`'s contract is the law that all later
//! layers rest on: a row that was found, or an absence, is the answer after every run of events. A `Flight` is a
//! search between the loads of its heads, whoever fills the tables meanwhile: its reply is what one thread answers of
//! the tables as its heads show them. `PlainScopes` is `Scopes` for one thread:
//! what is entered there is the front of the finished rows (`laws`).
#![tactic(auto)]

mod event;
mod flight;
mod kept;
mod laws;
mod plain_scopes;
mod tables;

pub use event::Event;
pub use flight::{Flight, Load};
pub use laws::{fronts_are_kept, nothing_is_entered};
pub use plain_scopes::PlainScopes;
pub use tables::{Tables, look, settle, step};
