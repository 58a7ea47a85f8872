//! What does a name stand for, while other threads still fill the scopes?
//!
//! A `SeatScopes` is `Scopes` over the tables that all threads share (`scope_table`): it fills the scope of its seat,
//! and searches all. A search loads the head of a scope, then looks its name up by the index of the scope: an empty
//! cell is a miss, a cell whose ordinal isn't below the loaded count is passed over, and the row of any other cell is
//! loaded. Where the name isn't found and the scope is complete, the next one is tried; where it isn't complete, the
//! answer is `DontKnowYet`. So what a search answers is what one thread answers in the tables that the handle has then
//! seen, its heads are the loads of that very call, and a row that was found, or an absence, is the answer in every
//! later state of the tables (`specs/SeatScopes`). No call takes memory or a lock, or waits.
#![tactic(auto)]

mod entering;
mod searching;
mod seat_scopes;

pub use seat_scopes::SeatScopes;
