//! What is printed of diagnostics, and in which order?
//!
//! Diagnostics are listed by text, token and code, each once (`specs/Ordering`). Each has a line, by the place of its
//! token in its text and the sentence of its code (`specs/Listing`). The layers above use `put_in_order`,
//! and `listing` or `unit_listing`.
#![tactic(auto)]

mod lines;
mod ordering;

pub use lines::{listing, unit_listing};
pub use ordering::put_in_order;
