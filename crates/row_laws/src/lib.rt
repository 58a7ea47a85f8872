//! What holds of the numbers in every finished row?
//!
//! The static rules of `m2_base` make the rows, and its law `rows_are_right` says that each is well formed: values,
//! sizes and offsets have 32 bits. The laws here say what else holds of the numbers, by the scene that a row is read
//! in (`specs/RowRanges`, `Procedures`).
#![tactic(auto)]

mod laws;

pub use laws::{
    blocks_have_their_forms, definitions_are_as_noted, headings_are_sound, procedures_are_declared,
    results_are_bound, rows_are_clear, rows_are_in_range, sight_is_closed,
    trees_are_of_their_kinds,
};
