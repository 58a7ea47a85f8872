//! What does a unit come to that is gathered whole, by the outputs of its streams?
//!
//! `def_import` says that nothing is left out of a unit, with the fronts of its texts inside (`IsWhole`); the laws on
//! imports and on merging have fronts as a parameter. A law here leads from the one to the other, for whichever fronts
//! the grammar tells. So `outcome` takes what `gather` gives, and the outputs of the streams that `cut` makes of it,
//! in whichever order and by however many workers these were made: what it gives is what the texts come to by the
//! definitions (`specs/Outcomes`), and no other. Another law says that each diagnostic that texts come to stands at a
//! token of one of them (`specs/Tokens`).
#![tactic(auto)]

mod laws;
mod outcomes;

pub use laws::{
    diagnostics_stand_in_their_texts, gathered_units_are_whole, whole_units_have_one_outcome,
};
pub use outcomes::outcome;
