//! Is what merging gives the outcome of the unit, and is its object valid?
//!
//! What a unit comes to is said by the definitions of its texts and its blocks alone (`specs/Outcome`), and so is its
//! object (`specs/UnitObject`). The outputs of its streams are those of its blocks (`specs/Outputs`). The laws here
//! say that such outputs can be merged, that merging gives the outcome, and that the object of a unit without
//! diagnostics is valid, so that whoever builds it tests nothing.
#![tactic(auto)]

mod laws;

pub use laws::{
    merging_gives_the_outcome, outputs_can_be_merged, unit_has_one_outcome, unit_objects_are_valid,
};
