//! What follows for a unit's trees and code from its texts?
//!
//! The laws on the trees of a unit ask that they are sound and read and that its blocks are short. The laws here say
//! that this is so where the trees are those that the texts of a unit spell: for a block that is cut out of a text, by
//! the tokens of its stream. With them the code of each block is valid where there is no diagnostic,
//! by what is known of the texts alone.
#![tactic(auto)]

mod laws;

pub use laws::{
    blocks_are_short, imports_come_before, trees_are_read, unit_code_is_valid, units_are_sound,
};
