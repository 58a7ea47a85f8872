//! Into which streams is a unit's text cut?
//!
//! A stream is what one task compiles: the tokens of a definition module, or of one block of the main text. The cut of
//! a main text is defined one token at a time (`specs/Cut`): to which streams a token goes depends on the tokens
//! before it and on itself. A procedure's heading stands in its own stream and in the one round it, where a token
//! `Cut` with the number of the procedure's stream stands for its block. `specs/Streams` has the streams of a unit,
//! `specs/Limits` the limits, which are those of m2_base on the procedures of a text,
//! and `specs/Chains` the scopes that a block searches.
#![tactic(auto)]

mod cutter;
mod extents;
mod laws;
mod sorts;
mod splitting;
mod streams;
mod surroundings;

pub use extents::sizes;
pub use laws::{
    blocks_are_those_of_the_streams, definition_streams_agree_with_the_text, rows_have_room,
    streams_agree_with_the_text, streams_have_their_places, trees_of_streams_are_read,
};
pub use splitting::cut;
pub use streams::{SplitFault, StreamTokens};
pub use surroundings::around;
