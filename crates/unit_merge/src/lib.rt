//! What do the outputs of a unit's streams come to?
//!
//! They come to a text that is nested too deep, to diagnostics, or to an object (`specs/Outcome`). `merge` takes the
//! outputs that the streams of a unit leave, one for each in their order, however the work was done. A text's fault is
//! the earliest of its streams', which is the text's first fault by the grammar (`specs/TextFaults`); where no text
//! has one, the diagnostics of all outputs are listed, each once, and where there is none, the outputs make an object
//! (`specs/Objects`). `specs/Merging` puts that together; the layers above use `merge` alone.
#![tactic(auto)]

mod exports;
mod faults;
mod imports;
mod merging;
mod notes;
mod object;

pub use merging::{Merged, merge};
