//! Where do the compiler's bytes come from, and where do they go?
//!
//! A `Shelf` keeps texts under names, a `Sink` takes bytes, a `Source` gives bytes, and a `Gate` is
//! passed by whoever makes a turn of a task. An object in memory tells what it holds; one over the real
//! thing tells nothing of that. The layers above use one contract: an answer that isn't `Ok` says that
//! the object counted a fault in this call, or that memory ran out, and what the object holds is then as
//! before or has a part of what it was given. `specs/` has the words: `Causes` for the counts of faults,
//! `Files`, `Written` and `Left` for what is held, `Calls` for the calls of an object in memory.
#![tactic(auto)]

mod calls;
mod folder;
mod gate;
mod memory_shelf;
mod memory_sink;
mod memory_source;
mod pieces;
mod shelf;
mod sink;
mod source;
mod stdio;

pub use folder::FolderShelf;
pub use gate::{Gate, NoGate};
pub use memory_shelf::MemShelf;
pub use memory_sink::MemSink;
pub use memory_source::MemSource;
pub use pieces::Pieces;
pub use shelf::{Shelf, ShelfError};
pub use sink::{Sink, SinkError, write_all};
pub use source::{Source, SourceError};
pub use stdio::{StdSink, StdSource};
