//! Which program does a module's name stand for?
//!
//! The object of the main module is read from a shelf, and then, breadth first, the objects of the modules that the
//! objects read so far import, each once; a module other than the main one may have none. InOut is the machine's own,
//! and never read. All of them are linked. What that comes to is `specs/Loads`: the objects of the program in running
//! order, or the first thing that stands against it. `load` gives the program; `load_object` the object of one module
//! alone. The layer above uses those two contracts.
#![tactic(auto)]

mod fault;
mod files;
mod laws;
mod limits;
mod loading;
mod naming;
mod progress;

pub use fault::LoadFault;
pub use laws::one_loading;
pub use limits::{MOST_OBJECT_BYTES, MOST_OBJECTS};
pub use loading::{load, load_object};
