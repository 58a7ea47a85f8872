//! Why the work on a block stops before it is done.
use m2_base::Head;

#[derive(Clone, Copy)]
pub(crate) enum Stop {
    /// The scope of this head isn't complete, and lacks what was asked for.
    Parked(Head),
    NoMemory,
}
