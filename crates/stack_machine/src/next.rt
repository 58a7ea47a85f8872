//! What a step comes to.

use crate::trap::Trap;

/// What a step comes to.
#[derive(Clone, Copy)]
pub(crate) enum Next {
    Goes,
    Halts,
    Traps(Trap),
    /// The body that begins at this place finds no room.
    NoFrame(usize),
}
