//! What is wrong in a constant expression.
use m2_base::Diagnostic;

/// What is wrong, and the token where it is noted.
#[derive(Clone, Copy)]
pub struct Fault {
    pub at: u32,
    pub kind: Diagnostic,
}
