//! What is decided of a module.
use crate::limit::Limit;
use m2_base::{Diag, Texts};
use object_file::Object;

/// What is decided of a module.
#[derive(Drop)]
pub enum Verdict {
    NoText,
    Limited(Limit),
    /// Diagnostics of the unit with these texts.
    Listed(Texts, Vec<Diag>),
    Compiled(Object),
}
