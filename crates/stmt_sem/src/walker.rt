//! An analysis of statements in progress.
use expr_sem::Fragments;
use m2_base::{Notes, Scopes};

/// Makes the flows of statements: it asks the scopes, adds the fragments that flows are made of, and notes what it
/// refuses and what each name was found to be.
#[derive(Drop)]
pub struct Walker<'a, S: Scopes> {
    pub scopes: &'a mut S,
    pub fragments: &'a mut Fragments,
    pub notes: &'a mut Notes,
}
