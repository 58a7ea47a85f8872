//! An analysis in progress.
use crate::fragments::Fragments;
use crate::pieces::With;
use m2_base::{Notes, Scopes, Site};

/// Makes the code of what stands at a site: it asks the scopes, sees the records of open WITHs, adds fragments, and
/// notes what it refuses and what each name was found to be. Who has these five lends them, for as long as it needs
/// the code.
#[derive(Drop)]
pub struct Coder<'a, 'b, S: Scopes> {
    pub scopes: &'a mut S,
    pub site: &'a Site<'b>,
    pub withs: &'a [With],
    pub fragments: &'a mut Fragments,
    pub notes: &'a mut Notes,
}
