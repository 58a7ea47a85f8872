//! Where statements stand.
use expr_sem::With;
use m2_base::{Place, Site};

/// Where a statement stands: in its block, whose procedure has this result, in the open WITHs, the innermost first,
/// and in a LOOP or in none.
#[derive(Clone, Copy)]
pub struct Stand<'a, 'b> {
    pub site: &'a Site<'b>,
    pub result: Option<Place>,
    pub withs: &'a [With],
    pub looped: bool,
}
