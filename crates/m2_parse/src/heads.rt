//! What the front of a text says.
use m2_base::Ident;

/// The front of a text.
#[derive(Drop)]
pub struct Front {
    /// The module's name, unless a token before it is refused.
    pub name: Option<Ident>,
    pub implementation: bool,
    /// The modules of the whole imports.
    pub imports: Vec<Ident>,
}
