//! What exports ask of a procedure.

/// The cells of the parameters and of the result that the exports of one procedure have, or `None` where they differ.
#[derive(Clone, Copy)]
pub(crate) struct Wanted {
    pub(crate) params: Option<u32>,
    pub(crate) result: Option<u32>,
}
