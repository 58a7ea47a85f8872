//! What changes tables.
use m2_base::Row;

/// What changes a table.
#[derive(Drop)]
pub enum Event {
    /// Rows are added to a scope.
    Enter { scope: u32, rows: Vec<Row> },
    /// A scope is marked as complete.
    Complete { scope: u32 },
}
