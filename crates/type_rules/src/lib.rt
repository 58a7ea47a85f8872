//! What are a type's base, range, size and parts, when are two types the same, and what does a name stand for?
//!
//! Each question is asked of rows that others may still be adding to: its answer is the definition's
//! (`m2_base`'s `specs/Statics`), or that it isn't known yet. A `told` clause says the first, whatever further rows
//! the asker has in hand: those that an item makes before it enters them all at once. `waits` says of which scope the
//! second, and `reads` what the question leaves as before. A type is the place of its row. A row that is missing or of
//! another kind counts as that of a part in error, in every unit.
#![tactic(auto)]

/// The value of a question, or the end of the function where it isn't known yet.
macro_rules! known {
    ($asked:expr) => {
        match $asked {
            Ask::Known(value) => value,
            Ask::DontKnowYet(head) => return Ask::DontKnowYet(head),
        }
    };
}

mod assigning;
mod compatibility;
mod finding;
mod folding;
mod forms;
mod headings;
mod looking;
mod members;
mod operands;
mod ordinals;
mod rows;
mod sameness;
mod sizes;
mod standing;
mod uses;

pub use assigning::{assignable, is_open_array};
pub use compatibility::{bases_of, compatible, compatible_with, is_pointer};
pub use finding::entry_of_module;
pub use folding::{fold, is_relation};
pub use forms::{Form, Formal, form_of, next_parameter};
pub use headings::has_same_form;
pub use members::{field_of, index_of};
pub use operands::{
    BITSET, BOOLEAN, BROKEN, CARDINAL, CHARACTER, INTEGER, NIL, TEXT, WHOLE,
    is_integer_or_cardinal, is_one_char, is_string, operand_type,
};
pub use ordinals::{base_by, base_of, range_by, range_of};
pub use rows::{meaning_at, row_at, row_before};
pub use sameness::same;
pub use sizes::size_of;
pub use standing::stand;
pub use uses::{follow, use_name};
