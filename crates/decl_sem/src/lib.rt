//! Which rows does a declaration make?
//!
//! The syntax alone says how many, and of each its name, kind and token: the layout of a block (`layout`). What the
//! rows say comes from the rows of the items before and of the scopes round the block. The definitions are `m2_base`'s
//! (`specs/Statics`). When a block's scope is complete, its closing name is checked (`close_check`).
//!
//! `declare` has the rows of an item. The heading of a procedure has rows in the scope round it (`procedures`) and in
//! its own (`own_headings`).
#![tactic(auto)]

/// The value of what asks nothing, or the end of the function where memory is wanted.
macro_rules! put {
    ($made:expr) => {
        match $made {
            Ok(value) => value,
            Err(memory) => return Err(memory),
        }
    };
}

/// The value of a question, or the end of the function where it isn't known yet.
macro_rules! known {
    ($asked:expr) => {
        match $asked {
            Ask::Known(value) => value,
            Ask::DontKnowYet(head) => return Ask::DontKnowYet(head),
        }
    };
}

/// The value of a question, or the end of an analysis where it isn't known yet.
macro_rules! asked {
    ($asked:expr) => {
        match $asked {
            Ask::Known(value) => value,
            Ask::DontKnowYet(head) => return Ok(Ask::DontKnowYet(head)),
        }
    };
}

/// The value of an analysis, or the end of the function where it isn't known yet or memory is wanted.
macro_rules! analysed {
    ($asked:expr) => {
        match $asked {
            Ok(asked) => match asked {
                Ask::Known(value) => value,
                Ask::DontKnowYet(head) => return Ok(Ask::DontKnowYet(head)),
            },
            Err(memory) => return Err(memory),
        }
    };
}

mod arrays;
mod bounds;
mod brought;
mod cells;
mod closing;
mod const_items;
mod declaring;
mod effects;
mod enumerations;
mod fields;
mod first_cells;
mod formals;
mod heading_sizes;
mod implementing;
mod imports;
mod items;
mod kinds;
mod laws;
mod layouts;
mod made_rows;
mod making;
mod meanings;
mod names;
mod outcomes;
mod own_headings;
mod own_parameters;
mod placings;
mod procedure_types;
mod procedures;
mod putting;
mod records;
mod section_rows;
mod sets;
mod shapes;
mod standing;
mod subranges;
mod targets;
mod type_items;
mod types;
mod variables;

pub use closing::close_check;
pub use declaring::{Declared, declare};
pub use effects::Effect;
pub use first_cells::first_cell;
pub use items::{Before, Item};
pub use laws::laid_rows_differ;
pub use layouts::layout;
