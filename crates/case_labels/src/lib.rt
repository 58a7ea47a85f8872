//! Which values do labels stand for?
//!
//! Labels stand before the arms of a CASE and before the variants of a record. `case_labels` gives their tests and the
//! values that are covered with them: what the definition says (`m2_base`'s `specs/Statics/CaseLabels`), or that it
//! isn't known yet. It stands on the questions of `type_rules` and on the constants of `const_eval`. `Covered` keeps
//! the ranges that earlier labels cover, in such a way that n labels take n log n steps.
#![tactic(auto)]

/// The value of what asks nothing, or the end of the function where memory is wanted.
macro_rules! put {
    ($made:expr) => {
        match $made {
            Ok(value) => value,
            Err(memory) => return Err(memory),
        }
    };
}

/// The value of a question, or the end of the function where it isn't known yet.
macro_rules! known {
    ($asked:expr) => {
        match $asked {
            Ask::Known(value) => value,
            Ask::DontKnowYet(head) => return Ask::DontKnowYet(head),
        }
    };
}

/// The value of a question, or the end of an analysis where it isn't known yet.
macro_rules! asked {
    ($asked:expr) => {
        match $asked {
            Ask::Known(value) => value,
            Ask::DontKnowYet(head) => return Ok(Ask::DontKnowYet(head)),
        }
    };
}

/// The value of an analysis, or the end of the function where it isn't known yet or memory is wanted.
macro_rules! analysed {
    ($asked:expr) => {
        match $asked {
            Ok(asked) => match asked {
                Ask::Known(value) => value,
                Ask::DontKnowYet(head) => return Ok(Ask::DontKnowYet(head)),
            },
            Err(memory) => return Err(memory),
        }
    };
}

mod covered;
mod labels;
mod noting;
mod tests;
mod values;

pub use covered::{Coverage, Covered};
pub use labels::{CaseLabels, case_labels};
pub use tests::LabelTest;
