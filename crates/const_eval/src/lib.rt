//! What is the value of a constant expression?
//!
//! The answer is the definition's (`m2_base`'s `specs/Statics/Constants`), or that it isn't known yet. What operators
//! and standard functions give of operands is judged first: a judgement is the operand, or a fault at a token
//! (`specs/Judgements`). It stands on the questions of `type_rules`, and its clauses have their names: `told` says
//! that the answer is the definition's, `waits` of which scope it isn't known yet, `reads` what stays as before.
//!
//! What judges notes nothing: `apply_one`, `operate`, `element_of`, `set_type_of`, and each standard function by its
//! name. What is handed the notes makes a diagnostic of the fault, and an operand in error: `applied_one`, `operated`,
//! `taken`, `of_value_noted`, `of_type_noted`, `val_of_operand`. Either waits for a name or a type where its row is of
//! a scope before the own one that isn't complete and doesn't have it yet. The words between quotes are those of
//! Wirth's report.
#![tactic(auto)]

/// The value of a question, or the end of the function where it isn't known yet.
macro_rules! known {
    ($asked:expr) => {
        match $asked {
            Ask::Known(value) => value,
            Ask::DontKnowYet(head) => return Ask::DontKnowYet(head),
        }
    };
}

/// The value of an analysis, or the end of the function where it isn't known yet or memory is wanted.
macro_rules! analysed {
    ($asked:expr) => {
        match $asked {
            Ok(asked) => match asked {
                Ask::Known(value) => value,
                Ask::DontKnowYet(head) => return Ok(Ask::DontKnowYet(head)),
            },
            Err(memory) => return Err(memory),
        }
    };
}

/// A judgement that something is wrong at a token.
macro_rules! fault {
    ($at:expr, $kind:ident) => {
        Err(Fault {
            at: $at,
            kind: Diagnostic::$kind,
        })
    };
}

mod arguments;
mod calls;
mod constants;
mod expressions;
mod extremes;
mod faults;
mod functions;
mod laws;
mod membership;
mod names;
mod noting;
mod numbers;
mod operands;
mod operators;
mod pairs;
mod set_bits;
mod sets;
mod steps;
mod structures;
mod values;

pub use arguments::{Arguments, Shape};
pub use calls::{
    TypeFunction, ValueFunction, call_of, of_type_noted, of_value_noted, val_of_operand,
};
pub use constants::constant;
pub use extremes::{Extreme, extreme_of, size_value};
pub use faults::Fault;
pub use functions::{
    abs_of, cap_of, char_of_string, chr_of, odd_of, ord_of, ordinal_type_argument, val_of,
};
pub use laws::{diagnostics_leave_nothing, missing_constants_have_a_cause};
pub use names::{is_in_error, name_operand, operand_of};
pub use noting::{note, note_type};
pub use operands::{Argument, PlacedOperator, char_or_same, constant_value, is_bad};
pub use operators::{apply_one, operate};
pub use pairs::{compatible_pair, is_ordinal, is_within};
pub use set_bits::with_elements;
pub use sets::{element_of, no_elements, set_base, set_type_of};
pub use steps::{applied_one, operated, string_constant, taken};
pub use structures::is_broken;
pub use values::{in_constant, selected, spoilt_by, value_wanted};
