//! Which code does an expression become?
//!
//! The one that `block_code` defines: beside what an expression stands for its code, a part of code being a function of
//! where it stands (`specs/Parts` there). Each rule of the language has a file of its own.
//!
//! A `Coder` makes the code. It is lent the scopes, which it asks for rows; the site with its names, its block and
//! its text; the open WITHs, the innermost first; the fragments made so far; and the notes. Its `value` and `address`
//! append to a piece of a block's code what an expression or a designator becomes, or wait (the record `Evaluates`,
//! `specs/Evaluations`). Statements, which put more code round it, take `value_of`, `designated`, `call_alone` and
//! `assigned_to`, which make fragments: `Codes` (`specs/Coders`) says of the coder before and after what the record
//! `Coding` (`specs/Codings`) says of its parts, and `Keeps` that it still works on what it was lent. What loads,
//! fits or finds one value alone, as `value_code`, `fitted_code` and `entry_coded`, is handed the scopes, the site
//! and the fragments.
//!
//! Where the answer is known the fragments have the nodes that it is made of, and the notes what is wrong and what
//! each name was found to stand for, in text order. An answer waits for a name or a type where its row is of a scope
//! before the own one that isn't complete and doesn't have it yet. Then, and where memory is wanted, fragments and
//! notes may have more than before: the caller lets go of both, and asks again later.
//!
//! # From `y := x + 1` to its instructions
//!
//! x and y are INTEGER variables of a module, in its cells 0 and 1, and the statement stands in its body, where each
//! begins with no fragments. stmt_sem's `assign_statement` goes over the left side first (`variable`): the coder's
//! `designated` finds the row of y, whose address `entry_coded` makes, and `as_variable` lets it pass. The right side
//! is for the coder's `value_of`: `designated` gives x, again by its address, and 1 is a constant without code.
//! `two_coded` asks const_eval's `operated`: beside an INTEGER 1 is an INTEGER, and their sum is a computed one. So
//! both values are made (`value_code`), and behind them `Add`, of which `side_of` gives the side, 0. In the end
//! stmt_sem's `assignment` asks whether y takes the sum (the coder's `assigned_to`), has it fitted to the type of y
//! (`fitted_code`), and stores it (`store_code`). The fragments are, in the order in which they are made:
//!
//! | Node | Form | What it stands for | Made by |
//! |---|---|---|---|
//! | 0 | `One`, of `Global 0 1` | the address of y | `entry_coded` |
//! | 1 | `One`, of `Global 0 0` | the address of x | `entry_coded` |
//! | 2 | `One`, of `Load` | | `value_code`, `instr_behind` |
//! | 3 | `Then(1, 2)` | the value of x | `value_code`, `instr_behind` |
//! | 4 | `One`, of `Push 1` | the value of 1 | `value_code` |
//! | 5 | `One`, of `Add 0` | | `two_coded` |
//! | 6 | `Then(4, 5)` | | `two_coded` |
//! | 7 | `Then(3, 6)` | the value of x + 1 | `two_coded` |
//! | 8 | `Then(7, Nothing)` | that value, with no check | `fitted_code` |
//! | 9 | `One`, of `Store` | | `store_code`, `instr_behind` |
//! | 10 | `Then(8, 9)` | | `store_code`, `instr_behind` |
//! | 11 | `Then(0, 10)` | the statement | `store_code` |
//!
//! Node 11 is the code of a flow, which is appended to the block's piece (`append_all`): `Global 0 1`, `Global 0 0`,
//! `Load`, `Push 1`, `Add 0`, `Store`. They have 31 bytes, and leave 1, 2, 2, 3, 2 and 0 operands on the stack. There
//! is no check, since every INTEGER is one. Were y a CARDINAL, node 8 would be `One`, of `Check 0 4294967295`, node 9
//! `Then(7, 8)`, and so on: the check would stand before `Store`.
#![tactic(auto)]

/// The value of a question, or the end of the function where it isn't known yet.
macro_rules! known {
    ($asked:expr) => {
        match $asked {
            Ask::Known(value) => value,
            Ask::DontKnowYet(head) => return Ask::DontKnowYet(head),
        }
    };
}

/// The value of a question, or the end of an analysis where it isn't known yet.
macro_rules! asked {
    ($asked:expr) => {
        match $asked {
            Ask::Known(value) => value,
            Ask::DontKnowYet(head) => return Ok(Ask::DontKnowYet(head)),
        }
    };
}

/// The value of an analysis, or the end of the function where it isn't known yet or memory is wanted.
macro_rules! analysed {
    ($asked:expr) => {
        match $asked {
            Ok(asked) => match asked {
                Ask::Known(value) => value,
                Ask::DontKnowYet(head) => return Ok(Ask::DontKnowYet(head)),
            },
            Err(memory) => return Err(memory),
        }
    };
}

mod answers;
mod appending;
mod argument_codes;
mod arguments;
mod calls;
mod chains;
mod coded;
mod coder;
mod elements;
mod evaluations;
mod expressions;
mod fitting;
mod fragments;
mod laws;
mod levels;
mod operators;
mod pieces;
mod procedure_names;
mod record_fields;
mod refusals;
mod rooms;
mod set_elements;
mod set_members;
mod signatures;
mod standard_functions;
mod standard_procedures;
mod step_numbers;
mod steps;
mod takings;
mod updates;
mod value_functions;
mod values;
mod variable_arguments;
mod variables;

pub use answers::answered;
pub use appending::{append_all, capped_sum, push_instr};
pub use chains::{instr_behind, pair};
pub use coded::{Coded, Placed};
pub use coder::Coder;
pub use elements::cells_of;
pub use fitting::fitted_code;
pub use fragments::{Connective, Form, Fragment, Fragments, Node};
pub use laws::diagnostics_leave_nothing;
pub use operators::{made, side_of};
pub use pieces::{Piece, With, append};
pub use record_fields::field_of_withs;
pub use refusals::refused;
pub use steps::Step;
pub use values::{characters, is_structured, value_code};
pub use variable_arguments::as_variable;
pub use variables::entry_coded;
