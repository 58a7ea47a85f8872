//! Which code do statements become, and which has a block?
//!
//! Those that `block_code` defines: the code of an expression is a part of code, that of statements a flow, which is
//! known once it is also told how far away the end of the innermost LOOP is. Each kind of statement has a file of its
//! own. A `Walker` makes flows of statements where they stand (`specs/Walkers`). A `Body` is the code of a block in the
//! making: it begins
//! with what the body copies first, takes one statement after another, each as a whole or not at all, and ends
//! (`specs/Bodies`); `procedure_code` is what the object file has of the whole.
#![tactic(auto)]

/// The value of a question, or the end of the function where it isn't known yet.
macro_rules! known {
    ($asked:expr) => {
        match $asked {
            Ask::Known(value) => value,
            Ask::DontKnowYet(head) => return Ask::DontKnowYet(head),
        }
    };
}

/// The value of a question, or the end of an analysis where it isn't known yet.
macro_rules! asked {
    ($asked:expr) => {
        match $asked {
            Ask::Known(value) => value,
            Ask::DontKnowYet(head) => return Ok(Ask::DontKnowYet(head)),
        }
    };
}

/// The value of an analysis, or the end of the function where it isn't known yet or memory is wanted.
macro_rules! analysed {
    ($asked:expr) => {
        match $asked {
            Ok(asked) => match asked {
                Ask::Known(value) => value,
                Ask::DontKnowYet(head) => return Ok(Ask::DontKnowYet(head)),
            },
            Err(memory) => return Err(memory),
        }
    };
}

mod assignments;
mod block_pieces;
mod bodies;
mod cases;
mod code_appending;
mod coders;
mod control_variables;
mod counting;
mod flow_appending;
mod flow_builders;
mod flow_parts;
mod flow_sizes;
mod flows;
mod procedure_codes;
mod refusals;
mod returns;
mod simple_statements;
mod stands;
mod statement_parts;
mod statements;
mod tests;
mod top_statements;
mod walker;
mod withs;

pub use bodies::Body;
pub use flow_appending::append_flow;
pub use flows::{Arm, Code, Flow, FlowForm, Turns};
pub use procedure_codes::procedure_code;
pub use stands::Stand;
pub use statements::statement;
pub use top_statements::Stated;
