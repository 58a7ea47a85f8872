//! Which code does a block become, by definition, and what holds of all such code?
//!
//! The words are those of Wirth's report and of the machine's instructions (`code_form`). What an expression stands
//! for is said by the static rules (`m2_base`'s `specs/Statics`); here its code stands beside it. A part of code is a
//! function of where it stands (`specs/Parts`); `specs/Expressions` goes over the trees of expressions. The code of
//! statements is a flow, which is known once it is also told how far away the end of the innermost LOOP is
//! (`specs/Flows`); `specs/Statements` goes over their trees, and `specs/BlockCode` puts a block together. Each rule of
//! the language has a file of its own below them.
//!
//! Nothing here runs: `expr_sem` and `stmt_sem` make this code. The laws hold of the definitions alone, and are the
//! contracts of functions that do nothing: heights are right, code is short and valid, and what is in error has no
//! code.
#![tactic(auto)]

pub mod expressions;
pub mod statements;
