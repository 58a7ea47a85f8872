//! What holds of every block's code and diagnostics?
//!
//! There is no code here: the functions do nothing, and their contracts are laws over the definitions of `stmt_sem`
//! and `expr_sem`. `laws` says that the code of each block of a unit is valid where no block has a diagnostic
//! (`code_is_valid`); `notes` that each diagnostic stands in its block's text, at a token that the block's tree names
//! (`blocks_stand_in_their_texts`).
#![tactic(auto)]

mod laws;
mod notes;

pub use laws::{
    block_code_is_valid, code_is_valid, lone_code_is_valid, main_blocks_are_coded,
    operands_in_range, results_are_returned, rows_are_whole, statements_are_read,
};
pub use notes::{blocks_stand_in_their_texts, diagnostics_stand_at_tokens};
