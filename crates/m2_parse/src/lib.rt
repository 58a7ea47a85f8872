//! Which tree does a stream of tokens spell, or which token is at fault?
//!
//! The grammar and the trees are those of `m2_base`: `specs/Grammar` there is the EBNF as data, and `StreamsOf` gives
//! the tree of a derivation. The parser descends by one token of look-ahead. Beside each of its functions stands a
//! reader in `specs/`, of the same parts; `proofs/` links each reader to its rule, and the laws of `ll_grammar` then
//! say of the whole that the tree is spelled and that a fault is the first. The layers above use `parse_stream`.
#![tactic(auto)]

mod blocks;
mod declarations;
mod expressions;
mod faults;
mod fitting;
mod fronts;
mod heads;
mod laws;
mod leading;
mod lists;
mod names;
mod operators;
mod reading;
mod statements;
mod streams;
mod tokens;
mod types;

pub use faults::ParseFault;
pub use fitting::{names_fit, values_fit};
pub use fronts::front;
pub use heads::Front;
pub use laws::{text_has_one_front, text_has_one_meaning};
pub use streams::parse_stream;
