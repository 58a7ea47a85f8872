//! Which tokens does a text have?
//!
//! `lex` gives the tokens of a text by the definition in `m2_base` (`Tokens`): one pass, one lexeme at a time, each
//! the longest match. The layer above uses the one contract of `lex`: what it gives are the text's tokens, and the
//! names are numbered on from those that it was given. `lone_text` is the unit of a main text alone, and by the law
//! `tokens_are_read` its trees have the numbers and names that the static rules ask for.
#![tactic(auto)]

mod comment;
mod laws;
mod lexer;
mod lone;
mod longest;
mod meaning;
mod position;
mod runs;

pub use laws::tokens_are_read;
pub use lexer::{LexFault, lex};
pub use lone::lone_text;
