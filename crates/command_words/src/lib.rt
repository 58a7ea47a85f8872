//! What do the words of a command line ask for?
//!
//! `read_command` reads the words behind the program's name: a verb, and behind it what it is about, which is one
//! module's name or one number of procedures, and values of the verb's options. The kit's `clap` reads them, asked
//! with one command a verb (`asking`), and what it leaves to its caller is checked behind it (`given`). Its one clause
//! says that it is the command of those words by `specs/Command`, over the words alone, or that they are none, unless
//! memory ran out; the law `one_command` says that they are at most one.
#![tactic(auto)]

mod asking;
mod command;
mod given;
mod laws;
mod name;
mod numeral;
mod operand;
mod setting;
mod verb;

pub use command::{Command, read_command};
pub use laws::one_command;
