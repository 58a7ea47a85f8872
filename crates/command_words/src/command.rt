//! The command that words ask for.
ghost use Rattle.std.specs.Prelude.{◌≡◌, codes, IfOk, map, MatchOption, string_bytes};
ghost use Rattle.command_words.specs.Command.{Asks, IsNoCommand, Makes, MakesNone, command_of};
ghost use Rattle.command_words.specs.Verbs.{verb_text};
ghost use Rattle.command_words.specs.Words.{given_of};

use crate::given::{Given, read};
use crate::name::is_name;
use crate::operand::procedures_in;
use crate::verb::{Verb, verb_of};
use m2_base::Memory;
use std::alloc::Global;

/// What can be asked for.
#[derive(Clone, Copy, Drop)]
pub enum Command<'a> {
    /// To compile the module of that name, by so many workers.
    Compile {
        name: &'a str,
        workers: u32,
    },
    /// To run the program of that module, in so many steps at most, and with so many cells.
    Run {
        name: &'a str,
        steps: u32,
        cells: u32,
    },
    /// To print the object of that module.
    Dump {
        name: &'a str,
    },
    /// To count what the big module of so many procedures compiles to, by so many workers.
    Big {
        procedures: u32,
        workers: u32,
    },
}

/// The command to compile, with what is given.
fn to_compile<'a>(given: Given<'a>) -> Option<Command<'a>>
    ensures { MatchOption result (MakesNone (codes "compile") (given_of given.entry))
        (λ command. Makes (codes "compile") (given_of given.entry) (command_of command)) }
{
    let name = given.operand?;
    if given.steps.is_some() || given.cells.is_some() {
        return None;
    }
    if !is_name(name.as_bytes()) {
        return None;
    }
    let workers = given.workers.unwrap_or(4);
    Some(Command::Compile { name, workers })
}

/// The command to run, with what is given.
fn to_run<'a>(given: Given<'a>) -> Option<Command<'a>>
    ensures { MatchOption result (MakesNone (codes "run") (given_of given.entry))
        (λ command. Makes (codes "run") (given_of given.entry) (command_of command)) }
{
    let name = given.operand?;
    if given.workers.is_some() {
        return None;
    }
    if !is_name(name.as_bytes()) {
        return None;
    }
    let steps = given.steps.unwrap_or(10_000_000);
    let cells = given.cells.unwrap_or(1_000_000);
    Some(Command::Run { name, steps, cells })
}

/// The command to dump, with what is given.
fn to_dump<'a>(given: Given<'a>) -> Option<Command<'a>>
    ensures { MatchOption result (MakesNone (codes "dump") (given_of given.entry))
        (λ command. Makes (codes "dump") (given_of given.entry) (command_of command)) }
{
    let name = given.operand?;
    if given.workers.is_some() || given.steps.is_some() || given.cells.is_some() {
        return None;
    }
    if !is_name(name.as_bytes()) {
        return None;
    }
    Some(Command::Dump { name })
}

/// The command to count what the big module comes to, with what is given.
fn to_count<'a>(given: Given<'a>) -> Option<Command<'a>>
    ensures { MatchOption result (MakesNone (codes "big") (given_of given.entry))
        (λ command. Makes (codes "big") (given_of given.entry) (command_of command)) }
{
    let operand = given.operand?;
    if given.steps.is_some() || given.cells.is_some() {
        return None;
    }
    let procedures = procedures_in(operand)?;
    let workers = given.workers.unwrap_or(4);
    Some(Command::Big {
        procedures,
        workers,
    })
}

/// The command of a verb with what is given behind it.
fn made<'a>(verb: Verb, given: Given<'a>) -> Option<Command<'a>>
    ensures { MatchOption result (MakesNone (verb_text verb) (given_of given.entry))
        (λ command. Makes (verb_text verb) (given_of given.entry) (command_of command)) }
{
    match verb {
        Verb::Compile => to_compile(given),
        Verb::Run => to_run(given),
        Verb::Dump => to_dump(given),
        Verb::Big => to_count(given),
    }
}

/// The command that the words behind the program's name ask for; `None` where they are no command.
pub fn read_command(alloc: Global, words: &[String]) -> Result<Option<Command<'_>>, Memory>
    ensures { IfOk result (λ found. MatchOption found (IsNoCommand (map string_bytes words.now))
        (λ command. Asks (map string_bytes words.now) (command_of command))) }
{
    let Some((first, others)) = words.split_first() else {
        return Ok(None);
    };
    let Some(verb) = verb_of(first.as_str()) else {
        return Ok(None);
    };
    match read(alloc, verb, others)? {
        Some(given) => Ok(made(verb, given)),
        None => Ok(None),
    }
}
