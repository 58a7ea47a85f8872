//! What is given behind a verb.
ghost use Rattle.std.specs.Prelude.{◌≡◌, IfOk, map, MatchOption, option_map, string_bytes};
ghost use Rattle.clap.specs.Matches.{found_of};
ghost use Rattle.clap.specs.Walk.{rows_of};
ghost use Rattle.command_words.specs.Asking.{FindsNone, Finds, operand_found as spec_operand};
ghost use Rattle.command_words.specs.Asking.{value_found as spec_value};
ghost use Rattle.command_words.specs.Parts.{Adds, nothing};
ghost use Rattle.command_words.specs.Words.{GivesNone, given_of};

use crate::asking::command_for;
use crate::operand::is_operand;
use crate::setting::{Setting, value_in};
use crate::verb::Verb;
use clap::ArgMatches;
use clap::error::ErrorKind;
use m2_base::Memory;
use std::alloc::Global;

/// What the verb is about, and values of options.
#[derive(Clone, Copy, Drop)]
pub struct Given<'a> {
    pub operand: Option<&'a str>,
    pub workers: Option<u32>,
    pub steps: Option<u32>,
    pub cells: Option<u32>,
}

/// The operand, by the word that was found; `None` where that is none.
fn operand_found<'a>(found: Option<&'a str>) -> Option<Option<&'a str>>
    ensures { option_map (option_map (λ word. word.now)) result
        ≡ spec_operand (option_map (λ word. word.now) found.entry) }
{
    match found {
        Some(word) if is_operand(word) => Some(Some(word)),
        Some(_) => None,
        None => Some(None),
    }
}

/// An option's value, by the word that was found; `None` where that is none.
fn value_found(setting: Setting, found: Option<&str>) -> Option<Option<u32>>
    ensures { result ≡ spec_value setting (option_map (λ word. word.now) found.entry) }
{
    match found {
        Some(word) => Some(Some(value_in(setting, word)?)),
        None => Some(None),
    }
}

/// What the words that were found give; `None` where one of them isn't what it has to be.
fn given_in<'a>(matches: &ArgMatches<'a>) -> Option<Given<'a>>
    ensures { MatchOption result (FindsNone (rows_of (found_of matches.now)))
        (λ given. Finds (rows_of (found_of matches.now)) (given_of given)) }
{
    let operand = operand_found(matches.get_str("NAME"))?;
    let workers = value_found(Setting::Workers, matches.get_str("workers"))?;
    let steps = value_found(Setting::Steps, matches.get_str("steps"))?;
    let cells = value_found(Setting::Cells, matches.get_str("cells"))?;
    Some(Given {
        operand,
        workers,
        steps,
        cells,
    })
}

/// What the words behind a verb give; `None` where they give something twice, or aren't operands and options of the
/// verb with their values.
pub fn read<'a>(alloc: Global, verb: Verb, words: &'a [String]) -> Result<Option<Given<'a>>, Memory>
    ensures { IfOk result (λ found. MatchOption found (GivesNone verb (map string_bytes words.now))
        (λ given. Adds nothing (map string_bytes words.now) (given_of given))) }
{
    let command = command_for(alloc, verb)?;
    match command.try_get_matches_from(words) {
        Ok(matches) => Ok(given_in(&matches)),
        Err(error) => match error.kind() {
            ErrorKind::OutOfMemory => Err(Memory),
            _ => Ok(None),
        },
    }
}
