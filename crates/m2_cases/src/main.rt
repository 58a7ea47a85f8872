//! Do the public calls answer as another program calculated?
//!
//! `m2_cases` reads the files of cases in the folder that it's run in, gives each case to the call that its set is of,
//! and compares the answer with the lines that the case wants. It prints a line for each set, what was wanted and got
//! for each case that differs, and as the last line how many passed and failed. tests/README.md has the form of the
//! files.
#![tactic(auto)]

mod case;
mod codes;
mod declaring;
mod escapes;
mod lexemes;
mod objects;
mod reading;
mod rows;
mod runs;
mod sets;
mod shelves;
mod streams;

use crate::case::Case;
use crate::sets::{SETS, Set, answer, wanted};
use anyhow::{Context, Result};
use m2_io::{FolderShelf, Shelf};
use std::alloc::Global;
use std::process::ExitCode;

/// The most bytes of a file of cases.
const MOST_BYTES: usize = 16_777_216;

/// How many cases passed and failed, and how many weren't tried.
#[derive(Clone, Copy)]
struct Tally {
    passed: u32,
    failed: u32,
    left_out: u32,
}

fn main(rt: HostRuntime) -> Result<ExitCode> {
    let folder = String::from_str(rt.alloc(), ".")?;
    let mut shelf = FolderShelf::new(rt.clone()?, folder);
    let (mut passed, mut failed) = (0u32, 0u32);
    for (set, name) in SETS {
        let text = text_of(rt.alloc(), &mut shelf, name)?;
        let tally = try_set(&rt, set, name, &text)?;
        let left_out = match tally.left_out {
            0 => String::new(rt.alloc()),
            many => format!(in rt.alloc(); ", {many} not tried")?,
        };
        println!(rt;
            "{name}: {} passed, {} failed{left_out}",
            tally.passed, tally.failed
        )?;
        passed = passed.saturating_add(tally.passed);
        failed = failed.saturating_add(tally.failed);
    }
    println!(rt; "{passed} passed, {failed} failed")?;
    match failed {
        0 => Ok(ExitCode::SUCCESS),
        _ => Ok(ExitCode::FAILURE),
    }
}

/// The text of a set's file.
fn text_of<S: Shelf>(alloc: Global, shelf: &mut S, name: &str) -> Result<String> {
    let file = format!(in alloc; "{name}.txt")?;
    let found = shelf.get(alloc, &file, MOST_BYTES)?;
    Ok(String::from_utf8(found.context("a set has no file")?)?)
}

/// Tries each case of a set, and prints those that differ.
fn try_set<R: Print + AllocGlobal>(rt: &R, set: Set, name: &str, text: &str) -> Result<Tally> {
    let mut tally = Tally {
        passed: 0,
        failed: 0,
        left_out: 0,
    };
    for block in text.split("\n\n") {
        let Some(case) = Case::of_block(block) else {
            continue;
        };
        match try_case(rt, set, name, &case)? {
            Some(true) => tally.passed = tally.passed.saturating_add(1),
            Some(false) => tally.failed = tally.failed.saturating_add(1),
            None => tally.left_out = tally.left_out.saturating_add(1),
        }
    }
    Ok(tally)
}

/// Whether a case passes, if it is tried. An answer that there isn't is what is told of why.
fn try_case<R: Print + AllocGlobal>(
    rt: &R,
    set: Set,
    name: &str,
    case: &Case,
) -> Result<Option<bool>> {
    let found = match answer(rt.alloc(), set, case) {
        Ok(Some(answer)) => answer,
        Ok(None) => return Ok(None),
        Err(error) => format!(in rt.alloc(); "{error}\n")?,
    };
    let wanted = wanted(rt.alloc(), set, case)?;
    if found != wanted {
        println!(rt; "{name} {}: wanted\n{wanted}got\n{found}", case.name)?;
    }
    Ok(Some(found == wanted))
}
