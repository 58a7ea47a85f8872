//! The sets of cases.
use crate::case::Case;
use crate::{codes, lexemes, objects, rows, runs, shelves, streams};
use anyhow::{Context, Result};
use m2_base::Diagnostic;
use std::alloc::Global;

/// A set of cases.
#[derive(Clone, Copy)]
pub enum Set {
    /// Texts with their tokens.
    Lex,
    /// Texts with the place where the grammar refuses them.
    Syntax,
    /// Texts with the streams that they are cut into.
    Streams,
    /// Shelves with the texts that a module rests on.
    Shelves,
    /// Units with their rows.
    Rows,
    /// Modules with the code of their object.
    Blocks,
    /// Bytes with what is told of them as an object.
    Objects,
    /// Objects with how they run.
    Runs,
    /// Codes with what a listing says of them.
    Diagnostics,
}

/// The sets, with the names that they have from their files.
pub const SETS: [(Set, &str); 9] = [
    (Set::Lex, "lex"),
    (Set::Syntax, "syntax"),
    (Set::Streams, "streams"),
    (Set::Shelves, "shelves"),
    (Set::Rows, "rows"),
    (Set::Blocks, "blocks"),
    (Set::Objects, "objects"),
    (Set::Runs, "runs"),
    (Set::Diagnostics, "diagnostics"),
];

/// The lines that a case wants.
pub fn wanted(alloc: Global, set: Set, case: &Case) -> Result<String> {
    match set {
        Set::Rows => rows::wanted(alloc, case),
        Set::Syntax => Ok(case.lines(alloc, "fault")?),
        Set::Blocks => Ok(case.lines(alloc, "procedure")?),
        _ => Ok(case.lines(alloc, ">")?),
    }
}

/// What is answered to a case, in the form of the lines that are wanted; none where no call takes it yet.
pub fn answer(alloc: Global, set: Set, case: &Case) -> Result<Option<String>> {
    match set {
        Set::Lex => Ok(Some(lexemes::answer(alloc, case)?)),
        Set::Syntax => Ok(Some(streams::fault_answer(alloc, case)?)),
        Set::Streams => Ok(Some(streams::answer(alloc, case)?)),
        Set::Shelves => Ok(Some(shelves::answer(alloc, case)?)),
        Set::Rows => rows::answer(alloc, case),
        Set::Blocks => codes::answer(alloc, case),
        Set::Objects => Ok(Some(objects::answer(alloc, case)?)),
        Set::Runs => runs::answer(alloc, case),
        Set::Diagnostics => Ok(Some(listed(alloc, case)?)),
    }
}

/// The code and the text of its diagnostic; `none` where it is no diagnostic's.
fn listed(alloc: Global, case: &Case) -> Result<String> {
    let code = case.first("code").context("no code")?.parse::<u8>()?;
    match Diagnostic::of_code(code) {
        Some(diagnostic) => Ok(format!(in alloc; "{diagnostic}\n")?),
        None => Ok(String::from_str(alloc, "none\n")?),
    }
}
