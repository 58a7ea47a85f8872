//! The rows of a module of one block, and what is noted of its declarations.
use crate::case::Case;
use crate::declaring::{Made, analysed};
use crate::lexemes::name_of;
use crate::reading::{Sample, read};
use crate::streams::unit_of;
use anyhow::{Context, Result, ensure};
use m2_base::{Answer, Diag, MOST_CELLS, Memory, Names, Notes, Row, TokenKind};
use std::alloc::Global;
use std::fmt::Write;
use type_rules::TEXT;

/// The kinds of the rows of constants and of fields.
const CONSTANT: u8 = 1;

const FIELD: u8 = 7;

/// A sample's text has a fault before the module's: its tokens have numbers that are greater by one.
const FAULT: &[u8] = b"!";

/// What the analysis of a module's text makes, with the names of its unit.
fn made_of(alloc: Global, text: &[u8]) -> Result<(Names, Made), Memory> {
    let sample = read(alloc, text)?;
    let made = analysed(alloc, &sample)?;
    let Sample { texts, .. } = sample;
    Ok((texts.names, made))
}

/// A name, or a dash for none.
fn name_or_dash(alloc: Global, names: &Names, number: u64) -> Result<String> {
    match number {
        0 => Ok(String::from_str(alloc, "-")?),
        _ => name_of(alloc, names, number),
    }
}

/// A token's number in the module's text.
fn own_number(at: u32) -> u32 {
    at.saturating_sub(1)
}

/// Writes a row. The second number of a constant of the strings' type is its characters, and the last one of a field
/// is its name.
fn write_row(alloc: Global, lines: &mut String, names: &Names, row: &Row) -> Result<()> {
    let Row {
        kind,
        a,
        b,
        c,
        d,
        e,
        ..
    } = *row;
    ensure!(d == 0, "a row with one number more");
    ensure!(kind == FIELD || e == 0, "a row with two numbers more");
    let name = name_or_dash(alloc, names, u64::from(row.name))?;
    let at = own_number(row.at);
    write!(lines, "row {name} {kind} {at} {a} ")?;
    if kind == CONSTANT && a == i64::from(TEXT.ordinal) {
        let text = name_of(alloc, names, b.unsigned_abs())?;
        write!(lines, "\"{text}\"")?;
    } else {
        write!(lines, "{b}")?;
    }
    let field = name_or_dash(alloc, names, e.unsigned_abs())?;
    writeln!(lines, " {c} {field}")?;
    Ok(())
}

/// Writes the diagnostics in their order, each once, and the answers in that of their tokens.
fn write_notes(lines: &mut String, file: &str, notes: Notes) -> Result<()> {
    let Notes {
        mut diags,
        mut answers,
    } = notes;
    diags.sort()?;
    diags.dedup();
    answers.sort_by_key(|answer| answer.at)?;
    for Diag { at, code, .. } in diags {
        writeln!(lines, "diagnostic {file} {} {code}", own_number(at))?;
    }
    for Answer { at, place, .. } in answers {
        let (scope, ordinal) = (place.scope, place.ordinal);
        writeln!(lines, "answer {file} {} {scope} {ordinal}", own_number(at))?;
    }
    Ok(())
}

/// The token with which the statements of a text begin.
fn first_statement(alloc: Global, case: &Case) -> Result<u32> {
    let texts = unit_of(alloc, &case.main_text(alloc)?)?;
    for token in &texts.main().tokens {
        if token.kind == TokenKind::Begin {
            return Ok(token.at);
        }
    }
    Ok(u32::MAX)
}

/// The token of a line, if it is one of notes.
fn token_of(line: &str) -> Option<u32> {
    if line.starts_with("diagnostic ") || line.starts_with("answer ") {
        return line.split(' ').nth(2)?.parse().ok();
    }
    None
}

/// The lines without the notes of statements.
fn without_statements(alloc: Global, case: &Case, lines: &str) -> Result<String> {
    let first = first_statement(alloc, case)?;
    let mut kept = String::new(alloc);
    for line in lines.lines() {
        if token_of(line).is_none_or(|token| token < first) {
            writeln!(kept, "{line}")?;
        }
    }
    Ok(kept)
}

/// The lines that are wanted. What is noted of statements can't be asked without their code.
pub fn wanted(alloc: Global, case: &Case) -> Result<String> {
    without_statements(alloc, case, &case.lines(alloc, ">")?)
}

/// The lines of what the analysis of a module makes: its block, its rows and its notes.
fn lines_of(alloc: Global, file: &str, names: &Names, made: Made) -> Result<String> {
    let mut lines = format!(in alloc; "block 1 Main {file} outer 0 level 0 chain 1\n")?;
    for row in &made.rows {
        write_row(alloc, &mut lines, names, row)?;
    }
    let Made { notes, .. } = made;
    write_notes(&mut lines, file, notes)?;
    Ok(lines)
}

/// A unit of several blocks can't be analysed by these calls yet.
pub fn answer(alloc: Global, case: &Case) -> Result<Option<String>> {
    let wanted = case.lines(alloc, ">")?;
    if wanted.split("block ").count() != 2 {
        return Ok(None);
    }
    let mut text = FAULT.to_vec(alloc)?;
    text.extend_from_slice(&case.main_text(alloc)?)?;
    let (names, made) = made_of(alloc, &text).ok().context("no rows are made")?;
    // more of them are told at its name by the whole program alone
    if made.cell > MOST_CELLS {
        return Ok(None);
    }
    let file = case.main_file(alloc)?;
    let lines = lines_of(alloc, &file, &names, made)?;
    Ok(Some(without_statements(alloc, case, &lines)?))
}
