//! The tokens of a text.
use crate::case::Case;
use crate::escapes::escaped;
use anyhow::{Context, Result, ensure};
use m2_base::{Names, Token, TokenKind};
use m2_lex::lex;
use std::alloc::Global;
use std::fmt::Write;

/// The most bytes of a text.
const MOST_BYTES: usize = 1_048_576;

/// The names that each unit begins with.
const STANDARD_NAMES: u32 = 28;

/// The text of a number.
pub fn name_of(alloc: Global, names: &Names, number: u64) -> Result<String> {
    ensure!(number < u64::from(names.count()), "no such name");
    Ok(escaped(alloc, names.bytes(number as u32))?)
}

/// Writes the line of a token: where it stands, its kind, and its value, of which a name and a string are written out.
fn write_token(alloc: Global, lines: &mut String, names: &Names, token: &Token) -> Result<()> {
    let Token {
        kind,
        value,
        line,
        column,
        ..
    } = *token;
    match kind {
        TokenKind::Identifier => {
            let name = name_of(alloc, names, value)?;
            writeln!(lines, "{line}:{column} {kind:?} {name}")?;
        }
        TokenKind::String => {
            let text = name_of(alloc, names, value)?;
            writeln!(lines, "{line}:{column} {kind:?} \"{text}\"")?;
        }
        _ => writeln!(lines, "{line}:{column} {kind:?} {value}")?,
    }
    Ok(())
}

/// The lines of a text's tokens.
pub fn answer(alloc: Global, case: &Case) -> Result<String> {
    let text = case.text(alloc, "")?;
    ensure!(text.len() <= MOST_BYTES, "too long a text");
    let mut names = Names::new(alloc).ok().context("out of memory")?;
    ensure!(names.count() == STANDARD_NAMES, "other names");
    let tokens = lex(alloc, &text, &mut names)?;
    let mut lines = String::new(alloc);
    for token in &tokens {
        write_token(alloc, &mut lines, &names, token)?;
    }
    Ok(lines)
}
