//! The texts that a module rests on, from a shelf.
use crate::case::Case;
use crate::lexemes::name_of;
use anyhow::{Context, Result, ensure};
use def_import::{GatherFault, Gathered, gather};
use m2_base::{Diag, Texts};
use m2_io::{MemShelf, Shelf};
use std::alloc::Global;
use std::fmt::Write;

/// The name of the text of this number.
fn text_name(alloc: Global, texts: &Texts, number: u32) -> Result<String> {
    let text = texts.list.get(number as usize).context("no such text")?;
    name_of(alloc, &texts.names, u64::from(text.name))
}

/// Writes a line: its first word, and the names of the texts of these numbers.
fn write_names(
    alloc: Global,
    lines: &mut String,
    first: &str,
    texts: &Texts,
    numbers: &[u32],
) -> Result<()> {
    lines.push_str(first)?;
    for number in numbers {
        let name = text_name(alloc, texts, *number)?;
        write!(lines, " {name}")?;
    }
    lines.push('\n')?;
    Ok(())
}

/// Writes a diagnostic: its file, the place of its token, and its code.
fn write_diag(alloc: Global, lines: &mut String, texts: &Texts, diag: Diag) -> Result<()> {
    let text = texts.list.get(diag.text as usize).context("no such text")?;
    let token = text.tokens.get(diag.at as usize).context("no such token")?;
    let name = text_name(alloc, texts, diag.text)?;
    let kind = if text.definition { "def" } else { "mod" };
    let (line, column, code) = (token.line, token.column, diag.code);
    writeln!(lines, "{name}.{kind}:{line}:{column} {code}")?;
    Ok(())
}

/// The lines of a unit with what is wrong with its imports: its texts, the dependency order of its definition modules,
/// and its own definition, if there is one.
fn lines_of(alloc: Global, texts: &Texts, diags: &[Diag]) -> Result<String> {
    let mut lines = String::new(alloc);
    let all: Vec<u32> = (0..texts.list.len() as u32).collect(alloc)?;
    write_names(alloc, &mut lines, "texts", texts, &all)?;
    write_names(alloc, &mut lines, "order", texts, &texts.order)?;
    if let Some(own) = texts.own {
        write_names(alloc, &mut lines, "own", texts, &[own])?;
    }
    for diag in diags {
        write_diag(alloc, &mut lines, texts, *diag)?;
    }
    Ok(lines)
}

/// Whether gathering is ended by this call of the shelf, which fails as the call behind it does.
/// That one must be left.
fn is_ended_by(alloc: Global, case: &Case, call: u32) -> Result<bool> {
    let fails = vec![in alloc; call, call.saturating_add(1)]?;
    let mut shelf = MemShelf::new(case.files(alloc)?, fails, 0);
    let gathered = gather(alloc, &mut shelf, "M");
    let next = shelf.get(alloc, "", 0);
    ensure!(next.is_err(), "another number of calls");
    Ok(matches!(gathered, Err(GatherFault::ReadFault)))
}

/// Lets each call of the shelf fail, and one behind them, which isn't made.
fn try_calls(alloc: Global, case: &Case, calls: u32) -> Result<()> {
    for call in 1..=calls {
        ensure!(is_ended_by(alloc, case, call)?, "call {call} fails in vain");
    }
    let is_ended = is_ended_by(alloc, case, calls.saturating_add(1))?;
    ensure!(!is_ended, "more than {calls} calls");
    Ok(())
}

/// The lines of module M and of what it rests on.
pub fn answer(alloc: Global, case: &Case) -> Result<String> {
    if let Some(calls) = case.first("calls") {
        try_calls(alloc, case, calls.parse()?)?;
    }
    let mut shelf = MemShelf::new(case.files(alloc)?, Vec::new(alloc), 0);
    match gather(alloc, &mut shelf, "M") {
        Ok(Gathered::Whole(texts)) => lines_of(alloc, &texts, &[]),
        Ok(Gathered::Wrong(texts, diags)) => lines_of(alloc, &texts, &diags),
        Err(fault) => Ok(format!(in alloc; "{fault}\n")?),
    }
}
