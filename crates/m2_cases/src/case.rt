//! Cases, as their files have them.
use crate::escapes::unescaped;
use anyhow::{Context, Result};
use std::alloc::{AllocError, Global};
use std::collections::BTreeMap;

/// A case: its name, and its other lines. Each line has a mark, and behind a blank what it says.
#[derive(Clone, Copy)]
pub struct Case<'a> {
    pub name: &'a str,
    body: &'a str,
}

/// The mark of a line, and what it says.
fn parts(line: &str) -> (&str, &str) {
    line.split_once(' ').unwrap_or((line, ""))
}

/// Adds the same bytes so many times, as a line of a case says it, to the line before.
fn push_times(alloc: Global, text: &mut Vec<u8>, line: &str) -> Result<()> {
    let (times, same) = line.split_once(' ').context("nothing to add")?;
    let bytes = unescaped(alloc, same)?;
    text.pop();
    for _ in 0..times.parse::<u32>()? {
        text.extend_from_slice(&bytes)?;
    }
    text.push(b'\n')?;
    Ok(())
}

/// The text of lines. Nothing ends its last line.
fn text_of(alloc: Global, lines: &str) -> Result<Vec<u8>> {
    let mut text = Vec::new(alloc);
    for line in lines.lines() {
        match parts(line) {
            ("|", rest) => {
                text.extend_from_slice(&unescaped(alloc, rest)?)?;
                text.push(b'\n')?;
            }
            ("*", rest) => push_times(alloc, &mut text, rest)?,
            _ => {}
        }
    }
    text.pop();
    Ok(text)
}

impl<'a> Case<'a> {
    /// The case that these lines are.
    pub fn of_block(block: &'a str) -> Option<Case<'a>> {
        let (head, body) = block.split_once('\n')?;
        let name = head.strip_prefix("case ")?;
        Some(Case { name, body })
    }

    /// What the first line with this mark says.
    pub fn first(&self, mark: &str) -> Option<&'a str> {
        for line in self.body.lines() {
            let (own, rest) = parts(line);
            if own == mark {
                return Some(rest);
            }
        }
        None
    }

    /// What the lines with this mark say, each with its end.
    pub fn lines(&self, alloc: Global, mark: &str) -> Result<String, AllocError> {
        let mut all = String::new(alloc);
        for line in self.body.lines() {
            let (own, rest) = parts(line);
            if own == mark {
                all.push_str(rest)?;
                all.push('\n')?;
            }
        }
        Ok(all)
    }

    /// The name of the main module's file.
    pub fn main_file(&self, alloc: Global) -> Result<String> {
        let name = self.first("main").context("no main module")?;
        Ok(format!(in alloc; "{name}.mod")?)
    }

    /// The main module's text.
    pub fn main_text(&self, alloc: Global) -> Result<Vec<u8>> {
        let file = self.main_file(alloc)?;
        self.text(alloc, &file)
    }

    /// The text of a file, or the only text of a case without files.
    pub fn text(&self, alloc: Global, file: &str) -> Result<Vec<u8>> {
        for part in self.body.split("\nfile ").skip(1) {
            if let Some((name, lines)) = part.split_once('\n')
                && name == file
            {
                return text_of(alloc, lines);
            }
        }
        text_of(alloc, self.body)
    }

    /// The texts of all files, under their names. The first line of the case is none of a file.
    pub fn files(&self, alloc: Global) -> Result<BTreeMap<String, Vec<u8>>> {
        let mut files = BTreeMap::new(alloc);
        for file in self.body.split("\nfile ").skip(1) {
            let (name, lines) = file.split_once('\n').context("no lines of a file")?;
            files.insert(String::from_str(alloc, name)?, text_of(alloc, lines)?)?;
        }
        Ok(files)
    }
}
