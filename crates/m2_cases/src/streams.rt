//! The streams of a text, and the first of their faults.
use crate::case::Case;
use anyhow::{Context, Result, bail, ensure};
use m2_base::{Diag, StreamFault, Texts, Token, TokenKind};
use m2_lex::lone_text;
use m2_parse::{ParseFault, parse_stream, values_fit};
use std::alloc::Global;
use std::fmt::Write;
use stream_split::{SplitFault, StreamTokens, cut};

/// The most bytes of a text.
const MOST_BYTES: usize = 1_048_576;

/// The unit of a main text alone.
pub fn unit_of(alloc: Global, text: &[u8]) -> Result<Texts> {
    ensure!(text.len() <= MOST_BYTES, "too long a text");
    Ok(lone_text(alloc, b"M", text)?)
}

/// The streams of a unit.
fn streams_of(alloc: Global, texts: &Texts) -> Result<Vec<StreamTokens>> {
    match cut(alloc, texts) {
        Ok(streams) => Ok(streams),
        Err(SplitFault::TooManyStreams) => bail!("too many procedures"),
        Err(SplitFault::TooNested) => bail!("a procedure is nested too deep"),
        Err(SplitFault::Memory) => bail!("out of memory"),
    }
}

/// Writes the tokens of a stream. A Cut has the number of the stream that was cut out there.
fn write_tokens(lines: &mut String, tokens: &[Token]) -> Result<()> {
    lines.push_str("stream\n")?;
    for token in tokens {
        let Token {
            kind,
            value,
            at,
            ..
        } = *token;
        match kind {
            TokenKind::Cut => writeln!(lines, "{at} {kind:?} {value}")?,
            _ => writeln!(lines, "{at} {kind:?}")?,
        }
    }
    Ok(())
}

/// The tokens of a text's streams.
pub fn answer(alloc: Global, case: &Case) -> Result<String> {
    let texts = unit_of(alloc, &case.text(alloc, "")?)?;
    let mut lines = String::new(alloc);
    for stream in streams_of(alloc, &texts)? {
        write_tokens(&mut lines, &stream.tokens)?;
    }
    Ok(lines)
}

/// The first fault of a stream, if it has no tree.
fn fault_of(alloc: Global, stream: &StreamTokens) -> Result<Option<Diag>> {
    let tokens = stream.tokens.as_slice();
    ensure!(values_fit(tokens), "no values of tokens");
    match parse_stream(alloc, tokens, stream.text, stream.kind) {
        Ok(_tree) => Ok(None),
        Err(ParseFault::Fault(StreamFault::Syntax(diag))) => Ok(Some(diag)),
        Err(ParseFault::Fault(StreamFault::TooDeep { .. })) => bail!("nested too deep"),
        Err(ParseFault::Memory) => bail!("out of memory"),
    }
}

/// The line of a text's first fault, if there is one: the place of its token, and its code.
pub fn fault_answer(alloc: Global, case: &Case) -> Result<String> {
    let texts = unit_of(alloc, &case.main_text(alloc)?)?;
    let mut first: Option<Diag> = None;
    for stream in streams_of(alloc, &texts)? {
        let fault = fault_of(alloc, &stream)?;
        let is_first = match (first, fault) {
            (Some(first), Some(fault)) => fault.at <= first.at,
            _ => first.is_none(),
        };
        if is_first {
            first = fault;
        }
    }
    let Some(Diag { at, code, .. }) = first else {
        return Ok(String::new(alloc));
    };
    let token = texts.main().tokens.get(at as usize);
    let Token { line, column, .. } = *token.context("no such token")?;
    Ok(format!(in alloc; "{line}:{column} {code}\n")?)
}
