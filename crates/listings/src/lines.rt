//! The listing of diagnostics.
ghost use Rattle.std.specs.Prelude.{◌≡◌, ◌++◌, ◌<◌, Some, length, slice_get, decimal, IfOk, OnOk};
ghost use Rattle.listings.specs.Listing.{place_text, code_text, line_at, file_of as spec_file_of, line_in};
ghost use Rattle.listings.specs.Listing.{listing as spec_listing, unit_listing as spec_unit_listing};

use m2_base::{Diag, Diagnostic, Memory, Names, Text, Texts, Token};
use std::alloc::Global;

/// A line for each diagnostic at these tokens of the file.
pub fn listing(
    alloc: Global,
    file: &str,
    tokens: &[Token],
    diags: &[Diag],
) -> Result<Vec<u8>, Memory>
    ensures { IfOk result (λ listing. listing.items ≡ spec_listing file.now tokens.now diags.now) }
{
    let mut listing = Vec::new(alloc);
    for diag in diags {
        push_line(alloc, &mut listing, file.as_bytes(), tokens, *diag)?;
    }
    Ok(listing)
}

fn push_line(
    alloc: Global,
    listing: &mut Vec<u8>,
    file: &[u8],
    tokens: &[Token],
    diag: Diag,
) -> Result<(), Memory>
    ensures { OnOk result
        (listing.new.items ≡ listing.old.items ++ line_at file.now (slice_get tokens.now diag.at) diag.code) }
{
    match token_at(tokens, diag.at) {
        Some(token) => {
            push_place(alloc, listing, file, token)?;
            push_code(alloc, listing, diag.code)
        }
        None => Ok(()),
    }
}

fn token_at(tokens: &[Token], at: u32) -> Option<Token>
    ensures { result ≡ slice_get tokens.now at }
{
    tokens.get(at as usize).copied()
}

/// FILE:LINE:COLUMN and a colon.
fn push_place(alloc: Global, listing: &mut Vec<u8>, file: &[u8], token: Token) -> Result<(), Memory>
    ensures { OnOk result (listing.new.items ≡ listing.old.items ++ place_text file.now token.line token.column) }
{
    listing.extend_from_slice(file)?;
    listing.extend_from_slice(b":")?;
    push_number(alloc, listing, token.line)?;
    listing.extend_from_slice(b":")?;
    push_number(alloc, listing, token.column)?;
    listing.extend_from_slice(b": ")?;
    Ok(())
}

/// CODE TEXT and the end of the line.
fn push_code(alloc: Global, listing: &mut Vec<u8>, code: u8) -> Result<(), Memory>
    ensures { OnOk result (listing.new.items ≡ listing.old.items ++ code_text code) }
{
    push_number(alloc, listing, code as u32)?;
    listing.extend_from_slice(b" ")?;
    if let Some(diagnostic) = Diagnostic::of_code(code) {
        listing.extend_from_slice(diagnostic.text().as_bytes())?;
    }
    listing.extend_from_slice(b"\n")?;
    Ok(())
}

fn push_number(alloc: Global, listing: &mut Vec<u8>, number: u32) -> Result<(), Memory>
    ensures { OnOk result (listing.new.items ≡ listing.old.items ++ decimal number) }
{
    let digits = number.to_string(alloc)?;
    listing.extend_from_slice(digits.as_bytes())?;
    Ok(())
}

/// The name of a text's file.
fn file_of(alloc: Global, names: &Names, text: &Text) -> Result<Vec<u8>, Memory>
    requires { text.now.name < length names.now }
    ensures { IfOk result (λ file. file.items ≡ spec_file_of names.now text.now) }
{
    let mut file = names.bytes(text.name).to_vec(alloc)?;
    if text.definition {
        file.extend_from_slice(b".def")?;
    } else {
        file.extend_from_slice(b".mod")?;
    }
    Ok(file)
}

/// The line of a diagnostic of this text.
fn push_line_in(
    alloc: Global,
    listing: &mut Vec<u8>,
    names: &Names,
    text: &Text,
    diag: Diag,
) -> Result<(), Memory>
    requires { text.now.name < length names.now }
    ensures { OnOk result (listing.new.items ≡ listing.old.items ++ line_in names.now (Some text.now) diag) }
{
    let file = file_of(alloc, names, text)?;
    push_line(alloc, listing, &file, &text.tokens, diag)
}

/// The line of a diagnostic of a unit.
fn push_unit_line(
    alloc: Global,
    listing: &mut Vec<u8>,
    texts: &Texts,
    diag: Diag,
) -> Result<(), Memory>
    ensures { OnOk result
        (listing.new.items ≡ listing.old.items ++ line_in texts.now.names (slice_get texts.now.list diag.text) diag) }
{
    match texts.list.get(diag.text as usize) {
        Some(text) => push_line_in(alloc, listing, &texts.names, text, diag),
        None => Ok(()),
    }
}

/// A line for each diagnostic of a unit, each at its token in the file of its text.
pub fn unit_listing(alloc: Global, texts: &Texts, diags: &[Diag]) -> Result<Vec<u8>, Memory>
    ensures { IfOk result (λ listing. listing.items ≡ spec_unit_listing texts.now diags.now) }
{
    let mut listing = Vec::new(alloc);
    for diag in diags {
        push_unit_line(alloc, &mut listing, texts, *diag)?;
    }
    Ok(listing)
}
