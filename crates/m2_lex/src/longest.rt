//! The longest lexeme at the front of a text.
ghost use Rattle.std.specs.Prelude.{◌≡◌, ◌≤◌, ◌<◌, ◌+◌, ℕ, length, take, drop, slice_index, is_some, IsTrue};
ghost use Rattle.std.specs.Prelude.{MatchOption};
ghost use Rattle.std.specs.List.{prefix_len};
ghost use Rattle.m2_base.specs.Letters.{is_hexadecimal_digit as spec_hexadecimal_digit, is_digit as spec_digit};
ghost use Rattle.m2_base.specs.Letters.{is_quote as spec_quote};
ghost use Rattle.m2_base.specs.Kinds.{kind_in, symbols};
ghost use Rattle.m2_base.specs.Lexemes.{IsLongest};
ghost use Rattle.m2_lex.specs.Ahead.{IsPlain, ShowsH};
ghost use Rattle.m2_lex.specs.Numerals.{plain_length};
ghost use Rattle.m2_lex.specs.Symbols.{symbol_length};

use crate::comment::{comment_len, opens_comment};
use crate::runs::{
    blanks, byte_at, digits, hexadecimal_digits, letters, octal_digits, string_bytes,
};
use m2_base::{is_blank, is_digit, is_letter, is_quote, symbol_kind};

/// The length of the longest lexeme at the front.
///
/// `plain` counts hexadecimal digits ahead that are known to come before no `H`, so that they aren't looked through
/// again for each of the numbers among them.
pub fn lexeme_len(text: &[u8], plain: &mut usize) -> usize
    requires some { 1 ≤ length text.now }
    requires plain { IsPlain plain.old text.now }
    ensures within { result ≤ length text.now }
    ensures some { 1 ≤ result }
    ensures longest { IsLongest (take result text.now) (drop result text.now) }
    ensures plain { IsPlain plain.new (drop result text.now) }
{
    let first = text[0];
    if is_digit(first) {
        return numeral_len(text, plain);
    }
    *plain = 0;
    if is_blank(first) {
        blanks(text)
    } else if is_letter(first) {
        letters(text)
    } else if is_quote(first) {
        string_len(text)
    } else if opens_comment(text) {
        comment_len(text).unwrap_or(text.len())
    } else {
        symbol_len(text)
    }
}

/// The length of the longest numeral at the front.
fn numeral_len(text: &[u8], plain: &mut usize) -> usize
    requires digit { IsTrue (spec_digit (slice_index text.now 0)) }
    requires plain { IsPlain plain.old text.now }
    ensures within { result ≤ length text.now }
    ensures some { 1 ≤ result }
    ensures longest { IsLongest (take result text.now) (drop result text.now) }
    ensures plain { IsPlain plain.new (drop result text.now) }
{
    if let Some(count) = hexadecimal_len(text, plain) {
        return count;
    }
    let count = plain_len(text);
    *plain = plain.saturating_sub(count);
    count
}

/// The length of the hexadecimal numeral at the front, if one stands there.
fn hexadecimal_len(text: &[u8], plain: &mut usize) -> Option<usize>
    requires { IsPlain plain.old text.now }
    ensures length { MatchOption result
        (ShowsH text.now → ⊥) (λ count. (count ≡ prefix_len spec_hexadecimal_digit text.now + 1) × (ShowsH text.now)) }
    ensures plain { MatchOption result (IsPlain plain.new text.now) (λ _. plain.new ≡ 0) }
{
    if *plain > 0 {
        return None;
    }
    let count = hexadecimal_digits(text);
    if byte_at(text, count) == b'H' {
        return Some(count + 1);
    }
    *plain = count;
    None
}

/// The length of the longest numeral at the front that is no hexadecimal one.
fn plain_len(text: &[u8]) -> usize
    ensures { result ≡ plain_length text.now }
{
    let count = octal_digits(text);
    match byte_at(text, count) {
        b'B' | b'C' => count + 1,
        _ => digits(text),
    }
}

/// The length of the string at the front, up to its closing quote, or where that lacks, up to the end of the line.
fn string_len(text: &[u8]) -> usize
    requires quote { IsTrue (spec_quote (slice_index text.now 0)) }
    ensures within { result ≤ length text.now }
    ensures some { 1 ≤ result }
    ensures longest { IsLongest (take result text.now) (drop result text.now) }
{
    let quote = text[0];
    let inside = string_bytes(&text[1..], quote);
    if byte_at(text, 1 + inside) == quote {
        2 + inside
    } else {
        1 + inside
    }
}

/// The length of the symbol at the front, or 1 for a byte that no token has.
fn symbol_len(text: &[u8]) -> usize
    requires { 1 ≤ length text.now }
    ensures within { result ≤ length text.now }
    ensures some { 1 ≤ result }
    ensures symbol { result ≡ symbol_length text.now }
{
    if text.len() >= 2 && begins_with_pair(text) {
        2
    } else {
        1
    }
}

/// Whether a symbol of two bytes stands at the front. Only few bytes end one, so that the table is seldom looked at.
fn begins_with_pair(text: &[u8]) -> bool
    requires { 2 ≤ length text.now }
    ensures { result ≡ is_some (kind_in symbols (take 2 text.now)) }
{
    matches!(text[1], b'=' | b'>' | b'.') && symbol_kind(&text[..2]).is_some()
}
