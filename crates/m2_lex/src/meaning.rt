//! What a lexeme stands for.
ghost use Rattle.std.specs.Prelude.{◌≡◌, ◌<◌, ◌≤◌, length, MatchOption};
ghost use Rattle.m2_base.specs.Kinds.{kind_in, reserved_words, symbols};
ghost use Rattle.m2_base.specs.Meanings.{meaning_of as spec_meaning, numeral_meaning as spec_numeral};
ghost use Rattle.m2_base.specs.Meanings.{string_meaning as spec_string, comment_meaning as spec_comment};
ghost use Rattle.m2_base.specs.Meanings.{value_in as spec_value_in, digit_value as spec_digit_value, number_of};
ghost use Rattle.m2_base.specs.Meanings.{character_of, fixed_or, name, bad};
ghost use Rattle.m2_lex.specs.Understood.{stands_for};

use crate::comment::{comment_len, opens_comment};
use crate::runs::{hexadecimal_digits, octal_digits, string_bytes};
use m2_base::{
    Diagnostic, GREATEST_CARDINAL, GREATEST_CHARACTER, TokenKind, is_blank, is_digit, is_letter,
    is_quote, reserved_kind, symbol_kind,
};

/// The greatest number.
const MOST: u64 = GREATEST_CARDINAL as u64;

/// Nothing, a name, a number, a character, a string, a token of a kind that says all, or a fault.
pub enum Meaning<'a> {
    Blank,
    Name(&'a [u8]),
    Number(u32),
    Character(u8),
    String(&'a [u8]),
    Fixed(TokenKind),
    Bad(Diagnostic),
}

/// What a lexeme stands for.
pub fn meaning_of(lexeme: &[u8]) -> Meaning<'_>
    ensures { stands_for result ≡ spec_meaning lexeme.now }
{
    if lexeme.is_empty() {
        return Meaning::Fixed(TokenKind::EndOfText);
    }
    let first = lexeme[0];
    if is_blank(first) {
        Meaning::Blank
    } else if is_letter(first) {
        word_meaning(lexeme)
    } else if is_digit(first) {
        numeral_meaning(lexeme)
    } else if is_quote(first) {
        string_meaning(first, &lexeme[1..])
    } else if opens_comment(lexeme) {
        comment_meaning(lexeme)
    } else {
        symbol_meaning(lexeme)
    }
}

/// What a word stands for: a reserved word, or a name.
fn word_meaning(word: &[u8]) -> Meaning<'_>
    ensures { stands_for result ≡ fixed_or (kind_in reserved_words word.now) (name word.now) }
{
    match reserved_kind(word) {
        Some(kind) => Meaning::Fixed(kind),
        None => Meaning::Name(word),
    }
}

/// What a numeral stands for, by its last letter.
fn numeral_meaning(numeral: &[u8]) -> Meaning<'_>
    ensures { stands_for result ≡ spec_numeral numeral.now }
{
    let (hexadecimal, last) = numeral.split_at(hexadecimal_digits(numeral));
    if last == b"H".as_slice() {
        return number_meaning(16, hexadecimal);
    }
    let (octal, last) = numeral.split_at(octal_digits(numeral));
    if last == b"B".as_slice() {
        number_meaning(8, octal)
    } else if last == b"C".as_slice() {
        character_meaning(octal)
    } else {
        number_meaning(10, numeral)
    }
}

/// The number that digits say, unless it is too great.
fn number_meaning(base: u64, digits: &[u8]) -> Meaning<'_>
    requires some { 1 ≤ base }
    requires most { base ≤ 16 }
    ensures { stands_for result ≡ number_of (spec_value_in base digits.now) }
{
    match value_in(base, digits) {
        Some(value) => Meaning::Number(value),
        None => Meaning::Bad(Diagnostic::NumberTooLarge),
    }
}

/// The character that octal digits say, unless it is too great.
fn character_meaning(digits: &[u8]) -> Meaning<'_>
    ensures { stands_for result ≡ character_of (spec_value_in 8 digits.now) }
{
    match value_in(8, digits) {
        Some(value) if value as i64 <= GREATEST_CHARACTER => Meaning::Character(value as u8),
        _ => Meaning::Bad(Diagnostic::NumberTooLarge),
    }
}

/// What a string stands for, by its quote and the bytes behind that.
fn string_meaning(quote: u8, bytes: &[u8]) -> Meaning<'_>
    ensures { stands_for result ≡ spec_string quote bytes.now }
{
    let (inside, last) = bytes.split_at(string_bytes(bytes, quote));
    if last == [quote].as_slice() {
        Meaning::String(inside)
    } else {
        Meaning::Bad(Diagnostic::StringNotClosed)
    }
}

/// A comment separates tokens, if it is closed.
fn comment_meaning(comment: &[u8]) -> Meaning<'_>
    requires { 2 ≤ length comment.now }
    ensures { stands_for result ≡ spec_comment comment.now }
{
    match comment_len(comment) {
        Some(_) => Meaning::Blank,
        None => Meaning::Bad(Diagnostic::CommentNotClosed),
    }
}

/// What any other byte or two stand for: a symbol, or a fault.
fn symbol_meaning(spelling: &[u8]) -> Meaning<'_>
    ensures { stands_for result ≡ fixed_or (kind_in symbols spelling.now) (bad 10) }
{
    match symbol_kind(spelling) {
        Some(kind) => Meaning::Fixed(kind),
        None => Meaning::Bad(Diagnostic::CharacterNotAllowed),
    }
}

/// The value of digits to a base, if it is at most that of 32 bits.
fn value_in(base: u64, digits: &[u8]) -> Option<u32>
    requires some { 1 ≤ base }
    requires most { base ≤ 16 }
    ensures { MatchOption result (4294967295 < spec_value_in base digits.now)
        (λ value. (value ≡ spec_value_in base digits.now) × (value ≤ 4294967295)) }
{
    let mut value = 0;
    for digit in digits {
        value = value * base + u64::from(digit_value(*digit));
        if value > MOST {
            return None;
        }
    }
    Some(value as u32)
}

/// The value of a digit, where A stands for ten.
fn digit_value(digit: u8) -> u8
    ensures { result ≡ spec_digit_value digit }
{
    if is_digit(digit) {
        digit - b'0'
    } else {
        digit.saturating_sub(b'A' - 10)
    }
}
