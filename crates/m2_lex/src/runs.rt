//! Runs of bytes of one class.
ghost use Rattle.std.specs.Prelude.{◌≡◌, ◌≤◌, length, slice_index};
ghost use Rattle.std.specs.List.{prefix_len};
ghost use Rattle.m2_base.specs.Letters.{is_digit as spec_digit, is_octal_digit as spec_octal_digit};
ghost use Rattle.m2_base.specs.Letters.{is_hexadecimal_digit as spec_hexadecimal_digit, goes_on as spec_goes_on};
ghost use Rattle.m2_base.specs.Letters.{is_blank as spec_blank, stays_in as spec_stays_in};

use m2_base::{goes_on, is_blank, is_digit, is_hexadecimal_digit, is_octal_digit, stays_in};

/// How many blanks stand at the front.
pub fn blanks(text: &[u8]) -> usize
    ensures count { result ≡ prefix_len spec_blank text.now }
    ensures within { result ≤ length text.now }
{
    text.iter().take_while(|byte| is_blank(**byte)).count()
}

/// How many letters and digits stand at the front.
pub fn letters(text: &[u8]) -> usize
    ensures count { result ≡ prefix_len spec_goes_on text.now }
    ensures within { result ≤ length text.now }
{
    text.iter().take_while(|byte| goes_on(**byte)).count()
}

/// How many digits stand at the front.
pub fn digits(text: &[u8]) -> usize
    ensures count { result ≡ prefix_len spec_digit text.now }
    ensures within { result ≤ length text.now }
{
    text.iter().take_while(|byte| is_digit(**byte)).count()
}

/// How many octal digits stand at the front.
pub fn octal_digits(text: &[u8]) -> usize
    ensures count { result ≡ prefix_len spec_octal_digit text.now }
    ensures within { result ≤ length text.now }
{
    text.iter()
        .take_while(|byte| is_octal_digit(**byte))
        .count()
}

/// How many hexadecimal digits stand at the front.
pub fn hexadecimal_digits(text: &[u8]) -> usize
    ensures count { result ≡ prefix_len spec_hexadecimal_digit text.now }
    ensures within { result ≤ length text.now }
{
    text.iter()
        .take_while(|byte| is_hexadecimal_digit(**byte))
        .count()
}

/// How many bytes at the front may stand in a string between these quotes.
pub fn string_bytes(text: &[u8], quote: u8) -> usize
    ensures count { result ≡ prefix_len (spec_stays_in quote) text.now }
    ensures within { result ≤ length text.now }
{
    text.iter()
        .take_while(|byte| stays_in(quote, **byte))
        .count()
}

/// The byte at this place, or 0 behind the end.
pub fn byte_at(text: &[u8], place: usize) -> u8
    ensures { result ≡ slice_index text.now place }
{
    if place < text.len() { text[place] } else { 0 }
}
