//! Numerals.
ghost use Rattle.std.specs.Prelude.{◌≡◌};
ghost use Rattle.std.specs.List.{list_all};
ghost use Rattle.m2_base.specs.Letters.{is_digit as spec_digit};
ghost use Rattle.command_words.specs.Numerals.{is_numeral as spec_numeral, value_to as spec_value};

use m2_base::is_digit;

fn all_digits(word: &[u8]) -> bool
    ensures { result ≡ list_all spec_digit word.now }
{
    word.iter().all(|byte| is_digit(*byte))
}

/// 1 to 10 decimal digits.
fn is_numeral(word: &[u8]) -> bool
    ensures { result ≡ spec_numeral word.now }
{
    !word.is_empty() && word.len() <= 10 && all_digits(word)
}

/// The value of a numeral from 1 to `most`.
pub fn value_to(most: u32, word: &str) -> Option<u32>
    ensures { result ≡ spec_value most word.now }
{
    if !is_numeral(word.as_bytes()) {
        return None;
    }
    match word.parse::<u32>() {
        Ok(value) if 1 <= value && value <= most => Some(value),
        Ok(_) => None,
        // It is greater than any.
        Err(_) => None,
    }
}
