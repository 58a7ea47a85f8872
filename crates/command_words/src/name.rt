//! The names of modules.
ghost use Rattle.std.specs.Prelude.{◌≡◌};
ghost use Rattle.std.specs.List.{list_all};
ghost use Rattle.m2_base.specs.Letters.{goes_on as spec_goes_on};
ghost use Rattle.command_words.specs.Names.{is_name as spec_name, is_identifier as spec_identifier};

use m2_base::{goes_on, is_letter, reserved_kind};

/// Whether a word is a module's name.
pub fn is_name(word: &[u8]) -> bool
    ensures { result ≡ spec_name word.now }
{
    let is_taken = reserved_kind(word).is_some() || word == b"InOut".as_slice();
    is_identifier(word) && word.len() <= 64 && !is_taken
}

/// A letter or underscore, and then letters, underscores and digits.
fn is_identifier(word: &[u8]) -> bool
    ensures { result ≡ spec_identifier word.now }
{
    match word {
        [first, rest @ ..] => is_letter(*first) && all_go_on(rest),
        [] => false,
    }
}

fn all_go_on(bytes: &[u8]) -> bool
    ensures { result ≡ list_all spec_goes_on bytes.now }
{
    bytes.iter().all(|byte| goes_on(*byte))
}
