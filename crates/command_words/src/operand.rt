//! What a verb is about.
ghost use Rattle.std.specs.Prelude.{◌≡◌};
ghost use Rattle.command_words.specs.Operands.{is_operand as spec_operand, procedures_in as spec_procedures};

use crate::name::is_name;
use crate::numeral::value_to;
use m2_base::MOST_PROCEDURES;

/// How many procedures a word gives the big module.
pub fn procedures_in(word: &str) -> Option<u32>
    ensures { result ≡ spec_procedures word.now }
{
    value_to(MOST_PROCEDURES as u32, word)
}

/// Whether a word is a module's name, or how many procedures the big module has.
pub fn is_operand(word: &str) -> bool
    ensures { result ≡ spec_operand word.now }
{
    is_name(word.as_bytes()) || procedures_in(word).is_some()
}
