//! The options.
ghost use Rattle.std.specs.Prelude.{◌≡◌};
ghost use Rattle.command_words.specs.Settings.{most as spec_most, value_in as spec_value};

use crate::numeral::value_to;

/// An option.
#[derive(Clone, Copy)]
pub enum Setting {
    /// How many workers compile.
    Workers,
    /// How many steps a program may take.
    Steps,
    /// How many cells a program has.
    Cells,
}

impl Setting {
    /// The greatest value.
    fn most(self) -> u32
        ensures { result ≡ spec_most self }
    {
        match self {
            Setting::Workers => 64,
            Setting::Steps => 1_000_000_000,
            Setting::Cells => 16_777_216,
        }
    }
}

/// The value that a word gives an option.
pub fn value_in(setting: Setting, word: &str) -> Option<u32>
    ensures { result ≡ spec_value setting word.now }
{
    value_to(setting.most(), word)
}
