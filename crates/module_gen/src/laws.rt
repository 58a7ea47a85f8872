//! Laws on the definition, each the contract of a function that does nothing.
ghost use Rattle.std.specs.Prelude.{◌≡◌, ℕ, ◌+◌, ◌*◌, ◌<◌, ◌≤◌, length};
ghost use Rattle.std.specs.Str.{IsAscii};
ghost use Rattle.module_gen.specs.BigModule.{lines_of, text_of};

/// The text is one that a compiler takes: it isn't longer than a text may be, and each byte is ASCII.
pub fn big_is_a_text()
    ensures lines { (procedures : ℕ) → length (lines_of procedures) ≡ 3 * procedures + 5 }
    ensures short { (procedures : ℕ) → procedures ≤ 16384 → length (text_of procedures) < 1048576 }
    ensures bytes { (procedures : ℕ) → procedures ≤ 16384 → IsAscii (text_of procedures) }
{}
