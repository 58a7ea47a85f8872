//! A law on the definitions, the contract of a function that does nothing.
ghost use Rattle.std.specs.Prelude.{◌≡◌, ℕ, List, Option};
ghost use Rattle.m2_io.specs.Files.{Files};
ghost use Rattle.m2c_top.specs.Effects.{Effect, Gives};

/// The words have one outcome over these files, where this is left of the input.
pub fn one_outcome()
    ensures { (words : List (List ℕ)) (files : Files) (left : Option (List ℕ)) (these those : Effect)
        → Gives words files left these → Gives words files left those → these ≡ those }
{
    module_outcome::one_outcome();
    module_outcome::one_summary();
}
