//! A law on what is gathered, the contract of a function that does nothing.
ghost use Rattle.std.specs.Prelude.{◌≡◌, ℕ, List, Some};
ghost use Rattle.m2_io.specs.Files.{Files};
ghost use Rattle.def_import.specs.Outcomes.{ComesFrom, ComesOf, Outcome};

/// Given files have one outcome: a unit with what is wrong with it, or a limit, or no main text. So shelves with the
/// same files give the same, and what a main text from the caller comes to is decided by it and the files.
pub fn given_files_have_one_outcome()
    ensures from_files { (files : Files) (file : List ℕ) (a b : Outcome)
        → ComesFrom (Some files) file a → ComesFrom (Some files) file b → a ≡ b }
    ensures of_text { (files : Files) (file main : List ℕ) (a b : Outcome)
        → ComesOf (Some files) file main a → ComesOf (Some files) file main b → a ≡ b }
{}
