//! Laws on the definition, each the contract of a function that does nothing.
ghost use Rattle.std.specs.Prelude.{◌≡◌, ℕ, List};
ghost use Rattle.object_file.specs.Contents.{Contents};
ghost use Rattle.object_file.specs.Validity.{IsValid};
ghost use Rattle.object_text.specs.Text.{IsText};

/// An object has one text at most.
pub fn one_text()
    ensures { (o : Contents) (text other : List ℕ) → IsText o text → IsText o other → text ≡ other }
{}

/// A valid object has a text.
pub fn some_text()
    ensures { (o : Contents) → IsValid o → (text : List ℕ) × IsText o text }
{}
