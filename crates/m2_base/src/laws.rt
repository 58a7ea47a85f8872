//! Laws on the definitions, each the contract of a function that does nothing.
ghost use Rattle.std.specs.Prelude.{◌≡◌, ℕ, List};
ghost use Rattle.m2_base.specs.Tokens.{AreTokens};
ghost use Rattle.m2_base.specs.declared.token.Token.{Token as TokenOf};

/// A text has one list of tokens, and brings one list of names.
pub fn one_list_of_tokens()
    ensures tokens { (old new new' : List (List ℕ)) (text : List ℕ) (these those : List TokenOf)
        → AreTokens old new text these → AreTokens old new' text those → these ≡ those }
    ensures names { (old new new' : List (List ℕ)) (text : List ℕ) (these those : List TokenOf)
        → AreTokens old new text these → AreTokens old new' text those → new ≡ new' }
{}
