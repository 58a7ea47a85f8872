//! A law on the tokens of a text, the contract of a function that does nothing.
ghost use Rattle.std.specs.Prelude.{ℕ, List, ◌≤◌, length};
ghost use Rattle.m2_base.specs.Lists.{Each, IsPrefixOf};
ghost use Rattle.m2_base.specs.Names.{standard_names};
ghost use Rattle.m2_base.specs.Statics.ReadTrees.{IsReadToken};
ghost use Rattle.m2_base.specs.Tokens.{AreTokens};
ghost use Rattle.m2_base.specs.declared.token.Token.{Token};

/// The tokens of a text are as read: their names, numbers, characters and strings are those that a tree may have. The
/// names from which they are numbered on begin with those of every unit.
pub fn tokens_are_read()
    ensures { (before after : List (List ℕ)) (text : List ℕ) (tokens : List Token) → IsPrefixOf standard_names before
        → length text ≤ 1048576 → AreTokens before after text tokens → Each (IsReadToken after) tokens }
{}
