//! Units with more than one block: what the definitions note of them,
//! each the contract of a function that does nothing.
ghost use Rattle.std.specs.Prelude.{◌≡◌, ◌∷◌, []};
ghost use Rattle.worked_units.specs.SeveralBlocks.{at, no_result, no_values, noted, own_name, wrong_value};

/// A result that has the name of one of the block's own declarations is used before that, and in error: what RETURN
/// gives isn't compared with it.
pub fn result_of_own_name()
    ensures { noted own_name ≡ at 13 41 ∷ [] }
{}

/// A call of a heading that the module lacks: its arguments are compared with the heading's parameters, and the call
/// is in error.
pub fn arguments_of_lacking()
    ensures value { noted wrong_value ≡ at 2 64 ∷ at 7 50 ∷ [] }
    ensures values { noted no_values ≡ at 2 64 ∷ at 14 48 ∷ at 16 66 ∷ [] }
    ensures result { noted no_result ≡ at 2 64 ∷ [] }
{}
