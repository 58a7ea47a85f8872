//! What the grammar says of whole texts.
ghost use Rattle.std.specs.Prelude.{◌≡◌, ℕ, Bool, List};
ghost use Rattle.ll_grammar.specs.Grammar.{sub};
ghost use Rattle.ll_grammar.specs.Laws.{HasAnswer, HasOneAnswer};
ghost use Rattle.m2_base.specs.declared.token.Token.{Token};
ghost use Rattle.m2_base.specs.FaultsOf.{fault_in};
ghost use Rattle.m2_base.specs.Fronts.{Front, IsFront};
ghost use Rattle.m2_base.specs.Grammar.{grammar, main};
ghost use Rattle.m2_base.specs.WholeTexts.{main_blocks};

/// A text has one front at most.
pub fn text_has_one_front()
    ensures { (definition : Bool) (ts : List Token) (f g : Front) → IsFront definition ts f → IsFront definition ts g
        → f ≡ g }
{}

/// A main text, uncut, has the trees of its blocks or a first fault, and no second answer.
pub fn text_has_one_meaning()
    ensures exists { (m text : ℕ) → HasAnswer grammar (main sub) (main_blocks m) (fault_in text) }
    ensures one { (m text : ℕ) → HasOneAnswer grammar (main sub) (main_blocks m) (fault_in text) }
{}
