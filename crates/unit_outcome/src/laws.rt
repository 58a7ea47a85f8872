//! Laws on units that are gathered whole, each the contract of a function that does nothing but cite others.
ghost use Rattle.std.specs.Prelude.{◌≡◌, List};
ghost use Rattle.def_import.specs.Answers.{IsWhole};
ghost use Rattle.m2_base.specs.Lists.{Each};
ghost use Rattle.m2_base.specs.Units.{Front, IsUnit, TextOf, UnitTexts};
ghost use Rattle.m2_base.specs.declared.notes.Diag.{Diag};
ghost use Rattle.merge_laws.specs.Texts.{IsWhole as IsWholeBy};
ghost use Rattle.stream_split.specs.Fronts.{AreFronts};
ghost use Rattle.unit_merge.specs.Outcome.{Outcome, diagnostics};
ghost use Rattle.unit_outcome.specs.Outcomes.{ComesTo};
ghost use Rattle.unit_outcome.specs.Tokens.{IsAtToken};

use merge_laws::unit_has_one_outcome;

/// Of a unit that is gathered whole nothing is left out, by whichever fronts of its texts the grammar tells.
/// It has such fronts.
pub fn gathered_units_are_whole()
    ensures fronts { (texts : UnitTexts) (whole : IsWhole texts) → AreFronts whole.front texts }
    ensures whole { (texts : UnitTexts) (front : TextOf → Front) → IsWhole texts → AreFronts front texts
        → IsWholeBy front texts }
{}

/// A unit that is gathered whole comes to one outcome at most.
pub fn whole_units_have_one_outcome()
    ensures { (texts : UnitTexts) (these those : Outcome) → IsUnit texts → IsWhole texts → ComesTo texts these
        → ComesTo texts those → these ≡ those }
{
    unit_has_one_outcome();
}

/// Each diagnostic that a unit comes to stands at a token of one of its texts: the first faults of the texts do, and
/// the diagnostics of all blocks, of their declarations as of their statements.
pub fn diagnostics_stand_in_their_texts()
    ensures { (texts : UnitTexts) (diags : List Diag) → IsUnit texts → IsWhole texts
        → ComesTo texts (diagnostics diags) → Each (IsAtToken texts) diags }
{}
