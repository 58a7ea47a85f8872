//! Laws on the definitions, each the contract of a function that does nothing.
ghost use Rattle.std.specs.Prelude.{◌≡◌, ℕ, List, Option, Some};
ghost use Rattle.def_import.specs.Outcomes.{IsGatheredFrom};
ghost use Rattle.m2_base.specs.Lists.{Each};
ghost use Rattle.m2_base.specs.Units.{IsUnit, UnitTexts};
ghost use Rattle.m2_base.specs.declared.notes.Diag.{Diag};
ghost use Rattle.m2_base.specs.declared.outputs.StreamFault.{StreamFault};
ghost use Rattle.m2_io.specs.Files.{Files};
ghost use Rattle.unit_merge.specs.Outcome.{refusals};
ghost use Rattle.unit_merge.specs.TextFaults.{AreFaults};
ghost use Rattle.module_outcome.specs.Decisions.{Decides};
ghost use Rattle.module_outcome.specs.Lines.{HasLine};
ghost use Rattle.module_outcome.specs.Big.{Summarizes};
ghost use Rattle.module_outcome.specs.Outcome.{Compiles, Outcome};
ghost use Rattle.module_outcome.specs.Verdicts.{listed};
ghost use Rattle.module_outcome.specs.declared.answer.Answer.{Answer};

use def_import::given_files_have_one_outcome;
use unit_outcome::{diagnostics_stand_in_their_texts, whole_units_have_one_outcome};

/// Compiling a module over given files has one outcome.
pub fn one_outcome()
    ensures { (files : Files) (name : List ℕ) (these those : Outcome) → Compiles (Some files) name these
        → Compiles (Some files) name those → these ≡ those }
{
    given_files_have_one_outcome();
    whole_units_have_one_outcome();
}

/// Compiling the module Big of so many procedures over given files has one answer, and prints one text.
pub fn one_summary()
    ensures { (files : Files) (n : ℕ) (this other : Answer) (these those : List ℕ)
        → Summarizes (Some files) n this these → Summarizes (Some files) n other those
        → (this ≡ other) × (these ≡ those) }
{
    given_files_have_one_outcome();
    whole_units_have_one_outcome();
}

/// What is wrong with the imports of a unit stands at tokens of its texts, and so has lines in the listing.
pub fn wrong_imports_have_lines()
    ensures { (files : Files) (name : List ℕ) (unit : UnitTexts) (wrongs : List Diag)
        → IsGatheredFrom (Some files) name unit wrongs → Each (HasLine unit) wrongs }
{}

/// The first faults of a unit's texts stand at tokens of their texts, and so have lines in the listing.
pub fn refusals_have_lines()
    ensures { (unit : UnitTexts) (faults : List (Option StreamFault)) → IsUnit unit → AreFaults unit faults
        → Each (HasLine unit) (refusals faults) }
{}

/// All diagnostics that are listed stand at tokens of the unit's texts, and so have lines in the listing: what is
/// wrong with imports, the first faults of the texts, and the diagnostics of all blocks,
/// of declarations as of statements.
pub fn diagnostics_have_lines()
    ensures { (holds : Option Files) (name : List ℕ) (unit : UnitTexts) (diags : List Diag)
        → Decides holds name (listed unit diags) → Each (HasLine unit) diags }
{
    diagnostics_stand_in_their_texts();
}
