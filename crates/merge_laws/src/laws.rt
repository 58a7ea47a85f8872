//! Laws on merging, each the contract of a function that does nothing.
ghost use Rattle.std.specs.Prelude.{◌≡◌, List};
ghost use Rattle.m2_base.specs.Finished.{AreRead};
ghost use Rattle.m2_base.specs.Statics.Blocks.{UnitTrees};
ghost use Rattle.m2_base.specs.Units.{Front, IsUnit, TextOf, UnitTexts};
ghost use Rattle.m2_base.specs.declared.outputs.Output.{Output};
ghost use Rattle.merge_laws.specs.Outcome.{IsOutcome};
ghost use Rattle.merge_laws.specs.Outputs.{AreOutputs, HasNoDiags};
ghost use Rattle.merge_laws.specs.Texts.{HaveLowHeights, IsWhole};
ghost use Rattle.merge_laws.specs.UnitObject.{object_of};
ghost use Rattle.object_file.specs.Validity.{IsValid};
ghost use Rattle.unit_merge.specs.Merging.{CanBeMerged, IsMerged};
ghost use Rattle.unit_merge.specs.Objects.{HaveTheirNumbers};
ghost use Rattle.unit_merge.specs.Outcome.{Outcome};

/// The object of a unit is valid, where nothing is left out of the unit and no block has a diagnostic.
pub fn unit_objects_are_valid()
    ensures { (texts : UnitTexts) (u : UnitTrees) (front : TextOf → Front) → IsUnit texts
        → IsWhole front texts → AreRead texts u → HasNoDiags u → HaveTheirNumbers texts → HaveLowHeights u
        → IsValid (object_of front texts u) }
{}

/// The outputs of a unit's streams can be merged.
pub fn outputs_can_be_merged()
    ensures { (texts : UnitTexts) (front : TextOf → Front) (outputs : List Output) → IsUnit texts → IsWhole front texts
        → AreOutputs texts outputs → CanBeMerged texts outputs }
{}

/// What merging gives of the outputs of a unit's streams is what the unit comes to.
pub fn merging_gives_the_outcome()
    ensures { (texts : UnitTexts) (front : TextOf → Front) (outputs : List Output) (outcome : Outcome)
        → IsUnit texts → IsWhole front texts → AreOutputs texts outputs → IsMerged front texts outputs outcome
        → IsOutcome front texts outcome }
{}

/// A unit of which nothing is left out comes to one outcome at most.
pub fn unit_has_one_outcome()
    ensures { (texts : UnitTexts) (front : TextOf → Front) (these those : Outcome) → IsUnit texts → IsWhole front texts
        → IsOutcome front texts these → IsOutcome front texts those → these ≡ those }
{}
