//! What a unit comes to.
ghost use Rattle.std.specs.Prelude.{◌≡◌, IfOk};
ghost use Rattle.def_import.specs.Answers.{IsWhole};
ghost use Rattle.merge_laws.specs.Outputs.{AreOutputs};
ghost use Rattle.unit_merge.specs.Outcome.{Outcome, outcome_view};
ghost use Rattle.unit_outcome.specs.Outcomes.{ComesTo};

use crate::laws::{gathered_units_are_whole, whole_units_have_one_outcome};
use m2_base::{Memory, Output, Texts};
use merge_laws::{merging_gives_the_outcome, outputs_can_be_merged};
use std::alloc::Global;
use unit_merge::{Merged, merge};

/// What a unit comes to that is gathered whole, by the outputs of its streams: one for each, in their order.
pub fn outcome(alloc: Global, texts: &Texts, outputs: Vec<Output>) -> Result<Merged, Memory>
    requires whole { IsWhole texts.now }
    requires outputs { AreOutputs texts.now outputs.items }
    ensures outcome { IfOk result (λ merged. ComesTo texts.now (outcome_view merged)) }
    // Its texts come to nothing else.
    ensures only { IfOk result (λ merged. (other : Outcome) → ComesTo texts.now other → other ≡ outcome_view merged) }
{
    gathered_units_are_whole();
    whole_units_have_one_outcome();
    outputs_can_be_merged();
    merging_gives_the_outcome();
    let _main = texts.main();
    merge(alloc, texts, outputs)
}
