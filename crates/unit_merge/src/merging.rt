//! Merging the outputs of a unit's streams.
ghost use Rattle.std.specs.Prelude.{IfOk};
ghost use Rattle.m2_base.specs.Units.{Front, TextOf};
ghost use Rattle.stream_split.specs.Fronts.{AreFronts};
ghost use Rattle.unit_merge.specs.Merging.{CanBeMerged, IsMerged};
ghost use Rattle.unit_merge.specs.Outcome.{outcome_view};

use crate::faults::{first_too_deep, refusals, text_faults};
use crate::notes::all_diags;
use crate::object::unit_object;
use m2_base::{Diag, Memory, Output, Texts};
use object_file::Object;
use std::alloc::Global;

/// What the outputs of a unit's streams come to.
#[derive(Drop)]
pub enum Merged {
    /// The object of the unit, of version 2.
    Code(Object),
    /// The syntax faults, one for each text that has one, or else the diagnostics of all blocks: by text,
    /// token and code, each once.
    Diags(Vec<Diag>),
    /// The first text that is nested too deep, and the token.
    TooDeep { text: u32, at: u32 },
}

/// What a unit comes to, by the outputs of its streams: one for each, in their order. It takes a time linear in the
/// code, and n log n in the diagnostics; code is moved, and none of it is copied.
pub fn merge(alloc: Global, texts: &Texts, outputs: Vec<Output>) -> Result<Merged, Memory>
    requires { CanBeMerged texts.now outputs.items }
    ensures { (front : TextOf → Front) → AreFronts front texts.now
        → IfOk result (λ merged. IsMerged front texts.now outputs.items (outcome_view merged)) }
{
    let faults = text_faults(alloc, texts.list.len(), &outputs)?;
    if let Some((text, at)) = first_too_deep(&faults) {
        return Ok(Merged::TooDeep { text, at });
    }
    let refused = refusals(alloc, &faults)?;
    if !refused.is_empty() {
        return Ok(Merged::Diags(refused));
    }
    let diags = all_diags(alloc, &outputs)?;
    if !diags.is_empty() {
        return Ok(Merged::Diags(diags));
    }
    Ok(Merged::Code(unit_object(alloc, texts, outputs)?))
}
