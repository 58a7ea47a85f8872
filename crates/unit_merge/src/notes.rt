//! The diagnostics of a unit.
ghost use Rattle.std.specs.Prelude.{◌≡◌, flat_map, IfOk};
ghost use Rattle.unit_merge.specs.Outputs.{output_diags};

use listings::put_in_order;
use m2_base::{Diag, Memory, Output};
use std::alloc::Global;

/// The diagnostics of all outputs, as they were noted.
fn all_noted(alloc: Global, outputs: &[Output]) -> Result<Vec<Diag>, Memory>
    ensures { IfOk result (λ diags. diags.items ≡ flat_map (λ o. o.diags.items) outputs.now) }
{
    let mut diags = Vec::new(alloc);
    for output in outputs {
        diags.extend_from_slice(&output.diags)?;
    }
    Ok(diags)
}

/// The diagnostics of all outputs in order, each once.
pub(crate) fn all_diags(alloc: Global, outputs: &[Output]) -> Result<Vec<Diag>, Memory>
    ensures { IfOk result (λ diags. diags.items ≡ output_diags outputs.now) }
{
    let mut diags = all_noted(alloc, outputs)?;
    put_in_order(&mut diags);
    Ok(diags)
}
