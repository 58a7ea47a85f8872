//! The faults of a unit's texts, by what its streams tell.
ghost use Rattle.std.specs.Prelude.{◌≡◌, ◌<◌, length, option_map, IfOk};
ghost use Rattle.stream_split.specs.Agreement.{fault_at};
ghost use Rattle.unit_merge.specs.Earliest.{AreOf, earlier as spec_earlier, earliest, text_of as spec_text_of};
ghost use Rattle.unit_merge.specs.Earliest.{with_fault};
ghost use Rattle.unit_merge.specs.Outcome.{first_too_deep as spec_first_too_deep, refusals as spec_refusals, too_deep};
ghost use Rattle.unit_merge.specs.Outputs.{told_by};

use m2_base::{Diag, Memory, Output, StreamFault};
use std::alloc::Global;

/// The text of a fault.
fn text_of(fault: StreamFault) -> u32
    ensures { result ≡ spec_text_of fault }
{
    match fault {
        StreamFault::Syntax(diag) => diag.text,
        StreamFault::TooDeep { text, .. } => text,
    }
}

/// The token of a fault.
fn token_of(fault: StreamFault) -> u32
    ensures { result ≡ fault_at fault }
{
    match fault {
        StreamFault::Syntax(diag) => diag.at,
        StreamFault::TooDeep { at, .. } => at,
    }
}

/// Of two faults of a text the one at the earlier token, or the first.
fn earlier(noted: Option<StreamFault>, fault: StreamFault) -> StreamFault
    ensures { result ≡ spec_earlier noted fault }
{
    match noted {
        Some(first) => {
            if token_of(fault) < token_of(first) {
                fault
            } else {
                first
            }
        }
        None => fault,
    }
}

/// Notes a fault of its text, unless an earlier one is noted.
fn note(faults: &mut [Option<StreamFault>], fault: StreamFault)
    requires { spec_text_of fault < length faults.old }
    ensures { faults.new ≡ with_fault faults.old fault }
{
    let text = text_of(fault) as usize;
    faults[text] = Some(earlier(faults[text], fault));
}

/// The earliest fault of each of so many texts, where there is one.
pub(crate) fn text_faults(
    alloc: Global,
    count: usize,
    outputs: &[Output],
) -> Result<Vec<Option<StreamFault>>, Memory>
    requires { AreOf count (told_by outputs.now) }
    ensures { IfOk result (λ faults. faults.items ≡ earliest count (told_by outputs.now)) }
{
    let mut faults = vec![in alloc; None; count]?;
    for output in outputs {
        if let Some(fault) = output.fault {
            note(&mut faults, fault);
        }
    }
    Ok(faults)
}

/// The first text that is nested too deep, and the token.
pub(crate) fn first_too_deep(faults: &[Option<StreamFault>]) -> Option<(u32, u32)>
    ensures { option_map (λ place. too_deep place.0 place.1) result ≡ spec_first_too_deep faults.now }
{
    for fault in faults {
        if let Some(StreamFault::TooDeep { text, at }) = *fault {
            return Some((text, at));
        }
    }
    None
}

/// The syntax faults, in the order of the texts.
pub(crate) fn refusals(alloc: Global, faults: &[Option<StreamFault>]) -> Result<Vec<Diag>, Memory>
    ensures { IfOk result (λ diags. diags.items ≡ spec_refusals faults.now) }
{
    let mut diags = Vec::new(alloc);
    for fault in faults {
        if let Some(StreamFault::Syntax(diag)) = *fault {
            diags.push(diag)?;
        }
    }
    Ok(diags)
}
