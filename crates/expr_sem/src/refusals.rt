//! What is refused, as a diagnostic at a token.
ghost use Rattle.std.specs.Prelude.{◌≡◌, List};
ghost use Rattle.m2_base.specs.Diagnostics.{code_of};
ghost use Rattle.m2_base.specs.States.{State};
ghost use Rattle.m2_base.specs.Statics.Contexts.{refuse as spec_refuse};
ghost use Rattle.block_code.specs.Coded.{in_error};
ghost use Rattle.expr_sem.specs.Codings.{Coding, IsCoded, coded_in};
ghost use Rattle.expr_sem.specs.declared.fragments.Node.{Node};

use crate::coded::Coded;
use m2_base::{Ask, Diagnostic, Memory, Notes, Site};

/// Notes a diagnostic at the token `at` of the site's text, and gives what then stands for the part that was refused:
/// an operand in error, which has no code. It never waits.
pub fn refused(
    site: &Site,
    at: u32,
    refusal: Diagnostic,
    notes: &mut Notes,
) -> Result<Ask<Coded>, Memory>
    ensures { (state : State) (nodes : List Node) → Coding state state notes.old notes.new nodes nodes site.now result
        IsCoded coded_in (λ c. spec_refuse c at (code_of refusal) in_error) }
{
    notes.refuse(site.around.text, at, refusal)?;
    Ok(Ask::Known(Coded::in_error()))
}
