//! What of a statement is refused, as a diagnostic at a token.
ghost use Rattle.std.specs.Prelude.{◌≡◌, List, IfOk, OnErr, pos};
ghost use Rattle.m2_base.specs.Diagnostics.{code_of};
ghost use Rattle.m2_base.specs.Noting.{IsRefused};
ghost use Rattle.m2_base.specs.States.{State};
ghost use Rattle.m2_base.specs.Statics.Contexts.{refuse as spec_refuse};
ghost use Rattle.expr_sem.specs.Codings.{Coding, IsFragment};
ghost use Rattle.expr_sem.specs.Fragments.{part};
ghost use Rattle.block_code.specs.Parts.{none};
ghost use Rattle.expr_sem.specs.declared.fragments.Node.{Node};
ghost use Rattle.stmt_sem.specs.Plain.{IsStep, itself};

use expr_sem::Fragment;
use m2_base::{Ask, Diagnostic, Memory, Notes, Site};

/// Notes a diagnostic at a token.
pub fn noted(site: &Site, at: u32, refusal: Diagnostic, notes: &mut Notes) -> Result<(), Memory>
    ensures noted { IfOk result (λ _. IsRefused notes.old notes.new site.now.around.now.text at (code_of refusal)) }
    ensures kept { OnErr result (notes.new.diags.items ≡ notes.old.diags.items) }
    ensures answers { notes.new.answers.items ≡ notes.old.answers.items }
{
    notes.refuse(site.around.text, at, refusal)
}

/// Notes a diagnostic at a token; what is refused has no code.
pub fn refused_code(
    site: &Site,
    at: u32,
    refusal: Diagnostic,
    notes: &mut Notes,
) -> Result<Ask<Fragment>, Memory>
    ensures { (state : State) (nodes : List Node) → Coding state state notes.old notes.new nodes nodes site.now result
        IsFragment part (λ c. spec_refuse c at (code_of refusal) none) }
{
    noted(site, at, refusal, notes)?;
    Ok(Ask::Known(Fragment::Nothing))
}

/// Notes a diagnostic at a token; the step is 1.
pub fn refused_step(
    site: &Site,
    at: u32,
    refusal: Diagnostic,
    notes: &mut Notes,
) -> Result<Ask<i64>, Memory>
    ensures { (state : State) (nodes : List Node) → Coding state state notes.old notes.new nodes nodes site.now result
        IsStep itself (λ c. spec_refuse c at (code_of refusal) (pos 1)) }
{
    noted(site, at, refusal, notes)?;
    Ok(Ask::Known(1))
}
