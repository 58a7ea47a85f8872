//! The constant that an expression stands for.
ghost use Rattle.std.specs.Prelude.{◌≡◌};
ghost use Rattle.std.specs.Option.{IfSome};
ghost use Rattle.m2_base.specs.Asks.{IfKnown};
ghost use Rattle.m2_base.specs.States.{State};
ghost use Rattle.m2_base.specs.Statics.Constants.{constant_of, constant_or_refused as spec_constant};
ghost use Rattle.m2_base.specs.Views.{expr_view};
ghost use Rattle.const_eval.specs.Analyses.{Analysed};
ghost use Rattle.const_eval.specs.Causes.{IsCaused, IsUnspoilt};
ghost use Rattle.const_eval.specs.NamedTexts.{IsNamedText};
ghost use Rattle.m2_base.specs.Statics.ReadTrees.{IsReadExpr};
ghost use Rattle.const_eval.specs.Sites.{IsOperand};
ghost use Rattle.type_rules.specs.Scenes.{WhereTold};
ghost use Rattle.type_rules.specs.Sites.{AreOfSite, SuitsSite, context_of};

use crate::calls::fault_noted;
use crate::expressions::value_in;
use m2_base::{Ask, Diagnostic, Expr, Memory, Notes, Operand, Scopes, Site};
use type_rules::TEXT;

/// The constant; what is in error gives nothing more, anything else is no constant. No text asks for a constant of the
/// type of strings that is no string.
fn constant_or_refused(
    site: &Site,
    at: u32,
    operand: Operand,
    notes: &mut Notes,
) -> Result<Ask<Option<Operand>>, Memory>
    ensures { (now : State) → IsOperand now.frame operand → Analysed now now notes.old notes.new site.now result
        (λ f constant. IfSome constant (λ operand. IsOperand f operand × IsNamedText f operand))
        (λ c. spec_constant c at operand) }
{
    match operand {
        Operand::Constant(of, _) => {
            if of == TEXT {
                return Err(Memory);
            }
            Ok(Ask::Known(Some(operand)))
        }
        Operand::StringConstant(..) => Ok(Ask::Known(Some(operand))),
        Operand::InError => Ok(Ask::Known(None)),
        _ => {
            let _in_error = analysed!(fault_noted(site, at, Diagnostic::NotAConstant, notes));
            Ok(Ask::Known(None))
        }
    }
}

/// The constant that an expression stands for; what is none is refused at its first token. There is none where a
/// diagnostic was noted or a used row is in error; and without one a diagnostic was noted, or a used row has a part in
/// error. It waits for names and types.
pub fn constant<S: Scopes>(
    scopes: &mut S,
    site: &Site,
    e: &Expr,
    notes: &mut Notes,
) -> Result<Ask<Option<Operand>>, Memory>
    requires suits { SuitsSite (S.state scopes.old).frame site.now }
    requires read { IsReadExpr site.now.texts.now.names (expr_view e.now) }
    ensures analysed { Analysed (S.state scopes.old) (S.state scopes.new) notes.old notes.new site.now result
        (λ f constant. IfSome constant (λ operand. IsOperand f operand × IsNamedText f operand))
        (λ c. constant_of c (expr_view e.now)) }
    ensures unrefused { WhereTold (S.state scopes.old).frame (λ made.
        AreOfSite site.now made
        → IfKnown result (λ o. IfSome o (λ p. notes.new.diags.items ≡ notes.old.diags.items))) }
    ensures unspoilt { WhereTold (S.state scopes.old).frame (λ made.
        AreOfSite site.now made → IfKnown result
        (λ o. IsUnspoilt (context_of (S.state scopes.old).frame made site.now).scene notes.old notes.new o)) }
    ensures caused { WhereTold (S.state scopes.old).frame (λ made.
        AreOfSite site.now made → IfKnown result
        (λ o. IsCaused (context_of (S.state scopes.old).frame made site.now).scene notes.old notes.new o)) }
{
    let operand = analysed!(value_in(scopes, site, e, notes));
    constant_or_refused(site, e.at, operand, notes)
}
