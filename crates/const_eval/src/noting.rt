//! A fault becomes a diagnostic.
ghost use Rattle.std.specs.Prelude.{◌≡◌, ◌++◌, ◌∷◌, [], IfOk, OnErr};
ghost use Rattle.m2_base.specs.Diagnostics.{code_of};
ghost use Rattle.m2_base.specs.Asks.{IfKnown, IfWaits};
ghost use Rattle.m2_base.specs.Gives.{Adds, Gives};
ghost use Rattle.m2_base.specs.Lists.{IsPrefixOf};
ghost use Rattle.m2_base.specs.Standard.{broken};
ghost use Rattle.m2_base.specs.States.{Frame};
ghost use Rattle.m2_base.specs.Statics.Contexts.{Context};
ghost use Rattle.m2_base.specs.declared.replies.Ask.TheVariants as asks;
ghost use Rattle.m2_base.specs.declared.rows.Place.{Place as Spot};
ghost use Rattle.const_eval.specs.Judgements.{judged, judged_or};
ghost use Rattle.const_eval.specs.Sites.{IsOperand};
ghost use Rattle.type_rules.specs.Asks.{WhereKnown};
ghost use Rattle.type_rules.specs.Scenes.{IsThere};

use crate::faults::Fault;
use m2_base::{Ask, Memory, Notes, Operand, Place};
use type_rules::BROKEN;

/// Notes a fault in this text.
fn refuse(text: u32, fault: Fault, notes: &mut Notes) -> Result<(), Memory>
    ensures answers { notes.new.answers.items ≡ notes.old.answers.items }
    ensures noted { IfOk result (λ _. notes.new.diags.items
        ≡ notes.old.diags.items ++ record { text = text; at = fault.at; code = code_of fault.kind } ∷ []) }
    ensures kept { OnErr result (notes.new.diags.items ≡ notes.old.diags.items) }
{
    notes.refuse(text, fault.at, fault.kind)
}

/// Ends a judgement on operands: gives its operand, or notes its fault as a diagnostic in the text of this number, and
/// then the operand is in error. Where the judgement waits so does the answer, and nothing is noted.
pub fn note(
    text: u32,
    asked: Ask<Result<Operand, Fault>>,
    notes: &mut Notes,
) -> Result<Ask<Operand>, Memory>
    ensures answers { notes.new.answers.items ≡ notes.old.answers.items }
    ensures diags { IsPrefixOf notes.old.diags.items notes.new.diags.items }
    ensures waits { IfWaits result (λ head. asked ≡ asks.DontKnowYet head) }
    ensures there { (f : Frame) → WhereKnown asked (λ judgement. IfOk judgement (λ operand. IsOperand f operand))
        → IfKnown result (λ operand. IsOperand f operand) }
    ensures told { (c : Context) (given : Gives Operand) → c.scene.block.text ≡ text
        → WhereKnown asked (λ judgement. judged c judgement ≡ given)
        → IfKnown result (λ operand. Adds notes.old notes.new given operand) }
{
    match asked {
        Ask::Known(Ok(operand)) => Ok(Ask::Known(operand)),
        Ask::Known(Err(fault)) => match refuse(text, fault, notes) {
            Ok(()) => Ok(Ask::Known(Operand::InError)),
            Err(memory) => Err(memory),
        },
        Ask::DontKnowYet(head) => Ok(Ask::DontKnowYet(head)),
    }
}

/// Ends a judgement on a type: gives the type, or notes the fault as a diagnostic in the text of this number, and then
/// the type is `BROKEN`. Where the judgement waits so does the answer, and nothing is noted.
pub fn note_type(
    text: u32,
    asked: Ask<Result<Place, Fault>>,
    notes: &mut Notes,
) -> Result<Ask<Place>, Memory>
    ensures answers { notes.new.answers.items ≡ notes.old.answers.items }
    ensures diags { IsPrefixOf notes.old.diags.items notes.new.diags.items }
    ensures waits { IfWaits result (λ head. asked ≡ asks.DontKnowYet head) }
    ensures there { (f : Frame) → IsThere f broken
        → WhereKnown asked (λ judgement. IfOk judgement (λ of. IsThere f of)) → IfKnown result (λ of. IsThere f of) }
    ensures told { (c : Context) (given : Gives Spot) → c.scene.block.text ≡ text
        → WhereKnown asked (λ judgement. judged_or c broken judgement ≡ given)
        → IfKnown result (λ of. Adds notes.old notes.new given of) }
{
    match asked {
        Ask::Known(Ok(of)) => Ok(Ask::Known(of)),
        Ask::Known(Err(fault)) => match refuse(text, fault, notes) {
            Ok(()) => Ok(Ask::Known(BROKEN)),
            Err(memory) => Err(memory),
        },
        Ask::DontKnowYet(head) => Ok(Ask::DontKnowYet(head)),
    }
}
