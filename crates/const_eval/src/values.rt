//! What may stand where a value is wanted, or before a selector.
ghost use Rattle.std.specs.Prelude.{◌≡◌, IfOk};
ghost use Rattle.m2_base.specs.States.{Frame};
ghost use Rattle.m2_base.specs.Statics.Constants.{in_constant as spec_in_constant, selected as spec_selected};
ghost use Rattle.m2_base.specs.Statics.Constants.{spoilt_by as spec_spoilt, value_wanted as spec_value_wanted};
ghost use Rattle.m2_base.specs.Statics.Contexts.{Context};
ghost use Rattle.const_eval.specs.Judgements.{judged};
ghost use Rattle.const_eval.specs.Sites.{IsOperand};

use crate::faults::Fault;
use m2_base::{Diagnostic, Operand};

/// What a name's operand is in a constant expression: a variable is no constant, anything else is as it is. Nothing is
/// refused yet: what is no constant is refused once, of the whole expression.
pub fn in_constant(operand: Operand) -> Operand
    ensures told { result ≡ spec_in_constant operand }
    ensures there { (f : Frame) → IsOperand f operand → IsOperand f result }
{
    match operand {
        Operand::Variable(_) => Operand::NotConstant,
        other => other,
    }
}

/// Judges an operand where a value is wanted; `at` is its first token. A type or a module alone is a fault; a
/// procedure, standard or not, is no constant; anything else is as it is.
pub fn value_wanted(at: u32, operand: Operand) -> Result<Operand, Fault>
    ensures told { (c : Context) → judged c result ≡ spec_value_wanted c at operand }
    ensures there { (f : Frame) → IsOperand f operand → IfOk result (λ operand. IsOperand f operand) }
{
    match operand {
        Operand::NamedType(_) | Operand::ModuleName(_) => fault!(at, NotAVariable),
        Operand::StandardProcedure(_) | Operand::Procedure(..) => Ok(Operand::NotConstant),
        other => Ok(other),
    }
}

/// Judges an index, `^`, or a point behind what is no module, in a constant; `at` is the designator's first token. A
/// type or a module is a fault there, what is in error stays so, and all else is no constant.
pub fn selected(at: u32, operand: Operand) -> Result<Operand, Fault>
    ensures told { (c : Context) → judged c result ≡ spec_selected c at operand }
    ensures there { (f : Frame) → IfOk result (λ operand. IsOperand f operand) }
{
    match operand {
        Operand::NamedType(_) | Operand::ModuleName(_) => fault!(at, NotAVariable),
        Operand::InError => Ok(Operand::InError),
        _ => Ok(Operand::NotConstant),
    }
}

/// An operand with a further part, as an index: in error where the part is, else as it is. So what was refused within
/// an expression isn't refused once more as a whole that is no constant.
pub fn spoilt_by(part: Operand, operand: Operand) -> Operand
    ensures told { result ≡ spec_spoilt part operand }
    ensures there { (f : Frame) → IsOperand f operand → IsOperand f result }
{
    match part {
        Operand::InError => Operand::InError,
        _ => operand,
    }
}
