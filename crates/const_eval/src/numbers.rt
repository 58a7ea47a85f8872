//! What operators give of operands whose types are known.
ghost use Rattle.std.specs.Prelude.{◌≡◌, IfOk, None, Some};
ghost use Rattle.m2_base.specs.States.{Frame};
ghost use Rattle.m2_base.specs.Statics.Contexts.{Context};
ghost use Rattle.m2_base.specs.Statics.Folding.{number_kind as spec_kind};
ghost use Rattle.m2_base.specs.Statics.Folding.{number_type as spec_type};
ghost use Rattle.m2_base.specs.Statics.Operations.{apply_one_by, base_type, gives_result};
ghost use Rattle.m2_base.specs.Statics.Operations.{member_of_set as spec_member};
ghost use Rattle.m2_base.specs.Statics.Operations.{set_operation as spec_set_operation, with_sign as spec_with_sign};
ghost use Rattle.m2_base.specs.Standard.{boolean, integer, whole};
ghost use Rattle.m2_base.specs.Statics.Ranges.{range};
ghost use Rattle.m2_base.proofs.SoundOperands.{AreValues};
ghost use Rattle.m2_base.specs.Statics.Operands.{operand_type as spec_operand_type};
ghost use Rattle.const_eval.specs.Judgements.{judged};
ghost use Rattle.const_eval.specs.Sites.{IsOperand};
ghost use Rattle.type_rules.specs.Scenes.{IsThere};

use crate::faults::Fault;
use crate::operands::{PlacedOperator, constant_value, is_bad};
use m2_base::{
    Diagnostic, FoldKind, GREATEST_CARDINAL, GREATEST_ELEMENT, GREATEST_INTEGER, LEAST_INTEGER,
    Operand, Operator, Place,
};
use type_rules::{BOOLEAN, CARDINAL, INTEGER, WHOLE, fold, operand_type};

/// The kind of a base type of numbers.
pub(crate) fn number_kind(base: Place) -> FoldKind
    ensures { result ≡ spec_kind base }
{
    if base == INTEGER {
        return FoldKind::Integer;
    }
    if base == CARDINAL {
        FoldKind::Cardinal
    } else {
        FoldKind::Whole
    }
}

/// The type of numbers of a kind.
pub(crate) fn number_type(kind: FoldKind) -> Place
    ensures { result ≡ spec_type kind }
{
    match kind {
        FoldKind::Integer => INTEGER,
        FoldKind::Cardinal => CARDINAL,
        _ => WHOLE,
    }
}

/// The result of two operands of one kind, of this type.
pub(crate) fn combined(
    operator: PlacedOperator,
    kind: FoldKind,
    of: Place,
    x: Operand,
    y: Operand,
) -> Result<Operand, Fault>
    ensures told { (c : Context) → judged c result ≡ gives_result c operator.at kind operator.operator of x y }
    ensures there { (f : Frame) → IsThere f of → IfOk result (λ operand. IsOperand f operand) }
{
    if is_bad(x) || is_bad(y) {
        return Ok(Operand::InError);
    }
    match (constant_value(x), constant_value(y)) {
        (Some(left), Some(right)) => match fold(kind, operator.operator, left, right) {
            Some(value) => Ok(Operand::Constant(of, value)),
            None => fault!(operator.at, OutOfRange),
        },
        _ => Ok(Operand::Computed(of)),
    }
}

/// The result of two sets of one type.
pub(crate) fn set_operation(
    operator: PlacedOperator,
    x: Operand,
    y: Operand,
) -> Result<Operand, Fault>
    ensures told { (c : Context) → judged c result ≡ spec_set_operation c operator.operator operator.at x y }
    ensures there { (f : Frame) → IsThere f (spec_operand_type x) → IsThere f boolean
        → IfOk result (λ operand. IsOperand f operand) }
{
    match operator.operator {
        Operator::Plus | Operator::Minus | Operator::Times | Operator::Slash => {
            combined(operator, FoldKind::Set, operand_type(&x), x, y)
        }
        Operator::Equal | Operator::Unequal | Operator::LessEqual | Operator::GreaterEqual => {
            combined(operator, FoldKind::Set, BOOLEAN, x, y)
        }
        _ => fault!(operator.at, WrongOperands),
    }
}

/// A sign on a number of this type, whose values are from low to high.
fn with_sign(
    operator: PlacedOperator,
    of: Place,
    low: i64,
    high: i64,
    operand: Operand,
) -> Result<Operand, Fault>
    requires { AreValues (range low high) }
    ensures told { (c : Context)
        → judged c result ≡ spec_with_sign c operator.operator operator.at of (range low high) operand }
    ensures there { (f : Frame) → IsThere f of → IfOk result (λ operand. IsOperand f operand) }
{
    match operand {
        Operand::Constant(_, value) => {
            let signed = match operator.operator {
                Operator::Minus => value.checked_neg(),
                _ => Some(value),
            };
            match signed {
                Some(value) if low <= value && value <= high => Ok(Operand::Constant(of, value)),
                _ => fault!(operator.at, OutOfRange),
            }
        }
        _ => Ok(Operand::Computed(of)),
    }
}

/// An operator before one operand of this base.
#[tactic(auto, using(m2_base::proofs::SoundOperands::integer_values, m2_base::proofs::SoundOperands::whole_values))]
pub(crate) fn applied(
    operator: PlacedOperator,
    base: Place,
    operand: Operand,
) -> Result<Operand, Fault>
    ensures told { (c : Context) → base ≡ base_type c operand
        → judged c result ≡ apply_one_by c operator.operator operator.at operand }
    ensures there { (f : Frame) → IsThere f integer → IsThere f whole → IsThere f boolean
        → IfOk result (λ operand. IsOperand f operand) }
{
    match operator.operator {
        Operator::Not if base == BOOLEAN => match operand {
            Operand::Constant(_, value) => Ok(Operand::Constant(BOOLEAN, (value == 0) as i64)),
            _ => Ok(Operand::Computed(BOOLEAN)),
        },
        Operator::Not => fault!(operator.at, WrongOperands),
        _ if base == INTEGER => with_sign(
            operator,
            INTEGER,
            LEAST_INTEGER,
            GREATEST_INTEGER,
            operand,
        ),
        _ if base == WHOLE => with_sign(operator, WHOLE, LEAST_INTEGER, GREATEST_CARDINAL, operand),
        _ => fault!(operator.at, WrongOperands),
    }
}

/// Whether an element is in a set.
pub(crate) fn member_of_set(x: Operand, y: Operand) -> Operand
    ensures told { result ≡ spec_member x y }
    ensures there { (f : Frame) → IsThere f boolean → IsOperand f result }
{
    match (x, y) {
        (Operand::Constant(_, value), Operand::Constant(_, bits)) => {
            let is_element = 0 <= value && value <= GREATEST_ELEMENT;
            let is_member = is_element && 0 <= bits && bits >> value & 1 == 1;
            Operand::Constant(BOOLEAN, is_member as i64)
        }
        (Operand::InError, _) => Operand::InError,
        _ => Operand::Computed(BOOLEAN),
    }
}
