//! The bits of sets whose elements are constant.
ghost use Rattle.std.specs.Prelude.{◌≡◌};
ghost use Rattle.m2_base.specs.Rows.{natural as spec_natural};
ghost use Rattle.m2_base.specs.States.{Frame};
ghost use Rattle.m2_base.specs.Statics.Sets.{span as spec_span, with_elements as spec_with_elements};
ghost use Rattle.const_eval.specs.Sites.{IsOperand, IsSmallConstant};

use crate::operands::worse;
use m2_base::{GREATEST_ELEMENT, Operand};

/// A number that isn't negative; of a negative one 0.
fn natural(number: i64) -> u64
    ensures { result ≡ spec_natural number }
{
    if number < 0 { 0 } else { number as u64 }
}

/// The bits from low to high, of those that a set has; none where low is above high.
fn span(low: u64, high: u64) -> u64
    ensures { result ≡ spec_span low high }
{
    if low <= high && high <= GREATEST_ELEMENT as u64 {
        (1_u64 << (high + 1)).saturating_sub(1 << low)
    } else {
        0
    }
}

/// A set with the elements from `low` to `high` too, both of them the same for one element; none where low is above
/// high. It is constant where all three are; else it is in error where one of them is, and otherwise no constant.
#[tactic(auto, using(crate::proofs::Bits::worse_there))]
pub fn with_elements(set: Operand, low: Operand, high: Operand) -> Operand
    requires { IsSmallConstant set }
    ensures told { result ≡ spec_with_elements set low high }
    ensures there { (f : Frame) → IsOperand f set → IsOperand f result }
{
    match (set, low, high) {
        (Operand::Constant(of, bits), Operand::Constant(_, low), Operand::Constant(_, high)) => {
            let range = span(natural(low), natural(high));
            Operand::Constant(of, (natural(bits) | range) as i64)
        }
        _ => worse(set, worse(low, high)),
    }
}
