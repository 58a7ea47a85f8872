//! What operands are, and their constants.
ghost use Rattle.std.specs.Prelude.{◌≡◌};
ghost use Rattle.m2_base.specs.Statics.Contexts.{Source};
ghost use Rattle.m2_base.specs.Statics.Operands.{is_bad as spec_bad, is_procedure as spec_procedure};
ghost use Rattle.m2_base.specs.Statics.Operands.{constant_of_operand, worse as spec_worse, as_char as spec_as_char};
ghost use Rattle.m2_base.specs.Statics.Operands.{char_or_same as spec_char_or_same};
ghost use Rattle.m2_base.specs.Standard.{character};
ghost use Rattle.m2_base.specs.States.{Frame};
ghost use Rattle.const_eval.specs.Sites.{IsNamed, IsOperand};
ghost use Rattle.type_rules.specs.Scenes.{IsThere};

use m2_base::{Names, Operand, Operator, Place};
use type_rules::{CHARACTER, is_one_char};

/// An operand, and its first token.
#[derive(Clone, Copy)]
pub struct Argument {
    pub at: u32,
    pub operand: Operand,
}

/// An operator, and its token.
#[derive(Clone, Copy)]
pub struct PlacedOperator {
    pub at: u32,
    pub operator: Operator,
}

/// A set, and the base of its type.
#[derive(Clone, Copy)]
pub(crate) struct BasedSet {
    pub base: Place,
    pub set: Operand,
}

/// Whether an operand takes part in no further check: it is in error, or in a constant expression no constant.
/// Operators and functions give what is as bad, without a fault.
pub fn is_bad(operand: Operand) -> bool
    ensures { result ≡ spec_bad operand }
{
    matches!(operand, Operand::InError | Operand::NotConstant)
}

/// Whether an operand is a procedure that isn't a standard one.
pub(crate) fn is_procedure(operand: Operand) -> bool
    ensures { result ≡ spec_procedure operand }
{
    matches!(operand, Operand::Procedure(..))
}

/// The value of a constant that isn't a string: a number, the ordinal number of a character or of an enumeration's
/// constant, or the bits of a set. Of any other operand there is none.
pub fn constant_value(operand: Operand) -> Option<i64>
    ensures { result ≡ constant_of_operand operand }
{
    match operand {
        Operand::Constant(_, value) => Some(value),
        _ => None,
    }
}

/// Of two operands: in error where one is, otherwise no constant.
pub(crate) fn worse(x: Operand, y: Operand) -> Operand
    ensures { result ≡ spec_worse x y }
{
    match (x, y) {
        (Operand::InError, _) | (_, Operand::InError) => Operand::InError,
        _ => Operand::NotConstant,
    }
}

/// A string of one character as a CHAR.
pub(crate) fn as_char(names: &Names, operand: Operand) -> Operand
    requires { IsNamed names.now operand }
    ensures told { (source : Source) → source.spellings ≡ names.now → result ≡ spec_as_char source operand }
    ensures there { (f : Frame) → IsThere f character → IsOperand f operand → IsOperand f result }
{
    match operand {
        Operand::StringConstant(name, _) => {
            let first = names.bytes(name).first().copied().unwrap_or(0);
            Operand::Constant(CHARACTER, first as i64)
        }
        other => other,
    }
}

/// An operand where a CHAR may stand: a string of one character is the constant of that character, whose code the
/// unit's names tell (the empty string has code 0); anything else is as it is.
pub fn char_or_same(names: &Names, operand: Operand) -> Operand
    requires { IsNamed names.now operand }
    ensures told { (source : Source) → source.spellings ≡ names.now → result ≡ spec_char_or_same source operand }
    ensures there { (f : Frame) → IsThere f character → IsOperand f operand → IsOperand f result }
{
    if is_one_char(&operand) {
        as_char(names, operand)
    } else {
        operand
    }
}
