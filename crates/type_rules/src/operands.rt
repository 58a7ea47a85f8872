//! The types of operands, and the standard types.
ghost use Rattle.std.specs.Prelude.{◌≡◌};
ghost use Rattle.m2_base.specs.Statics.Operands.{operand_type as spec_type, is_string as spec_string};
ghost use Rattle.m2_base.specs.Statics.Operands.{is_one_char as spec_one_char};
ghost use Rattle.m2_base.specs.Statics.Compatible.{is_integer_or_cardinal as spec_integer_or_cardinal};

use m2_base::{Operand, Place};

/// A type of scope 0, by its ordinal.
macro_rules! standard {
    ($ordinal:expr) => {
        Place {
            scope: 0,
            ordinal: $ordinal,
        }
    };
}

pub const INTEGER: Place = standard!(0);

pub const CARDINAL: Place = standard!(1);

pub const CHARACTER: Place = standard!(2);

pub const BOOLEAN: Place = standard!(3);

pub const BITSET: Place = standard!(5);
/// The type of NIL.
pub const NIL: Place = standard!(7);
/// The type of strings.
pub const TEXT: Place = standard!(8);
/// The type of whole constants.
pub const WHOLE: Place = standard!(9);
/// The type of parts in error.
pub const BROKEN: Place = standard!(10);

/// The type of a value or a variable; of anything else that of parts in error.
pub fn operand_type(operand: &Operand) -> Place
    ensures { result ≡ spec_type operand.now }
{
    match *operand {
        Operand::Constant(of, _) | Operand::Computed(of) | Operand::Variable(of) => of,
        Operand::StringConstant(..) => TEXT,
        _ => BROKEN,
    }
}

/// Whether an operand is a string.
pub fn is_string(operand: &Operand) -> bool
    ensures { result ≡ spec_string operand.now }
{
    matches!(operand, Operand::StringConstant(..))
}

/// Whether an operand is a string of one character.
pub fn is_one_char(operand: &Operand) -> bool
    ensures { result ≡ spec_one_char operand.now }
{
    matches!(operand, Operand::StringConstant(_, 1))
}

/// Whether a base is INTEGER or CARDINAL.
pub fn is_integer_or_cardinal(base: Place) -> bool
    ensures { result ≡ spec_integer_or_cardinal base }
{
    base == INTEGER || base == CARDINAL
}
