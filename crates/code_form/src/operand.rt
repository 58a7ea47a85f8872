//! Operands: which kinds there are, how many bytes each has, and in which range it is.
ghost use Rattle.std.specs.Prelude.{◌≡◌, ◌↔◌, IsTrue};
ghost use Rattle.code_form.specs.Bytes.{width as spec_width};
ghost use Rattle.code_form.specs.Instructions.{InRange};

use m2_base::{GREATEST_CARDINAL, LEAST_INTEGER};

/// An operand and its kind.
#[derive(Clone, Copy)]
pub enum Operand {
    /// A number of four bytes.
    Number(u32),
    /// A number of four bytes that is at least 1.
    Count(u32),
    /// A distance of four bytes.
    Distance(i32),
    /// A value of eight bytes.
    Value(i64),
    /// The byte that tells INTEGER (0) from CARDINAL (1).
    Flag(u8),
    /// The byte of a trap.
    Trap(u8),
}

impl Operand {
    /// How many bytes it has.
    #[inline(always)]
    pub fn width(self) -> u64
        ensures { result ≡ spec_width self }
    {
        match self {
            Operand::Number(_) | Operand::Count(_) | Operand::Distance(_) => 4,
            Operand::Value(_) => 8,
            Operand::Flag(_) | Operand::Trap(_) => 1,
        }
    }

    /// Whether it is in its kind's range.
    #[inline(always)]
    pub fn is_in_range(self) -> bool
        ensures { IsTrue result ↔ InRange self }
    {
        match self {
            Operand::Number(_) | Operand::Distance(_) => true,
            Operand::Count(n) => n >= 1,
            Operand::Value(v) => LEAST_INTEGER <= v && v <= GREATEST_CARDINAL,
            Operand::Flag(b) => b < 2,
            Operand::Trap(c) => c == 7 || c == 8,
        }
    }
}

/// The operand of a kind, as the table names it.
macro_rules! operand {
    (number $x:expr) => { Operand::Number($x) };
    (count $x:expr) => { Operand::Count($x) };
    (distance $x:expr) => { Operand::Distance($x) };
    (value $x:expr) => { Operand::Value($x) };
    (flag $x:expr) => { Operand::Flag($x) };
    (trap $x:expr) => { Operand::Trap($x) };
}

pub(crate) use operand;
