//! Why a run traps.
ghost use Rattle.std.specs.Prelude.{◌≡◌};
ghost use Rattle.stack_machine.specs.Numbers.{code_of};

/// Why a run traps.
#[derive(Clone, Copy)]
pub enum Trap {
    /// There is no room for a frame or for cells.
    Memory,
    /// The address is NIL.
    Nil,
    /// There is no such cell.
    Address,
    /// The index isn't within the array.
    Index,
    /// The value isn't within its range.
    Range,
    /// The divisor isn't positive.
    Divisor,
    /// A function ended without a result.
    Result,
    /// No label of a CASE is the value.
    Case,
    /// The value is no procedure of this kind.
    Procedure,
}

impl Trap {
    /// Its code.
    pub fn code(self) -> u8
        ensures { result ≡ code_of self }
    {
        match self {
            Trap::Memory => 1,
            Trap::Nil => 2,
            Trap::Address => 3,
            Trap::Index => 4,
            Trap::Range => 5,
            Trap::Divisor => 6,
            Trap::Result => 7,
            Trap::Case => 8,
            Trap::Procedure => 9,
        }
    }
}
