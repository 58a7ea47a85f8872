//! Lines of the table, as far as bytes go.

use crate::operand::Operand;

/// The operands of an instruction.
#[derive(Clone, Copy)]
pub enum Operands {
    Zero,
    One(Operand),
    Two(Operand, Operand),
    Three(Operand, Operand, Operand),
}

/// What spells an instruction: its opcode and its operands.
#[derive(Clone, Copy)]
pub struct Line {
    pub opcode: u8,
    pub operands: Operands,
}

/// The operands of the kinds that the table names.
macro_rules! operands {
    () => { Operands::Zero };
    ($a:expr) => { Operands::One($a) };
    ($a:expr, $b:expr) => { Operands::Two($a, $b) };
    ($a:expr, $b:expr, $c:expr) => { Operands::Three($a, $b, $c) };
}

pub(crate) use operands;
