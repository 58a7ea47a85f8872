//! Instructions.
ghost use Rattle.std.specs.Prelude.{◌≡◌, ◌≤◌, ◌↔◌, IsTrue};
ghost use Rattle.code_form.specs.Bytes.{size as spec_size};
ghost use Rattle.code_form.specs.Instructions.{IsInstr, line_of};
ghost use Rattle.code_form.specs.Lines.{listed};

use crate::effect::Effect;
use crate::line::{Line, Operands, operands};
use crate::operand::{Operand, operand};
use crate::table::instructions;

/// An instruction with its operands.
#[derive(Clone, Copy)]
pub enum Instr {
    Push(i64),
    Local(u32, u32),
    Global(u32, u32),
    Str(u32),
    Load,
    Store,
    Move(u32),
    Dup,
    Offset(u32),
    Index(i64, u32, u32),
    IndexOpen(u32),
    Check(i64, i64),
    Nil,
    Add(u8),
    Sub(u8),
    Mul(u8),
    Div(u8),
    Mod(u8),
    Neg,
    Abs,
    Not,
    Eq,
    Ne,
    Lt,
    Le,
    Gt,
    Ge,
    Union,
    Diff,
    Inter,
    SymDiff,
    Subset,
    Superset,
    In,
    Bit,
    Span,
    Jump(i32),
    JumpFalse(i32),
    AndJump(i32),
    OrJump(i32),
    More(i64),
    Call(u32, u32),
    CallX(u32, u32),
    CallVar(u32, u32),
    Proc(u32, u32),
    Return,
    Trap(u8),
    New(u32),
    OpenCopy(u32, u32),
    Halt,
    Cap,
}

macro_rules! effect_arms {
    (($i:ident) $($code:literal $name:ident $(($($x:ident: $kind:ident),*))? => $effect:expr;)*) => {
        match $i {
            $(Instr::$name $(($($x),*))? => $effect,)*
        }
    };
}

macro_rules! name_arms {
    (($i:ident) $($code:literal $name:ident $(($($x:ident: $kind:ident),*))? => $effect:expr;)*) => {
        match $i {
            $(Instr::$name $(($($x),*))? => stringify!($name),)*
        }
    };
}

macro_rules! line_arms {
    (($i:ident) $($code:literal $name:ident $(($($x:ident: $kind:ident),*))? => $effect:expr;)*) => {
        match $i {
            $(Instr::$name $(($($x),*))? => Line {
                opcode: $code,
                operands: operands!($($(operand!($kind *$x)),*)?),
            },)*
        }
    };
}

impl Instr {
    /// Its line of the table.
    #[inline(always)]
    pub(crate) fn line(&self) -> Line
        ensures opcode { result.opcode ≡ (line_of self.now).opcode }
        ensures operands { listed result.operands ≡ (line_of self.now).operands }
    {
        instructions!(line_arms(self))
    }

    /// What it does to the stack's height.
    #[inline(always)]
    pub fn effect(&self) -> Effect
        ensures { result ≡ (line_of self.now).effect }
    {
        instructions!(effect_arms(self))
    }

    /// Its name in the table.
    pub fn name(&self) -> &'static str
        ensures { result.now ≡ (line_of self.now).word }
    {
        instructions!(name_arms(self))
    }

    /// How many bytes spell it: the opcode and its operands. It is the same whatever the operands are.
    #[inline(always)]
    pub fn size(&self) -> u64
        ensures size { result ≡ spec_size self.now }
        ensures short { result ≤ 17 }
    {
        match self.line().operands {
            Operands::Zero => 1,
            Operands::One(a) => 1 + a.width(),
            Operands::Two(a, b) => 1 + a.width() + b.width(),
            Operands::Three(a, b, c) => 1 + a.width() + b.width() + c.width(),
        }
    }

    /// Whether each of its operands is in the range of its kind, which `encode` asks for.
    pub fn has_valid_operands(&self) -> bool
        ensures { IsTrue result ↔ IsInstr self.now }
    {
        match self.line().operands {
            Operands::Zero => true,
            Operands::One(a) => a.is_in_range(),
            Operands::Two(a, b) => a.is_in_range() && b.is_in_range(),
            Operands::Three(a, b, c) => a.is_in_range() && b.is_in_range() && c.is_in_range(),
        }
    }
}
