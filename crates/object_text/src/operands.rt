//! The operands of an instruction, as numbers.
ghost use Rattle.std.specs.Prelude.{◌≡◌};
ghost use Rattle.object_text.specs.Operands.{numbers_of};
ghost use Rattle.object_text.specs.Text.{operands_of};

use code_form::Instr;

/// The operands of an instruction, of which there are three at most.
#[derive(Clone, Copy)]
pub(crate) enum Numbers {
    None,
    One(i64),
    Two(i64, i64),
    Three(i64, i64, i64),
}

/// The operands of an instruction, as numbers.
pub(crate) fn operand_numbers(instr: &Instr) -> Numbers
    ensures { numbers_of result ≡ operands_of instr.now }
{
    match *instr {
        Instr::Push(v) | Instr::More(v) => Numbers::One(v),
        Instr::Str(n) | Instr::Move(n) | Instr::Offset(n) | Instr::IndexOpen(n) | Instr::New(n) =>
            Numbers::One(n as i64),
        Instr::Jump(j) => Numbers::One(j as i64),
        Instr::JumpFalse(j) => Numbers::One(j as i64),
        Instr::AndJump(j) => Numbers::One(j as i64),
        Instr::OrJump(j) => Numbers::One(j as i64),
        Instr::Add(b) | Instr::Sub(b) | Instr::Mul(b) | Instr::Div(b) | Instr::Mod(b) => {
            Numbers::One(b as i64)
        }
        Instr::Trap(code) => Numbers::One(code as i64),
        Instr::Local(m, n)
        | Instr::Global(m, n)
        | Instr::Call(m, n)
        | Instr::CallX(m, n)
        | Instr::CallVar(m, n)
        | Instr::Proc(m, n)
        | Instr::OpenCopy(m, n) => Numbers::Two(m as i64, n as i64),
        Instr::Check(low, high) => Numbers::Two(low, high),
        Instr::Index(low, n, s) => Numbers::Three(low, n as i64, s as i64),
        Instr::Load
        | Instr::Store
        | Instr::Dup
        | Instr::Nil
        | Instr::Neg
        | Instr::Abs
        | Instr::Not
        | Instr::Eq
        | Instr::Ne
        | Instr::Lt
        | Instr::Le
        | Instr::Gt
        | Instr::Ge
        | Instr::Union
        | Instr::Diff
        | Instr::Inter
        | Instr::SymDiff
        | Instr::Subset
        | Instr::Superset
        | Instr::In
        | Instr::Bit
        | Instr::Span
        | Instr::Return
        | Instr::Halt
        | Instr::Cap => Numbers::None,
    }
}
