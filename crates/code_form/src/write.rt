//! From instructions to bytes.
ghost use Rattle.std.specs.Prelude.{◌≡◌, ◌++◌, ◌∷◌, length, take, OnOk, OnErr};
ghost use Rattle.code_form.specs.Instructions.{IsInstr};
ghost use Rattle.code_form.specs.Bytes.{operand_bytes, all_bytes, spelling};

use crate::instr::Instr;
use crate::line::Operands;
use crate::operand::Operand;
use m2_base::Memory;
use std::alloc::AllocError;

/// Appends the bytes of an operand.
#[inline(always)]
#[tactic(auto, unfolding(crate::specs::Bytes::operand_bytes))]
fn put(out: &mut Vec<u8>, operand: Operand) -> Result<(), AllocError>
    ensures ok { OnOk result (out.new.items ≡ out.old.items ++ operand_bytes operand) }
    ensures err { OnErr result (out.new.items ≡ out.old.items) }
{
    match operand {
        Operand::Number(n) | Operand::Count(n) => out.extend_from_slice(&n.to_le_bytes()),
        Operand::Distance(j) => out.extend_from_slice(&j.to_le_bytes()),
        Operand::Value(v) => out.extend_from_slice(&v.to_le_bytes()),
        Operand::Flag(b) | Operand::Trap(b) => out.extend_from_slice(&[b]),
    }
}

/// Appends an opcode and the bytes of operands, or the first of them.
#[inline(always)]
fn put_line(out: &mut Vec<u8>, opcode: u8, operands: &[Operand]) -> Result<(), AllocError>
    ensures ok { OnOk result (out.new.items ≡ out.old.items ++ opcode ∷ all_bytes operands.now) }
    ensures err { OnErr result (take (length out.old.items) out.new.items ≡ out.old.items) }
{
    out.extend_from_slice(&[opcode])?;
    for operand in operands {
        put(out, *operand)?;
    }
    Ok(())
}

/// Appends the bytes of an instruction, or the first of them.
fn spell(i: &Instr, out: &mut Vec<u8>) -> Result<(), AllocError>
    ensures ok { OnOk result (out.new.items ≡ out.old.items ++ spelling i.now) }
    ensures err { OnErr result (take (length out.old.items) out.new.items ≡ out.old.items) }
{
    let line = i.line();
    match line.operands {
        Operands::Zero => put_line(out, line.opcode, &[]),
        Operands::One(a) => put_line(out, line.opcode, &[a]),
        Operands::Two(a, b) => put_line(out, line.opcode, &[a, b]),
        Operands::Three(a, b, c) => put_line(out, line.opcode, &[a, b, c]),
    }
}

/// Appends the bytes of an instruction.
pub fn encode(i: &Instr, out: &mut Vec<u8>) -> Result<(), Memory>
    requires { IsInstr i.now }
    ensures ok { OnOk result (out.new.items ≡ out.old.items ++ spelling i.now) }
    ensures err { OnErr result (out.new.items ≡ out.old.items) }
{
    let length = out.len();
    let spelled = spell(i, out);
    if spelled.is_err() {
        out.truncate(length);
    }
    Ok(spelled?)
}
