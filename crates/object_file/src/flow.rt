//! Where instructions lead to.
ghost use Rattle.std.specs.Prelude.{◌≡◌, FitsSigned, IfSome, is_some};
ghost use Rattle.std.specs.Int.{w32};
ghost use Rattle.code_form.specs.Valid.{jump_of as spec_jump, is_end as spec_end};

use code_form::Instr;

/// How far an instruction jumps, and how much of the height is gone then.
pub(crate) fn jump_of(instr: &Instr) -> Option<(i32, u32)>
    ensures jump { result ≡ spec_jump instr.now }
    ensures fits { IfSome result (λ jump. FitsSigned w32 jump.0) }
{
    match *instr {
        Instr::Jump(j) => Some((j, 0)),
        Instr::JumpFalse(j) => Some((j, 1)),
        Instr::AndJump(j) => Some((j, 0)),
        Instr::OrJump(j) => Some((j, 0)),
        _ => None,
    }
}

/// The instruction is a jump.
pub(crate) fn jumps(instr: &Instr) -> bool
    ensures { result ≡ is_some (spec_jump instr.now) }
{
    match *instr {
        Instr::Jump(_) | Instr::JumpFalse(_) | Instr::AndJump(_) | Instr::OrJump(_) => true,
        _ => false,
    }
}

/// No instruction need follow.
pub(crate) fn is_end(instr: &Instr) -> bool
    ensures { result ≡ spec_end instr.now }
{
    match *instr {
        Instr::Return | Instr::Trap(_) | Instr::Halt | Instr::Jump(_) => true,
        _ => false,
    }
}
