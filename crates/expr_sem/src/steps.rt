//! Instructions with what they take and leave.
ghost use Rattle.std.specs.Prelude.{◌≡◌};
ghost use Rattle.code_form.specs.Bytes.{size as spec_size};
ghost use Rattle.expr_sem.specs.Fragments.{step_view};
ghost use Rattle.block_code.specs.Parts.{plain_step};

use code_form::{Effect, Instr};

/// An instruction, the number of operands that it takes, and the number that it leaves.
#[derive(Clone, Copy)]
pub struct Step {
    pub instr: Instr,
    pub takes: u64,
    pub leaves: u64,
}

impl Step {
    /// An instruction that is no call and no return.
    pub fn plain(instr: Instr) -> Step
        ensures { step_view result ≡ plain_step instr }
    {
        let (takes, leaves) = match instr.effect() {
            Effect::Changes(takes, leaves) => (takes, leaves),
            _ => (0, 0),
        };
        Step {
            instr,
            takes,
            leaves,
        }
    }

    /// The length of its instruction in bytes.
    pub fn size(self) -> u64
        ensures { result ≡ spec_size self.instr }
    {
        self.instr.size()
    }
}
