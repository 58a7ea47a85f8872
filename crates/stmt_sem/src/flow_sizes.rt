//! The length of a flow's code: it depends neither on where the code stands nor on the temporary cell.
ghost use Rattle.std.specs.Prelude.{◌≡◌, ℕ, ◌+◌, List, IfOk, map, pos};
ghost use Rattle.m2_base.specs.Lists.{Each};
ghost use Rattle.block_code.specs.Cases.{label_code, labels_code};
ghost use Rattle.case_labels.specs.Seen.{test_seen};
ghost use Rattle.code_form.specs.Bytes.{size};
ghost use Rattle.code_form.specs.declared.instr.Instr.TheVariants.{Load, Local, Push};
ghost use Rattle.expr_sem.specs.Fragments.{AreSound};
ghost use Rattle.expr_sem.specs.declared.fragments.Node.{Node};
ghost use Rattle.stmt_sem.specs.FlowTrees.{IsArmOver, IsCodeOf, IsOverIfAny, IsTurnsOver, Measures, MeasuresPart};
ghost use Rattle.stmt_sem.specs.FlowTrees.{code_by, other_among, turns_in};
ghost use Rattle.stmt_sem.specs.FlowPieces.{Over};
ghost use Rattle.stmt_sem.specs.FlowSizes.{arm_bytes, arms_bytes, block_bytes, label_bytes};
ghost use Rattle.block_code.specs.Flows.{jump_size as spec_jump_size};

use crate::flows::{Arm, Code, Flow, Turns};
use case_labels::LabelTest;
use code_form::Instr;
use expr_sem::{Fragments, Step};
use m2_base::Memory;

/// The length of a jump in bytes.
pub fn jump_size() -> u64
    ensures { result ≡ spec_jump_size }
{
    Instr::Jump(0).size()
}

/// The length of a test of the value in a cell against a bound.
pub fn bound_size(test: Instr) -> u64
    ensures { result ≡ size (Local 0 0) + size Load + size (Push (pos 0)) + size test }
{
    Instr::Local(0, 0).size() + Instr::Load.size() + Instr::Push(0).size() + test.size()
}

/// The sum, where it has 64 bits.
pub fn sum(first: u64, second: u64) -> Result<u64, Memory>
    ensures { IfOk result (λ n. n ≡ first + second) }
{
    match first.checked_add(second) {
        Some(sum) => Ok(sum),
        None => Err(Memory),
    }
}

/// The length of a label's test.
pub fn label_size(label: &LabelTest) -> u64
    ensures size { MeasuresPart (λ t. label_code t (test_seen label.now)) result }
    ensures bytes { result ≡ label_bytes label.now }
{
    match label.high {
        None => bound_size(Instr::Eq),
        Some(_) => bound_size(Instr::Ge) + Instr::AndJump(0).size() + bound_size(Instr::Le),
    }
}

/// The length of the tests of an arm's labels, with a jump between each and the next.
fn labels_size(labels: &[LabelTest]) -> Result<u64, Memory>
    ensures { IfOk result (λ n. MeasuresPart (λ t. labels_code t (map test_seen labels.now)) n) }
{
    if labels.is_empty() {
        return Ok(Instr::Push(0).size());
    }
    let jump = jump_size();
    let mut total: u64 = 0;
    for label in labels {
        let size = sum(label_size(label), jump)?;
        total = sum(total, size)?;
    }
    Ok(total.saturating_sub(jump))
}

impl Code {
    /// The length of a statement's own code in bytes.
    pub fn size(&self, fragments: &Fragments) -> Result<u64, Memory>
        requires sound { AreSound fragments.now.nodes.items }
        requires there { IsCodeOf fragments.now.nodes.items self.now }
        ensures { IfOk result (λ n. MeasuresPart (code_by fragments.now.nodes.items self.now) n) }
    {
        match self {
            Code::Fixed(fragment) => Ok(fragments.size(*fragment)),
            Code::Stored(fragment) => {
                let around = Instr::Local(0, 0).size() + Instr::Store.size();
                sum(fragments.size(*fragment), around)
            }
            Code::Compared(fragment, instr) => {
                let loads = Instr::Load.size() + Instr::Local(0, 0).size() + Instr::Load.size();
                let compared = sum(fragments.size(*fragment), loads)?;
                sum(compared, Step::plain(*instr).size())
            }
            Code::Labels(labels) => labels_size(labels),
        }
    }
}

/// The length of flows one after another.
pub fn block_size(flows: &[Flow]) -> Result<u64, Memory>
    ensures { IfOk result (λ n. n ≡ block_bytes flows.now) }
{
    let mut total: u64 = 0;
    for flow in flows {
        total = sum(total, flow.size)?;
    }
    Ok(total)
}

impl Turns {
    /// The length of a loop that counts.
    pub fn size(&self, fragments: &Fragments) -> Result<u64, Memory>
        requires sound { AreSound fragments.now.nodes.items }
        requires there { IsTurnsOver fragments.now.nodes.items self.now }
        ensures { IfOk result (λ n. Measures (turns_in fragments.now.nodes.items self.now) n) }
    {
        let jump = jump_size();
        let tests = sum(self.first.size(fragments)?, self.again.size(fragments)?)?;
        let rest = sum(self.body.size, fragments.size(self.step))?;
        let all = sum(tests, rest)?;
        sum(all, jump + jump + jump)
    }
}

impl Arm {
    /// The length of an arm with its two jumps.
    pub fn size(&self, fragments: &Fragments) -> Result<u64, Memory>
        requires sound { AreSound fragments.now.nodes.items }
        requires there { IsArmOver fragments.now.nodes.items self.now }
        ensures { IfOk result (λ n. n ≡ arm_bytes fragments.now.nodes.items self.now) }
    {
        let jump = jump_size();
        let test = sum(self.test.size(fragments)?, jump + jump)?;
        sum(test, self.body.size)
    }
}

/// The length of arms, each with two jumps.
pub fn arms_size(arms: &[Arm], fragments: &Fragments) -> Result<u64, Memory>
    requires sound { AreSound fragments.now.nodes.items }
    requires there { Each (IsArmOver fragments.now.nodes.items) arms.now }
    ensures { IfOk result (λ n. n ≡ arms_bytes fragments.now.nodes.items arms.now) }
{
    let mut total: u64 = 0;
    for arm in arms {
        total = sum(total, arm.size(fragments)?)?;
    }
    Ok(total)
}

/// The length of what stands where no arm is taken, with a jump before it.
pub fn other_size(other: &Option<Box<Flow>>) -> Result<u64, Memory>
    ensures { (ns : List Node) → IsOverIfAny ns other.now
        → IfOk result (λ n. (cell : ℕ) → Over (other_among ns other.now cell) n) }
{
    match other {
        Some(flow) => sum(flow.size, jump_size()),
        None => Ok(0),
    }
}
