//! Flows, appended to a piece of a block's code. Each knows the lengths of those that it is made of, so that every
//! jump is known when it is appended.
ghost use Rattle.std.specs.Prelude.{ℕ, ◌+◌, ◌-◌, [], OnErr, OnOk};
ghost use Rattle.m2_base.specs.Lists.{Each};
ghost use Rattle.code_form.specs.declared.instr.Instr.TheVariants.{Jump, JumpFalse};
ghost use Rattle.expr_sem.specs.Fragments.{AreSound, IsIn, part};
ghost use Rattle.expr_sem.specs.Pieces.{Appended, Begins, IsAsBefore};
ghost use Rattle.stmt_sem.specs.FlowTrees.{IsArmOver, IsCodeOf, IsFormOver, IsOver, IsOverIfAny, IsTurnsOver};
ghost use Rattle.stmt_sem.specs.FlowTrees.{block_among, choice_among, code_by, flow_in, form_in, other_among};
ghost use Rattle.stmt_sem.specs.FlowTrees.{turns_in};
ghost use Rattle.stmt_sem.specs.FlowPieces.{AppendedArm, AppendedBefore, again_part};
ghost use Rattle.stmt_sem.specs.FlowSizes.{code_bytes, fragment_bytes};
ghost use Rattle.block_code.specs.Flows.{for_ever as spec_for_ever, in_with as spec_in_with, part_at};
ghost use Rattle.block_code.specs.Flows.{until_true as spec_until_true, while_true as spec_while_true};
ghost use Rattle.block_code.specs.Flows.{with_cell as spec_with_cell};
ghost use Rattle.block_code.specs.Statements.{flow_or_nothing};

use crate::code_appending::{append_code, backward, forward};
use crate::flow_sizes::{arms_size, block_size, jump_size, other_size, sum};
use crate::flows::{Arm, Code, Flow, FlowForm, Turns};
use code_form::Instr;
use expr_sem::{Fragment, Fragments, Piece, With, append_all, capped_sum, push_instr};
use m2_base::{Memory, Place};

/// What flows are appended from: the fragments that they are made of, the records of the open WITHs, and the cell of
/// the statement.
#[derive(Clone, Copy)]
struct Appender<'a> {
    fragments: &'a Fragments,
    withs: &'a [With],
    cell: u32,
}

impl Appender<'_> {
    /// Appends an arm, or a beginning of it. What follows it has so many bytes with one jump more,
    /// or there is nothing.
    #[cycle(flows)]
    fn append_arm(&self, arm: &Arm, left: u64, out: u64, piece: &mut Piece) -> Result<(), Memory>
        requires sound { AreSound self.now.fragments.now.nodes.items }
        requires there { IsArmOver self.now.fragments.now.nodes.items arm.now }
        ensures begins { Begins piece.old piece.new }
        ensures ok { OnOk result (AppendedArm piece.old piece.new self.now.withs.now out left
            (code_by self.now.fragments.now.nodes.items arm.now.test self.now.cell)
            (flow_in self.now.fragments.now.nodes.items arm.now.body self.now.cell)) }
    {
        append_code(self.fragments, &arm.test, self.cell, self.withs, piece)?;
        let body = &arm.body;
        if left == 0 {
            push_instr(piece, Instr::JumpFalse(forward(body.size)?))?;
            return self.append_inner(body, out, piece);
        }
        let jump = jump_size();
        let size = sum(body.size, jump)?;
        push_instr(piece, Instr::JumpFalse(forward(size)?))?;
        self.append_inner(body, sum(out, left)?, piece)?;
        push_instr(piece, Instr::Jump(forward(left.saturating_sub(jump))?))
    }

    /// Appends arms, or a beginning of them, before what stands where none is taken.
    #[cycle(flows)]
    fn append_arms(
        &self,
        arms: &[Arm],
        other: &Option<Box<Flow>>,
        out: u64,
        piece: &mut Piece,
    ) -> Result<(), Memory>
        requires sound { AreSound self.now.fragments.now.nodes.items }
        requires arms { Each (IsArmOver self.now.fragments.now.nodes.items) arms.now }
        requires other { IsOverIfAny self.now.fragments.now.nodes.items other.now }
        ensures begins { Begins piece.old piece.new }
        ensures ok { let nodes = self.now.fragments.now.nodes.items in
            OnOk result (AppendedBefore piece.old piece.new self.now.withs.now out
            (flow_or_nothing (other_among nodes other.now self.now.cell))
            (choice_among nodes arms.now other.now self.now.cell)) }
    {
        let mut left = sum(arms_size(arms, self.fragments)?, other_size(other)?)?;
        for arm in arms {
            left = left.saturating_sub(arm.size(self.fragments)?);
            self.append_arm(arm, left, out, piece)?;
        }
        Ok(())
    }

    /// Appends flows one after another, or a beginning of them.
    #[cycle(flows)]
    fn append_block(&self, entries: &[Flow], out: u64, piece: &mut Piece) -> Result<(), Memory>
        requires sound { AreSound self.now.fragments.now.nodes.items }
        requires there { Each (IsOver self.now.fragments.now.nodes.items) entries.now }
        ensures begins { Begins piece.old piece.new }
        ensures ok { OnOk result (Appended piece.old piece.new self.now.withs.now
            (part_at out (block_among self.now.fragments.now.nodes.items entries.now self.now.cell))) }
    {
        let mut behind = sum(out, block_size(entries)?)?;
        for entry in entries {
            behind = behind.saturating_sub(entry.size);
            self.append_inner(entry, behind, piece)?;
        }
        Ok(())
    }

    /// Appends a loop with its test before the body, or a beginning of it.
    #[cycle(flows)]
    fn append_while(
        &self,
        test: Fragment,
        body: &Flow,
        out: u64,
        piece: &mut Piece,
    ) -> Result<(), Memory>
        requires sound { AreSound self.now.fragments.now.nodes.items }
        requires test { IsIn self.now.fragments.now.nodes.items test }
        requires body { IsOver self.now.fragments.now.nodes.items body.now }
        ensures begins { Begins piece.old piece.new }
        ensures ok { OnOk result (Appended piece.old piece.new self.now.withs.now
            (part_at out (spec_while_true (part self.now.fragments.now.nodes.items test)
            (flow_in self.now.fragments.now.nodes.items body.now self.now.cell)))) }
    {
        let jump = jump_size();
        let behind = sum(body.size, jump)?;
        let all = sum(self.fragments.size(test), behind)?;
        append_all(self.fragments, test, self.withs, piece)?;
        push_instr(piece, Instr::JumpFalse(forward(behind)?))?;
        self.append_inner(body, sum(out, jump)?, piece)?;
        push_instr(piece, Instr::Jump(backward(all)?))
    }

    /// Appends a loop with its test behind the body, or a beginning of it.
    #[cycle(flows)]
    fn append_until(
        &self,
        body: &Flow,
        test: Fragment,
        out: u64,
        piece: &mut Piece,
    ) -> Result<(), Memory>
        requires sound { AreSound self.now.fragments.now.nodes.items }
        requires body { IsOver self.now.fragments.now.nodes.items body.now }
        requires test { IsIn self.now.fragments.now.nodes.items test }
        ensures begins { Begins piece.old piece.new }
        ensures ok { OnOk result (Appended piece.old piece.new self.now.withs.now
            (part_at out (spec_until_true (flow_in self.now.fragments.now.nodes.items body.now self.now.cell)
            (part self.now.fragments.now.nodes.items test)))) }
    {
        let test_size = self.fragments.size(test);
        let behind = sum(out, sum(test_size, jump_size())?)?;
        self.append_inner(body, behind, piece)?;
        append_all(self.fragments, test, self.withs, piece)?;
        let all = sum(body.size, test_size)?;
        push_instr(piece, Instr::JumpFalse(backward(all)?))
    }

    /// Appends a loop that only EXIT leaves, or a beginning of it.
    #[cycle(flows)]
    fn append_for_ever(&self, body: &Flow, piece: &mut Piece) -> Result<(), Memory>
        requires sound { AreSound self.now.fragments.now.nodes.items }
        requires there { IsOver self.now.fragments.now.nodes.items body.now }
        ensures begins { Begins piece.old piece.new }
        ensures ok { (out : ℕ) → OnOk result (Appended piece.old piece.new self.now.withs.now
            (part_at out (spec_for_ever (flow_in self.now.fragments.now.nodes.items body.now self.now.cell)))) }
    {
        self.append_inner(body, jump_size(), piece)?;
        push_instr(piece, Instr::Jump(backward(body.size)?))
    }

    /// Appends what comes after the body of a loop that counts, whose length is told.
    fn append_again(
        &self,
        size: u64,
        again: &Code,
        step: Fragment,
        piece: &mut Piece,
    ) -> Result<(), Memory>
        requires sound { AreSound self.now.fragments.now.nodes.items }
        requires again { IsCodeOf self.now.fragments.now.nodes.items again.now }
        requires step { IsIn self.now.fragments.now.nodes.items step }
        ensures begins { Begins piece.old piece.new }
        ensures ok { OnOk result (Appended piece.old piece.new self.now.withs.now
            (again_part size (code_bytes self.now.fragments.now.nodes.items again.now)
            (fragment_bytes self.now.fragments.now.nodes.items step) (code_by self.now.fragments.now.nodes.items
            again.now self.now.cell) (part self.now.fragments.now.nodes.items step))) }
    {
        let step_size = sum(self.fragments.size(step), jump_size())?;
        let all = sum(sum(size, again.size(self.fragments)?)?, step_size)?;
        append_code(self.fragments, again, self.cell, self.withs, piece)?;
        push_instr(piece, Instr::JumpFalse(forward(step_size)?))?;
        append_all(self.fragments, step, self.withs, piece)?;
        push_instr(piece, Instr::Jump(backward(all)?))
    }

    /// Appends a loop that counts, or a beginning of it.
    #[cycle(flows)]
    fn append_counted(&self, turns: &Turns, out: u64, piece: &mut Piece) -> Result<(), Memory>
        requires sound { AreSound self.now.fragments.now.nodes.items }
        requires there { IsTurnsOver self.now.fragments.now.nodes.items turns.now }
        ensures begins { Begins piece.old piece.new }
        ensures ok { OnOk result (Appended piece.old piece.new self.now.withs.now
            (part_at out (turns_in self.now.fragments.now.nodes.items turns.now self.now.cell))) }
    {
        let size = turns.body.size;
        let codes = sum(
            turns.again.size(self.fragments)?,
            self.fragments.size(turns.step),
        )?;
        let jump = jump_size();
        let behind = sum(codes, jump + jump)?;
        append_code(self.fragments, &turns.first, self.cell, self.withs, piece)?;
        push_instr(piece, Instr::JumpFalse(forward(sum(size, behind)?)?))?;
        self.append_inner(&turns.body, sum(out, behind)?, piece)?;
        self.append_again(size, &turns.again, turns.step, piece)
    }

    /// Appends a statement that has a temporary cell of its own, or a beginning of it.
    #[cycle(flows)]
    fn append_with_cell(&self, body: &Flow, out: u64, piece: &mut Piece) -> Result<(), Memory>
        requires sound { AreSound self.now.fragments.now.nodes.items }
        requires there { IsOver self.now.fragments.now.nodes.items body.now }
        ensures begins { Begins piece.old piece.new }
        ensures ok { OnOk result (Appended piece.old piece.new self.now.withs.now
            (part_at out (spec_with_cell (λ t. flow_in self.now.fragments.now.nodes.items body.now t)))) }
    {
        let cell = piece.cell;
        piece.cell = capped_sum(cell, 1);
        let within = Appender { cell, ..*self };
        within.append_inner(body, out, piece)
    }

    /// Appends statements in a WITH, or a beginning of them.
    #[cycle(flows)]
    fn append_in_with(&self, body: &Flow, out: u64, piece: &mut Piece) -> Result<(), Memory>
        requires sound { AreSound self.now.fragments.now.nodes.items }
        requires there { IsOver self.now.fragments.now.nodes.items body.now }
        ensures begins { Begins piece.old piece.new }
        ensures ok { OnOk result (Appended piece.old piece.new self.now.withs.now (part_at out
            (spec_in_with self.now.cell (flow_in self.now.fragments.now.nodes.items body.now self.now.cell)))) }
    {
        let mut inner = Vec::new(*piece.steps.allocator());
        let of = Place {
            scope: 0,
            ordinal: 0,
        };
        let cell = self.cell;
        inner.push(With { of, cell })?;
        inner.extend_from_slice(self.withs)?;
        let within = Appender {
            withs: &inner,
            ..*self
        };
        within.append_inner(body, out, piece)
    }

    /// Appends what a form makes, or a beginning of it.
    #[cycle(flows)]
    fn append_form(&self, form: &FlowForm, out: u64, piece: &mut Piece) -> Result<(), Memory>
        requires sound { AreSound self.now.fragments.now.nodes.items }
        requires there { IsFormOver self.now.fragments.now.nodes.items form.now }
        ensures begins { Begins piece.old piece.new }
        ensures ok { OnOk result (Appended piece.old piece.new self.now.withs.now
            (part_at out (form_in self.now.fragments.now.nodes.items form.now self.now.cell))) }
    {
        match form {
            FlowForm::Nothing => Ok(()),
            FlowForm::Straight(code) => append_code(
                self.fragments,
                code,
                self.cell,
                self.withs,
                piece,
            ),
            FlowForm::Block(entries) => self.append_block(entries, out, piece),
            FlowForm::Exit => push_instr(piece, Instr::Jump(forward(out)?)),
            FlowForm::Choice(arms, other) => {
                self.append_arms(arms, other, out, piece)?;
                match other {
                    Some(flow) => self.append_inner(flow, out, piece),
                    None => Ok(()),
                }
            }
            FlowForm::WhileTrue(test, body) => { self.append_while(*test, body, out, piece) }
            FlowForm::UntilTrue(body, test) => { self.append_until(body, *test, out, piece) }
            FlowForm::ForEver(body) => self.append_for_ever(body, piece),
            FlowForm::Counted(turns) => self.append_counted(turns, out, piece),
            FlowForm::WithCell(body) => self.append_with_cell(body, out, piece),
            FlowForm::InWith(body) => self.append_in_with(body, out, piece),
        }
    }

    /// Appends a flow's code and data, or a beginning of them. The end of the innermost LOOP is so far behind it.
    #[cycle(flows)]
    fn append_inner(&self, flow: &Flow, out: u64, piece: &mut Piece) -> Result<(), Memory>
        requires sound { AreSound self.now.fragments.now.nodes.items }
        requires there { IsOver self.now.fragments.now.nodes.items flow.now }
        ensures begins { Begins piece.old piece.new }
        ensures ok { OnOk result (Appended piece.old piece.new self.now.withs.now
            (part_at out (flow_in self.now.fragments.now.nodes.items flow.now self.now.cell))) }
    {
        self.append_form(&flow.form, out, piece)
    }
}

/// Appends the code and the data of a whole statement, which is in no LOOP and no WITH. Without memory the piece has
/// what it had before.
pub fn append_flow(flow: &Flow, fragments: &Fragments, piece: &mut Piece) -> Result<(), Memory>
    requires sound { AreSound fragments.now.nodes.items }
    requires there { IsOver fragments.now.nodes.items flow.now }
    ensures ok { OnOk result (Appended piece.old piece.new []
        (part_at 0 (flow_in fragments.now.nodes.items flow.now 0))) }
    ensures err { OnErr result (IsAsBefore piece.old piece.new) }
{
    let (steps, bytes) = (piece.steps.len(), piece.bytes.len());
    let (cell, byte) = (piece.cell, piece.byte);
    let appender = Appender {
        fragments,
        withs: &[],
        cell: 0,
    };
    let appended = appender.append_inner(flow, 0, piece);
    if appended.is_err() {
        piece.steps.truncate(steps);
        piece.bytes.truncate(bytes);
        piece.cell = cell;
        piece.byte = byte;
    }
    appended
}
