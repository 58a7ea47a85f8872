//! Flows, made of others and of fragments.
ghost use Rattle.std.specs.Prelude.{List};
ghost use Rattle.m2_base.specs.Lists.{Each};
ghost use Rattle.expr_sem.specs.Fragments.{AreSound, IsIn, part};
ghost use Rattle.expr_sem.specs.declared.fragments.Node.{Node};
ghost use Rattle.stmt_sem.specs.FlowTrees.{IsArmOver, IsCodeOf, IsOverIfAny, IsOver, IsTurnsOver, MadeBy, IsFlowOf};
ghost use Rattle.stmt_sem.specs.FlowTrees.{block_among, choice_among, code_by, flow_in, turns_in};
ghost use Rattle.block_code.specs.Flows.{exit as spec_exit, for_ever as spec_for_ever, in_with as spec_in_with};
ghost use Rattle.block_code.specs.Flows.{nothing as spec_nothing, straight as spec_straight};
ghost use Rattle.block_code.specs.Flows.{until_true as spec_until_true, while_true as spec_while_true};
ghost use Rattle.block_code.specs.Flows.{with_cell as spec_with_cell};

use crate::flow_sizes::{arms_size, block_size, jump_size, other_size, sum};
use crate::flows::{Arm, Code, Flow, FlowForm, Turns};
use expr_sem::{Fragment, Fragments};
use m2_base::Memory;
use std::alloc::Global;

impl Flow {
    /// No code.
    pub fn nothing() -> Flow
        ensures { (ns : List Node) → IsFlowOf ns result (λ t. spec_nothing) }
    {
        Flow {
            form: FlowForm::Nothing,
            size: 0,
        }
    }

    /// A statement's own code.
    pub fn straight(code: Code, fragments: &Fragments) -> Result<Flow, Memory>
        requires sound { AreSound fragments.now.nodes.items }
        requires there { IsCodeOf fragments.now.nodes.items code }
        ensures { MadeBy fragments.now.nodes.items result
            (λ t. spec_straight (code_by fragments.now.nodes.items code t)) }
    {
        let size = code.size(fragments)?;
        Ok(Flow {
            form: FlowForm::Straight(code),
            size,
        })
    }

    /// Statements one after another.
    pub fn block(flows: Vec<Flow>) -> Result<Flow, Memory>
        ensures { (ns : List Node) → Each (IsOver ns) flows.items → MadeBy ns result (block_among ns flows.items) }
    {
        let size = block_size(&flows)?;
        Ok(Flow {
            form: FlowForm::Block(flows),
            size,
        })
    }

    /// EXIT.
    pub fn exit() -> Flow
        ensures { (ns : List Node) → IsFlowOf ns result (λ t. spec_exit) }
    {
        Flow {
            form: FlowForm::Exit,
            size: jump_size(),
        }
    }

    /// The body of the first arm whose test holds, else the other one, if there is one.
    pub fn choice(
        arms: Vec<Arm>,
        other: Option<Box<Flow>>,
        fragments: &Fragments,
    ) -> Result<Flow, Memory>
        requires sound { AreSound fragments.now.nodes.items }
        requires arms { Each (IsArmOver fragments.now.nodes.items) arms.items }
        requires other { IsOverIfAny fragments.now.nodes.items other }
        ensures { MadeBy fragments.now.nodes.items result
            (choice_among fragments.now.nodes.items arms.items other) }
    {
        let total = sum(arms_size(&arms, fragments)?, other_size(&other)?)?;
        let size = total.saturating_sub(jump_size());
        Ok(Flow {
            form: FlowForm::Choice(arms, other),
            size,
        })
    }

    /// As long as the test holds, the body.
    pub fn while_true(test: Fragment, body: Flow, fragments: &Fragments) -> Result<Flow, Memory>
        requires sound { AreSound fragments.now.nodes.items }
        requires test { IsIn fragments.now.nodes.items test }
        requires body { IsOver fragments.now.nodes.items body }
        ensures { MadeBy fragments.now.nodes.items result
            (λ t. spec_while_true (part fragments.now.nodes.items test) (flow_in fragments.now.nodes.items body t)) }
    {
        let jump = jump_size();
        let once = sum(fragments.size(test), body.size)?;
        let size = sum(once, jump + jump)?;
        let body = Box::new(*fragments.nodes.allocator(), body)?;
        Ok(Flow {
            form: FlowForm::WhileTrue(test, body),
            size,
        })
    }

    /// The body until the test holds.
    pub fn until_true(body: Flow, test: Fragment, fragments: &Fragments) -> Result<Flow, Memory>
        requires sound { AreSound fragments.now.nodes.items }
        requires body { IsOver fragments.now.nodes.items body }
        requires test { IsIn fragments.now.nodes.items test }
        ensures { MadeBy fragments.now.nodes.items result
            (λ t. spec_until_true (flow_in fragments.now.nodes.items body t) (part fragments.now.nodes.items test)) }
    {
        let once = sum(body.size, fragments.size(test))?;
        let size = sum(once, jump_size())?;
        let body = Box::new(*fragments.nodes.allocator(), body)?;
        Ok(Flow {
            form: FlowForm::UntilTrue(body, test),
            size,
        })
    }

    /// The body for ever.
    pub fn for_ever(body: Flow, alloc: Global) -> Result<Flow, Memory>
        ensures { (ns : List Node) → IsOver ns body → MadeBy ns result (λ t. spec_for_ever (flow_in ns body t)) }
    {
        let size = sum(body.size, jump_size())?;
        let body = Box::new(alloc, body)?;
        Ok(Flow {
            form: FlowForm::ForEver(body),
            size,
        })
    }

    /// A loop that counts.
    pub fn counted(turns: Turns, fragments: &Fragments) -> Result<Flow, Memory>
        requires sound { AreSound fragments.now.nodes.items }
        requires turns { IsTurnsOver fragments.now.nodes.items turns }
        ensures { MadeBy fragments.now.nodes.items result (turns_in fragments.now.nodes.items turns) }
    {
        let size = turns.size(fragments)?;
        let turns = Box::new(*fragments.nodes.allocator(), turns)?;
        Ok(Flow {
            form: FlowForm::Counted(turns),
            size,
        })
    }

    /// A statement that has a temporary cell of its own.
    pub fn with_cell(body: Flow, alloc: Global) -> Result<Flow, Memory>
        ensures { (ns : List Node) → IsOver ns body
            → MadeBy ns result (λ t. spec_with_cell (λ u. flow_in ns body u)) }
    {
        let size = body.size;
        let body = Box::new(alloc, body)?;
        Ok(Flow {
            form: FlowForm::WithCell(body),
            size,
        })
    }

    /// Statements in a WITH, whose record's address is in the cell.
    pub fn in_with(body: Flow, alloc: Global) -> Result<Flow, Memory>
        ensures { (ns : List Node) → IsOver ns body → MadeBy ns result (λ t. spec_in_with t (flow_in ns body t)) }
    {
        let size = body.size;
        let body = Box::new(alloc, body)?;
        Ok(Flow {
            form: FlowForm::InWith(body),
            size,
        })
    }
}
