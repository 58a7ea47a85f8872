//! Flows of whole statements, put together of several.
ghost use Rattle.std.specs.Prelude.{◌≡◌, ◌∷◌, List, IfOk};
ghost use Rattle.m2_base.specs.Lists.{Each};
ghost use Rattle.expr_sem.specs.Codings.{with_types};
ghost use Rattle.expr_sem.specs.Fragments.{AreSound, IsIn, part};
ghost use Rattle.expr_sem.specs.declared.fragments.Node.{Node};
ghost use Rattle.stmt_sem.specs.FlowTrees.{IsArmOver, IsCodeOf, IsOver, MadeBy, arms_or, code_by, flow_in};
ghost use Rattle.block_code.specs.Flows.{in_with as spec_in_with, straight as spec_straight};
ghost use Rattle.block_code.specs.Flows.{with_cell as spec_with_cell, ◌⨾◌};
ghost use Rattle.stmt_sem.specs.Stated.{answer_of};
ghost use Rattle.stmt_sem.specs.StatementParts.{stored_before as spec_stored};

use crate::flows::{Arm, Code, Flow};
use expr_sem::{Fragment, Fragments, With};
use m2_base::{Ask, Memory, Place};
use std::alloc::Global;

/// A flow that was made, as a known answer.
pub fn answered(made: Result<Flow, Memory>) -> Result<Ask<Flow>, Memory>
    ensures { result ≡ answer_of made }
{
    match made {
        Ok(flow) => Ok(Ask::Known(flow)),
        Err(memory) => Err(memory),
    }
}

/// One flow behind another.
pub fn behind(first: Flow, second: Flow, alloc: Global) -> Result<Flow, Memory>
    ensures { (ns : List Node) → IsOver ns first → IsOver ns second
        → MadeBy ns result (λ t. flow_in ns first t ⨾ flow_in ns second t) }
{
    let mut both = Vec::new(alloc);
    both.push(first)?;
    both.push(second)?;
    Flow::block(both)
}

/// Code that may use a cell, and a flow behind it, in a statement that has this cell of its own.
pub fn celled(code: Code, rest: Flow, fragments: &Fragments) -> Result<Flow, Memory>
    requires sound { AreSound fragments.now.nodes.items }
    requires code { IsCodeOf fragments.now.nodes.items code }
    requires rest { IsOver fragments.now.nodes.items rest }
    ensures { MadeBy fragments.now.nodes.items result (λ u. spec_with_cell (λ t.
        spec_straight (code_by fragments.now.nodes.items code t) ⨾ flow_in fragments.now.nodes.items rest t)) }
{
    let alloc = *fragments.nodes.allocator();
    let first = Flow::straight(code, fragments)?;
    let both = behind(first, rest, alloc)?;
    Flow::with_cell(both, alloc)
}

/// The first value of a FOR to its variable, and then its turns, where the last value is in the cell.
pub fn for_made(
    first: Fragment,
    last: Code,
    turns: Flow,
    fragments: &Fragments,
) -> Result<Flow, Memory>
    requires sound { AreSound fragments.now.nodes.items }
    requires first { IsIn fragments.now.nodes.items first }
    requires last { IsCodeOf fragments.now.nodes.items last }
    requires turns { IsOver fragments.now.nodes.items turns }
    ensures { let nodes = fragments.now.nodes.items in
        MadeBy nodes result (λ t. spec_straight (part nodes first) ⨾ spec_with_cell (λ u.
        spec_straight (code_by nodes last u) ⨾ flow_in nodes turns u)) }
{
    let counted = celled(last, turns, fragments)?;
    let start = Flow::straight(Code::Fixed(first), fragments)?;
    behind(start, counted, *fragments.nodes.allocator())
}

/// The arms and ELSE of a CASE whose selector has this value.
pub fn case_made(
    value: Fragment,
    arms: Vec<Arm>,
    other: Flow,
    fragments: &Fragments,
) -> Result<Flow, Memory>
    requires sound { AreSound fragments.now.nodes.items }
    requires value { IsIn fragments.now.nodes.items value }
    requires arms { Each (IsArmOver fragments.now.nodes.items) arms.items }
    requires other { IsOver fragments.now.nodes.items other }
    ensures { MadeBy fragments.now.nodes.items result (λ u. spec_stored (part fragments.now.nodes.items value)
        (arms_or fragments.now.nodes.items arms.items (flow_in fragments.now.nodes.items other))) }
{
    let other = Box::new(*fragments.nodes.allocator(), other)?;
    let choice = Flow::choice(arms, Some(other), fragments)?;
    celled(Code::Stored(value), choice, fragments)
}

/// The statements in a WITH of the record whose address this code gives.
pub fn with_made(address: Fragment, body: Flow, fragments: &Fragments) -> Result<Flow, Memory>
    requires sound { AreSound fragments.now.nodes.items }
    requires address { IsIn fragments.now.nodes.items address }
    requires body { IsOver fragments.now.nodes.items body }
    ensures { MadeBy fragments.now.nodes.items result (λ u. spec_stored (part fragments.now.nodes.items address)
        (λ t. spec_in_with t (flow_in fragments.now.nodes.items body t))) }
{
    let inner = Flow::in_with(body, *fragments.nodes.allocator())?;
    celled(Code::Stored(address), inner, fragments)
}

/// The open WITHs, and one more within them. Its cell isn't known yet.
pub fn opened(withs: &[With], of: Place, alloc: Global) -> Result<Vec<With>, Memory>
    ensures { IfOk result (λ more. with_types more.items ≡ of ∷ with_types withs.now) }
{
    let mut more = Vec::new(alloc);
    more.push(With { of, cell: 0 })?;
    more.extend_from_slice(withs)?;
    Ok(more)
}
