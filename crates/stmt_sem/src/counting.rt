//! FOR: its values, and its code.
ghost use Rattle.std.specs.Prelude.{◌≡◌, List, option_map, if◌then◌else◌};
ghost use Rattle.m2_base.specs.Gives.{and_then, gives};
ghost use Rattle.m2_base.specs.Statics.Compatible.{is_number_type as spec_number};
ghost use Rattle.m2_base.specs.Statics.ReadStatements.{IsReadExprOption};
ghost use Rattle.m2_base.specs.Statics.ReadTrees.{IsReadExpr};
ghost use Rattle.m2_base.specs.Trees.{expr_at};
ghost use Rattle.m2_base.specs.Views.{expr_view};
ghost use Rattle.m2_base.specs.declared.notes.Notes.{Notes as NotesOf};
ghost use Rattle.code_form.specs.declared.instr.Instr.TheVariants as instrs;
ghost use Rattle.expr_sem.specs.Codings.{Coding, IsCoded, IsFragment, coded_in};
ghost use Rattle.expr_sem.specs.Fragments.{AreSound, IsIn, part};
ghost use Rattle.expr_sem.specs.declared.fragments.Node.{Node};
ghost use Rattle.type_rules.specs.Sites.{SuitsSite};
ghost use Rattle.block_code.specs.Counting.{bound_value, comparison as spec_comparison, for_first as spec_first};
ghost use Rattle.block_code.specs.Counting.{for_last as spec_last, for_more, for_step as spec_step, for_test, has_code};
ghost use Rattle.block_code.specs.Counting.{or_one};
ghost use Rattle.stmt_sem.specs.FlowTrees.{IsOver, MadeBy, code_by, flow_in};
ghost use Rattle.stmt_sem.specs.Flowings.{Flowing, IsFlow};
ghost use Rattle.block_code.specs.Flows as flow;
ghost use Rattle.block_code.specs.Flows.{counted as spec_counted};
ghost use Rattle.stmt_sem.specs.Plain.{IsStep, itself};
ghost use Rattle.stmt_sem.specs.Stands.{IsStand, names_of, stand_in};
ghost use Rattle.block_code.specs.Statements.{by_of, for_flow, value_at};
ghost use Rattle.stmt_sem.specs.Taken.{IsCellCode, StandsFor};
ghost use Rattle.stmt_sem.specs.Walkers.{Codes, Keeps, frame_of, nodes_of};
ghost use Rattle.stmt_sem.specs.declared.stands.Stand.{Stand as StandOf};

use crate::assignments::store_code;
use crate::flow_parts::{self, for_made};
use crate::flows::{Code, Flow, Turns};
use crate::refusals::refused_step;
use crate::stands::Stand;
use crate::walker::Walker;
use code_form::Instr;
use const_eval::{constant, is_bad};
use expr_sem::{
    Coded, Fragment, Fragments, Placed, answered, fitted_code, instr_behind, pair, side_of,
};
use m2_base::{Ask, Diagnostic, Expr, Memory, Notes, Operand, Place, Scopes, Site};
use type_rules::{WHOLE, base_of, is_integer_or_cardinal, operand_type};

/// What a FOR counts: its variable from the first value to the last, and its step. What is in error has no code.
#[derive(Clone, Copy)]
pub struct Count {
    pub variable: Coded,
    pub first: Coded,
    pub last: Coded,
    pub by: i64,
}

impl<S: Scopes> Walker<'_, S> {
    /// The first or the last value, which is assignable to the variable `x`.
    pub(crate) fn check_bound(
        &mut self,
        stand: &Stand,
        x: Coded,
        e: &Expr,
    ) -> Result<Ask<Coded>, Memory>
        requires stand { IsStand (frame_of S.state self.old) stand.now }
        requires x { IsCoded (frame_of S.state self.old) (nodes_of self.old) x }
        requires e { IsReadExpr (names_of stand.now) (expr_view e.now) }
        ensures keeps { Keeps self.old self.new }
        ensures codes { Codes S.state self.old self.new stand.now result IsCoded coded_in (λ s. and_then (value_at s
            (expr_view e.now)) (bound_value s.context (coded_in (nodes_of self.old) x) (expr_at (expr_view e.now)))) }
    {
        let coded = analysed!(self.value_of(stand, e));
        if is_bad(x.operand) {
            return Ok(Ask::Known(Coded::in_error()));
        }
        let of = operand_type(&x.operand);
        let value = Placed { at: e.at, coded };
        self.assigned_to(stand, of, Diagnostic::NotAssignable, value)
    }
}

/// Whether a base is INTEGER or CARDINAL, or the type of whole constants.
fn is_number(base: Place) -> bool
    ensures { result ≡ spec_number base }
{
    is_integer_or_cardinal(base) || base == WHOLE
}

/// The step, which is a number other than 0. It is 1 where there is none or it is in error.
pub fn check_step<S: Scopes>(
    scopes: &mut S,
    site: &Site,
    by: &Option<Expr>,
    notes: &mut Notes,
) -> Result<Ask<i64>, Memory>
    requires suits { SuitsSite (S.state scopes.old).frame site.now }
    requires by { IsReadExprOption site.now.texts.now.names (option_map expr_view by.now) }
    ensures { (stand : StandOf) (nodes : List Node)
        → Coding (S.state scopes.old) (S.state scopes.new) notes.old notes.new nodes nodes site.now result IsStep
        itself (λ c. and_then (by_of (stand_in c stand) (option_map expr_view by.now)) (λ step. gives (or_one step))) }
{
    let Some(e) = by else {
        return Ok(Ask::Known(1));
    };
    let Some(operand) = analysed!(constant(scopes, site, e, notes)) else {
        return Ok(Ask::Known(1));
    };
    let Operand::Constant(of, value) = operand else {
        return refused_step(site, e.at, Diagnostic::WrongOperands, notes);
    };
    let base = asked!(base_of(scopes, site.around, of));
    if !is_number(base) {
        return refused_step(site, e.at, Diagnostic::WrongOperands, notes);
    }
    if value == 0 {
        return refused_step(site, e.at, Diagnostic::OutOfRange, notes);
    }
    Ok(Ask::Known(value))
}

/// A step upwards ends behind the last value, one downwards before it.
fn comparison(by: i64) -> Instr
    ensures { result ≡ spec_comparison by }
{
    if by < 0 { Instr::Ge } else { Instr::Le }
}

/// The first value goes to the variable.
fn emit_first<S: Scopes>(
    scopes: &mut S,
    site: &Site,
    x: Coded,
    first: Coded,
    fragments: &mut Fragments,
) -> Result<Ask<Fragment>, Memory>
    requires suits { SuitsSite (S.state scopes.old).frame site.now }
    requires x { IsCoded (S.state scopes.old).frame fragments.old.nodes.items x }
    requires first { IsCoded (S.state scopes.old).frame fragments.old.nodes.items first }
    ensures { (notes : NotesOf) → Coding (S.state scopes.old) (S.state scopes.new) notes notes
        fragments.old.nodes.items fragments.new.nodes.items site.now result IsFragment part
        (λ c. gives (spec_first c (coded_in fragments.old.nodes.items x) (coded_in fragments.old.nodes.items first))) }
{
    if is_bad(x.operand) || is_bad(first.operand) {
        return Ok(Ask::Known(Fragment::Nothing));
    }
    store_code(scopes, site, x, first, fragments)
}

/// The last value goes to the cell of the statement.
fn emit_last<S: Scopes>(
    scopes: &mut S,
    site: &Site,
    x: Coded,
    last: Coded,
    fragments: &mut Fragments,
) -> Result<Ask<Code>, Memory>
    requires suits { SuitsSite (S.state scopes.old).frame site.now }
    requires x { IsCoded (S.state scopes.old).frame fragments.old.nodes.items x }
    requires last { IsCoded (S.state scopes.old).frame fragments.old.nodes.items last }
    ensures { (notes : NotesOf) → Coding (S.state scopes.old) (S.state scopes.new) notes notes
        fragments.old.nodes.items fragments.new.nodes.items site.now result IsCellCode code_by (λ c.
        gives (λ t. spec_last c t (coded_in fragments.old.nodes.items x) (coded_in fragments.old.nodes.items last))) }
{
    if is_bad(x.operand) || is_bad(last.operand) {
        return Ok(Ask::Known(Code::Fixed(Fragment::Nothing)));
    }
    let of = operand_type(&x.operand);
    let value = analysed!(fitted_code(scopes, site, of, last, fragments));
    Ok(Ask::Known(Code::Stored(value)))
}

/// The variable takes its next value.
fn emit_step<S: Scopes>(
    scopes: &mut S,
    site: &Site,
    x: Coded,
    by: i64,
    fragments: &mut Fragments,
) -> Result<Ask<Fragment>, Memory>
    requires suits { SuitsSite (S.state scopes.old).frame site.now }
    requires x { IsCoded (S.state scopes.old).frame fragments.old.nodes.items x }
    ensures { (notes : NotesOf) → Coding (S.state scopes.old) (S.state scopes.new) notes notes
        fragments.old.nodes.items fragments.new.nodes.items site.now result IsFragment part
        (λ c. gives (spec_step c.scene (coded_in fragments.old.nodes.items x) by)) }
{
    let side = asked!(side_of(scopes, site, operand_type(&x.operand)));
    let loaded = pair(Instr::Dup, Instr::Load, fragments)?;
    let sum = pair(Instr::Push(by), Instr::Add(side), fragments)?;
    let stored = instr_behind(sum, Instr::Store, fragments)?;
    let next = fragments.then(loaded, stored)?;
    answered(fragments.then(x.code, next))
}

/// The body as often as the variable is within its bounds; once where the variable is in error.
fn emit_turns(
    x: Coded,
    by: i64,
    step: Fragment,
    body: Flow,
    fragments: &Fragments,
) -> Result<Flow, Memory>
    requires sound { AreSound fragments.now.nodes.items }
    requires x { IsIn fragments.now.nodes.items x.code }
    requires step { IsIn fragments.now.nodes.items step }
    requires body { IsOver fragments.now.nodes.items body }
    ensures { let nodes = fragments.now.nodes.items in let variable = coded_in nodes x in
        MadeBy nodes result (λ t. if has_code variable then spec_counted (for_test t variable by)
        (flow_in nodes body t) (for_more t variable by) (part nodes step) else flow_in nodes body t) }
{
    if is_bad(x.operand) {
        return Ok(body);
    }
    let first = Code::Compared(x.code, comparison(by));
    let again = Code::Compared(x.code, Instr::More(by));
    let turns = Turns {
        first,
        body,
        again,
        step,
    };
    Flow::counted(turns, fragments)
}

/// The code of a FOR that counts so, with this body.
pub fn emit_for<S: Scopes>(
    scopes: &mut S,
    site: &Site,
    count: &Count,
    body: Flow,
    fragments: &mut Fragments,
) -> Result<Ask<Flow>, Memory>
    requires suits { SuitsSite (S.state scopes.old).frame site.now }
    requires sound { AreSound fragments.old.nodes.items }
    requires variable { IsCoded (S.state scopes.old).frame fragments.old.nodes.items count.now.variable }
    requires first { IsCoded (S.state scopes.old).frame fragments.old.nodes.items count.now.first }
    requires last { IsCoded (S.state scopes.old).frame fragments.old.nodes.items count.now.last }
    requires body { IsOver fragments.old.nodes.items body }
    ensures { (notes : NotesOf) (within : flow.Flow) → StandsFor (S.state scopes.old).frame site.now
        fragments.old.nodes.items body within → Flowing (S.state scopes.old) (S.state scopes.new) notes
        notes fragments.old.nodes.items fragments.new.nodes.items site.now result IsFlow flow_in (λ c.
        gives (for_flow c (coded_in fragments.old.nodes.items count.now.variable) (coded_in fragments.old.nodes.items
        count.now.first) (coded_in fragments.old.nodes.items count.now.last) count.now.by within)) }
{
    let x = count.variable;
    let first = analysed!(emit_first(scopes, site, x, count.first, fragments));
    let last = analysed!(emit_last(scopes, site, x, count.last, fragments));
    let step = analysed!(emit_step(scopes, site, x, count.by, fragments));
    let turns = emit_turns(x, count.by, step, body, fragments)?;
    flow_parts::answered(for_made(first, last, turns, fragments))
}
