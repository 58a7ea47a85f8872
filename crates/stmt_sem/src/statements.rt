//! The code of statements, by recursion on the trees. What is noted comes in text order.
ghost use Rattle.std.specs.Prelude.{◌≡◌, ◌≢◌, [], false, map, option_map};
ghost use Rattle.m2_base.specs.Trees.{case_arms, case_form, for_form, if_arms, if_form, loop_form, repeat_form};
ghost use Rattle.m2_base.specs.Trees.{statements as spec_list, while_form, with_form};
ghost use Rattle.m2_base.specs.Views.{case_arm_view, case_else_seen, designator_view, expr_view, if_arm_view};
ghost use Rattle.m2_base.specs.Views.{statement_view};
ghost use Rattle.m2_base.specs.Statics.Operands.{is_bad as spec_bad};
ghost use Rattle.m2_base.specs.Statics.ReadTrees.{IsReadDesignator, IsReadExpr};
ghost use Rattle.expr_sem.specs.Codings.{IsCoded, coded_in};
ghost use Rattle.expr_sem.specs.Fragments.{AreSound};
ghost use Rattle.type_rules.specs.Scenes.{IsThere};
ghost use Rattle.stmt_sem.specs.FlowTrees.{flow_in};
ghost use Rattle.stmt_sem.specs.Flowings.{Flowing, IsFlow};
ghost use Rattle.m2_base.specs.Statics.ReadStatements.{AreReadCaseArms, AreReadIfArms, AreReadStatements};
ghost use Rattle.m2_base.specs.Statics.ReadStatements.{IsReadCaseArm, IsReadCaseElse, IsReadExprOption};
ghost use Rattle.m2_base.specs.Statics.ReadStatements.{IsReadStatement};
ghost use Rattle.stmt_sem.specs.Stands.{IsStand, names_of, stand_in};
ghost use Rattle.stmt_sem.specs.Stated.{AreArms, IsCase, IsOther, arms_in, case_in, cases_in, other_in};
ghost use Rattle.stmt_sem.specs.StatementParts.{form_of, otherwise as spec_otherwise, with_body as spec_with};
ghost use Rattle.block_code.specs.Statements.{arms_flow, case_flow, cases_flow, else_flow, flow_of};
ghost use Rattle.block_code.specs.Statements.{statement_flow};
ghost use Rattle.stmt_sem.specs.Walkers.{Keeps, Walks, frame_of, nodes_of};

use crate::counting::{Count, check_step, emit_for};
use crate::flow_parts::{answered, case_made, opened, with_made};
use crate::flows::{Arm, Code, Flow};
use crate::simple_statements::{exit_statement, no_case_else};
use crate::stands::Stand;
use crate::walker::Walker;
use case_labels::{Coverage, Covered, case_labels};
use const_eval::is_bad;
use expr_sem::{Coded, Fragments};
use m2_base::{
    Ask, CaseArm, Designator, Expr, Ident, IfArm, Memory, Notes, Place, Scopes, Statement, StmtForm,
};
use type_rules::operand_type;

/// An arm of a CASE, and the values that are covered with it.
#[derive(Drop)]
struct OneCase {
    arm: Arm,
    covered: Covered,
}

/// What a FOR has between its variable and its statements.
#[derive(Clone, Copy)]
struct Limits<'a> {
    first: &'a Expr,
    last: &'a Expr,
    by: &'a Option<Expr>,
}

impl<S: Scopes> Walker<'_, S> {
    /// A statement.
    #[cycle(statements)]
    pub fn statement(&mut self, stand: &Stand, of: &Statement) -> Result<Ask<Flow>, Memory>
        requires stand { IsStand (frame_of S.state self.old) stand.now }
        requires sound { AreSound (nodes_of self.old) }
        requires read { IsReadStatement (names_of stand.now) (statement_view of.now) }
        ensures keeps { Keeps self.old self.new }
        ensures walks { Walks S.state self.old self.new stand.now result IsFlow flow_in
            (λ s. statement_flow s (statement_view of.now)) }
    {
        match &of.form {
            StmtForm::Assign { to, value } => { self.assign_statement(stand, to, value) }
            StmtForm::Call { to, args } => { self.called_statement(stand, to, args) }
            StmtForm::If { arms, other } => { self.if_statement(stand, arms, other) }
            StmtForm::Loop(body) => self.loop_statement(stand, body),
            StmtForm::Exit => exit_statement(stand, of.at, self.notes),
            StmtForm::Case { value, arms, other } => {
                self.case_statement(stand, value, arms, other)
            }
            StmtForm::While { test, body } => { self.while_statement(stand, test, body) }
            StmtForm::Repeat { body, test } => { self.repeat_statement(stand, body, test) }
            StmtForm::For {
                name,
                first,
                last,
                by,
                body,
            } => {
                let limits = Limits { first, last, by };
                self.for_statement(stand, *name, &limits, body)
            }
            StmtForm::With { of, body } => { self.with_statement(stand, of, body) }
            StmtForm::Return(value) => { self.return_statement(stand, of.at, value) }
            StmtForm::Empty => Ok(Ask::Known(Flow::nothing())),
        }
    }

    /// Statements one after another, from the same stand: one flow of all of theirs, in text order. It waits where the
    /// first of them does, and what was added to the fragments and to the notes is of no use then.
    #[cycle(statements)]
    pub(crate) fn statements(
        &mut self,
        stand: &Stand,
        body: &[Statement],
    ) -> Result<Ask<Flow>, Memory>
        requires stand { IsStand (frame_of S.state self.old) stand.now }
        requires sound { AreSound (nodes_of self.old) }
        requires read { AreReadStatements (names_of stand.now) (spec_list (map statement_view body.now)) }
        ensures keeps { Keeps self.old self.new }
        ensures walks { Walks S.state self.old self.new stand.now result IsFlow flow_in
            (λ s. flow_of s (spec_list (map statement_view body.now))) }
    {
        let mut made = Vec::new(*self.fragments.nodes.allocator());
        for of in body.iter() {
            let flow = analysed!(self.statement(stand, of));
            made.push(flow)?;
        }
        answered(Flow::block(made))
    }

    /// What stands after ELSE of an IF, if there are statements.
    #[cycle(statements)]
    fn otherwise(
        &mut self,
        stand: &Stand,
        body: &[Statement],
    ) -> Result<Ask<Option<Box<Flow>>>, Memory>
        requires stand { IsStand (frame_of S.state self.old) stand.now }
        requires sound { AreSound (nodes_of self.old) }
        requires read { AreReadStatements (names_of stand.now) (spec_list (map statement_view body.now)) }
        ensures keeps { Keeps self.old self.new }
        ensures walks { Walks S.state self.old self.new stand.now result IsOther other_in
            (λ s. spec_otherwise s (spec_list (map statement_view body.now))) }
    {
        if body.is_empty() {
            return Ok(Ask::Known(None));
        }
        let flow = analysed!(self.statements(stand, body));
        let held = Box::new(*self.fragments.nodes.allocator(), flow)?;
        Ok(Ask::Known(Some(held)))
    }

    /// The arms of an IF.
    #[cycle(statements)]
    fn if_arms_made(&mut self, stand: &Stand, arms: &[IfArm]) -> Result<Ask<Vec<Arm>>, Memory>
        requires stand { IsStand (frame_of S.state self.old) stand.now }
        requires sound { AreSound (nodes_of self.old) }
        requires read { AreReadIfArms (names_of stand.now) (if_arms (map if_arm_view arms.now)) }
        ensures keeps { Keeps self.old self.new }
        ensures walks { Walks S.state self.old self.new stand.now result AreArms arms_in
            (λ s. arms_flow s (if_arms (map if_arm_view arms.now))) }
    {
        let mut made = Vec::new(*self.fragments.nodes.allocator());
        for arm in arms.iter() {
            let holds = analysed!(self.test(stand, &arm.test));
            let body = analysed!(self.statements(stand, &arm.body));
            let test = Code::Fixed(holds);
            made.push(Arm { test, body })?;
        }
        Ok(Ask::Known(made))
    }

    /// IF.
    #[cycle(statements)]
    fn if_statement(
        &mut self,
        stand: &Stand,
        arms: &[IfArm],
        other: &[Statement],
    ) -> Result<Ask<Flow>, Memory>
        requires stand { IsStand (frame_of S.state self.old) stand.now }
        requires sound { AreSound (nodes_of self.old) }
        requires arms { AreReadIfArms (names_of stand.now) (if_arms (map if_arm_view arms.now)) }
        requires other { AreReadStatements (names_of stand.now) (spec_list (map statement_view other.now)) }
        ensures keeps { Keeps self.old self.new }
        ensures walks { Walks S.state self.old self.new stand.now result IsFlow flow_in (λ s.
            form_of s (if_form (if_arms (map if_arm_view arms.now)) (spec_list (map statement_view other.now)))) }
    {
        let made = analysed!(self.if_arms_made(stand, arms));
        let rest = analysed!(self.otherwise(stand, other));
        answered(Flow::choice(made, rest, self.fragments))
    }

    /// LOOP.
    #[cycle(statements)]
    fn loop_statement(&mut self, stand: &Stand, body: &[Statement]) -> Result<Ask<Flow>, Memory>
        requires stand { IsStand (frame_of S.state self.old) stand.now }
        requires sound { AreSound (nodes_of self.old) }
        requires read { AreReadStatements (names_of stand.now) (spec_list (map statement_view body.now)) }
        ensures keeps { Keeps self.old self.new }
        ensures walks { Walks S.state self.old self.new stand.now result IsFlow flow_in
            (λ s. form_of s (loop_form (spec_list (map statement_view body.now)))) }
    {
        let within = Stand {
            looped: true,
            ..*stand
        };
        let inner = analysed!(self.statements(&within, body));
        answered(Flow::for_ever(inner, *self.fragments.nodes.allocator()))
    }

    /// One arm of a CASE whose selector has this type, where the arms before cover these values.
    #[cycle(statements)]
    fn case_arm(
        &mut self,
        stand: &Stand,
        of: Place,
        covered: Covered,
        arm: &CaseArm,
    ) -> Result<Ask<OneCase>, Memory>
        requires stand { IsStand (frame_of S.state self.old) stand.now }
        requires sound { AreSound (nodes_of self.old) }
        requires of { IsThere (frame_of S.state self.old) of }
        requires read { IsReadCaseArm (names_of stand.now) (case_arm_view arm.now) }
        ensures keeps { Keeps self.old self.new }
        ensures walks { Walks S.state self.old self.new stand.now result IsCase case_in
            (λ s. case_flow s of covered (case_arm_view arm.now)) }
    {
        let coverage = Coverage { of, covered };
        let labels = analysed!(case_labels(
            self.scopes,
            stand.site,
            coverage,
            &arm.labels,
            self.notes
        ));
        let body = analysed!(self.statements(stand, &arm.body));
        Ok(Ask::Known(OneCase {
            arm: Arm {
                test: Code::Labels(labels.tests),
                body,
            },
            covered: labels.covered,
        }))
    }

    /// The arms of a CASE whose selector has this type.
    #[cycle(statements)]
    fn case_arms_made(
        &mut self,
        stand: &Stand,
        of: Place,
        arms: &[CaseArm],
    ) -> Result<Ask<Vec<Arm>>, Memory>
        requires stand { IsStand (frame_of S.state self.old) stand.now }
        requires sound { AreSound (nodes_of self.old) }
        requires of { IsThere (frame_of S.state self.old) of }
        requires arms { AreReadCaseArms (names_of stand.now) (case_arms (map case_arm_view arms.now)) }
        ensures keeps { Keeps self.old self.new }
        ensures walks { Walks S.state self.old self.new stand.now result AreArms cases_in
            (λ s. cases_flow s of [] (case_arms (map case_arm_view arms.now))) }
    {
        let alloc = *self.fragments.nodes.allocator();
        let mut made = Vec::new(alloc);
        let mut covered = Covered::new(alloc);
        for arm in arms.iter() {
            let one = analysed!(self.case_arm(stand, of, covered, arm));
            made.push(one.arm)?;
            covered = one.covered;
        }
        Ok(Ask::Known(made))
    }

    /// What stands where no label of a CASE holds.
    #[cycle(statements)]
    fn case_else(
        &mut self,
        stand: &Stand,
        other: &Option<Vec<Statement>>,
    ) -> Result<Ask<Flow>, Memory>
        requires stand { IsStand (frame_of S.state self.old) stand.now }
        requires sound { AreSound (nodes_of self.old) }
        requires other { IsReadCaseElse (names_of stand.now) (case_else_seen other.now) }
        ensures keeps { Keeps self.old self.new }
        ensures walks { Walks S.state self.old self.new stand.now result IsFlow flow_in
            (λ s. else_flow s (case_else_seen other.now)) }
    {
        match other {
            None => no_case_else(self.fragments),
            Some(body) => self.statements(stand, body),
        }
    }

    /// CASE.
    #[cycle(statements)]
    fn case_statement(
        &mut self,
        stand: &Stand,
        value: &Expr,
        arms: &[CaseArm],
        other: &Option<Vec<Statement>>,
    ) -> Result<Ask<Flow>, Memory>
        requires stand { IsStand (frame_of S.state self.old) stand.now }
        requires sound { AreSound (nodes_of self.old) }
        requires value { IsReadExpr (names_of stand.now) (expr_view value.now) }
        requires arms { AreReadCaseArms (names_of stand.now) (case_arms (map case_arm_view arms.now)) }
        requires other { IsReadCaseElse (names_of stand.now) (case_else_seen other.now) }
        ensures keeps { Keeps self.old self.new }
        ensures walks { Walks S.state self.old self.new stand.now result IsFlow flow_in (λ s. form_of s
            (case_form (expr_view value.now) (case_arms (map case_arm_view arms.now)) (case_else_seen other.now))) }
    {
        let x = analysed!(self.selector(stand, value));
        let made = analysed!(self.case_arms_made(stand, x.of, arms));
        let rest = analysed!(self.case_else(stand, other));
        answered(case_made(x.value, made, rest, self.fragments))
    }

    /// WHILE.
    #[cycle(statements)]
    fn while_statement(
        &mut self,
        stand: &Stand,
        holds: &Expr,
        body: &[Statement],
    ) -> Result<Ask<Flow>, Memory>
        requires stand { IsStand (frame_of S.state self.old) stand.now }
        requires sound { AreSound (nodes_of self.old) }
        requires holds { IsReadExpr (names_of stand.now) (expr_view holds.now) }
        requires read { AreReadStatements (names_of stand.now) (spec_list (map statement_view body.now)) }
        ensures keeps { Keeps self.old self.new }
        ensures walks { Walks S.state self.old self.new stand.now result IsFlow flow_in
            (λ s. form_of s (while_form (expr_view holds.now) (spec_list (map statement_view body.now)))) }
    {
        let code = analysed!(self.test(stand, holds));
        let inner = analysed!(self.statements(stand, body));
        answered(Flow::while_true(code, inner, self.fragments))
    }

    /// REPEAT.
    #[cycle(statements)]
    fn repeat_statement(
        &mut self,
        stand: &Stand,
        body: &[Statement],
        holds: &Expr,
    ) -> Result<Ask<Flow>, Memory>
        requires stand { IsStand (frame_of S.state self.old) stand.now }
        requires sound { AreSound (nodes_of self.old) }
        requires read { AreReadStatements (names_of stand.now) (spec_list (map statement_view body.now)) }
        requires holds { IsReadExpr (names_of stand.now) (expr_view holds.now) }
        ensures keeps { Keeps self.old self.new }
        ensures walks { Walks S.state self.old self.new stand.now result IsFlow flow_in
            (λ s. form_of s (repeat_form (spec_list (map statement_view body.now)) (expr_view holds.now))) }
    {
        let inner = analysed!(self.statements(stand, body));
        let code = analysed!(self.test(stand, holds));
        answered(Flow::until_true(inner, code, self.fragments))
    }

    /// FOR.
    #[cycle(statements)]
    fn for_statement(
        &mut self,
        stand: &Stand,
        name: Ident,
        limits: &Limits,
        body: &[Statement],
    ) -> Result<Ask<Flow>, Memory>
        requires stand { IsStand (frame_of S.state self.old) stand.now }
        requires sound { AreSound (nodes_of self.old) }
        requires name { name.name ≢ 0 }
        requires first { IsReadExpr (names_of stand.now) (expr_view limits.now.first.now) }
        requires last { IsReadExpr (names_of stand.now) (expr_view limits.now.last.now) }
        requires by { IsReadExprOption (names_of stand.now) (option_map expr_view limits.now.by.now) }
        requires read { AreReadStatements (names_of stand.now) (spec_list (map statement_view body.now)) }
        ensures keeps { Keeps self.old self.new }
        ensures walks { Walks S.state self.old self.new stand.now result IsFlow flow_in
            (λ s. form_of s (for_form name (expr_view limits.now.first.now) (expr_view limits.now.last.now)
            (option_map expr_view limits.now.by.now) (spec_list (map statement_view body.now)))) }
    {
        let x = analysed!(self.control_variable(stand, name));
        let first = analysed!(self.check_bound(stand, x, limits.first));
        let last = analysed!(self.check_bound(stand, x, limits.last));
        let by = analysed!(check_step(self.scopes, stand.site, limits.by, self.notes));
        let inner = analysed!(self.statements(stand, body));
        let count = Count {
            variable: x,
            first,
            last,
            by,
        };
        emit_for(self.scopes, stand.site, &count, inner, self.fragments)
    }

    /// The statements in a WITH of this record.
    #[cycle(statements)]
    fn in_record(
        &mut self,
        stand: &Stand,
        x: Coded,
        body: &[Statement],
    ) -> Result<Ask<Flow>, Memory>
        requires stand { IsStand (frame_of S.state self.old) stand.now }
        requires sound { AreSound (nodes_of self.old) }
        requires x { IsCoded (frame_of S.state self.old) (nodes_of self.old) x }
        requires good { spec_bad x.operand ≡ false }
        requires read { AreReadStatements (names_of stand.now) (spec_list (map statement_view body.now)) }
        ensures keeps { Keeps self.old self.new }
        ensures walks { Walks S.state self.old self.new stand.now result IsFlow flow_in
            (λ s. spec_with s (coded_in (nodes_of self.old) x) (spec_list (map statement_view body.now))) }
    {
        let alloc = *self.fragments.nodes.allocator();
        let withs = opened(stand.withs, operand_type(&x.operand), alloc)?;
        let within = Stand {
            withs: &withs,
            ..*stand
        };
        let inner = analysed!(self.statements(&within, body));
        answered(with_made(x.code, inner, self.fragments))
    }

    /// WITH.
    #[cycle(statements)]
    fn with_statement(
        &mut self,
        stand: &Stand,
        of: &Designator,
        body: &[Statement],
    ) -> Result<Ask<Flow>, Memory>
        requires stand { IsStand (frame_of S.state self.old) stand.now }
        requires sound { AreSound (nodes_of self.old) }
        requires of { IsReadDesignator (names_of stand.now) (designator_view of.now) }
        requires read { AreReadStatements (names_of stand.now) (spec_list (map statement_view body.now)) }
        ensures keeps { Keeps self.old self.new }
        ensures walks { Walks S.state self.old self.new stand.now result IsFlow flow_in
            (λ s. form_of s (with_form (designator_view of.now) (spec_list (map statement_view body.now)))) }
    {
        let x = analysed!(self.record_of(stand, of));
        if is_bad(x.operand) {
            let inner = analysed!(self.statements(stand, body));
            return answered(Flow::with_cell(inner, *self.fragments.nodes.allocator()));
        }
        self.in_record(stand, x, body)
    }
}

/// A statement where it stands: its code as a flow, for which further fragments are added. What is wrong is noted in
/// text order, and what is in error has no code. It waits where the first of its parts does.
pub fn statement<S: Scopes>(
    scopes: &mut S,
    stand: &Stand,
    of: &Statement,
    fragments: &mut Fragments,
    notes: &mut Notes,
) -> Result<Ask<Flow>, Memory>
    requires stand { IsStand (S.state scopes.old).frame stand.now }
    requires sound { AreSound fragments.old.nodes.items }
    requires read { IsReadStatement (names_of stand.now) (statement_view of.now) }
    ensures { Flowing (S.state scopes.old) (S.state scopes.new) notes.old notes.new
        fragments.old.nodes.items fragments.new.nodes.items stand.now.site.now result IsFlow flow_in
        (λ c. statement_flow (stand_in c stand.now) (statement_view of.now)) }
{
    let mut walker = Walker {
        scopes,
        fragments,
        notes,
    };
    walker.statement(stand, of)
}
