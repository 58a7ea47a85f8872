//! Statements that have no statements within them.
ghost use Rattle.std.specs.Prelude.{List, map, option_map};
ghost use Rattle.m2_base.specs.Statics.ReadTrees.{AreReadExprs, IsReadDesignator, IsReadExpr};
ghost use Rattle.m2_base.specs.Trees.{assign_form, call_statement as spec_call, exprs, return_form};
ghost use Rattle.m2_base.specs.Views.{designator_view, expr_view};
ghost use Rattle.m2_base.specs.Gives.{gives};
ghost use Rattle.m2_base.specs.States.{State};
ghost use Rattle.m2_base.specs.declared.notes.Notes.{Notes as NotesOf};
ghost use Rattle.m2_base.specs.declared.sites.Site.{Site as SiteOf};
ghost use Rattle.block_code.specs.Cases.{no_case as spec_none};
ghost use Rattle.expr_sem.specs.Fragments.{AreSound};
ghost use Rattle.expr_sem.specs.declared.fragments.Node.{Node};
ghost use Rattle.stmt_sem.specs.FlowTrees.{flow_in};
ghost use Rattle.block_code.specs.Flows.{straight};
ghost use Rattle.stmt_sem.specs.Flowings.{Flowing, IsFlow};
ghost use Rattle.m2_base.specs.Statics.ReadStatements.{IsReadExprOption};
ghost use Rattle.stmt_sem.specs.StatementParts.{form_of};
ghost use Rattle.stmt_sem.specs.Stands.{IsStand, names_of, stand_in};
ghost use Rattle.block_code.specs.Statements.{exit_of, form_flow};
ghost use Rattle.stmt_sem.specs.Walkers.{Keeps, Walks, frame_of, nodes_of};

use crate::assignments::code_unless_bad;
use crate::flow_parts::answered;
use crate::flows::{Code, Flow};
use crate::refusals::noted;
use crate::stands::Stand;
use crate::walker::Walker;
use code_form::Instr;
use expr_sem::{Fragments, Placed};
use m2_base::{Ask, Designator, Diagnostic, Expr, Memory, Notes, Scopes};

/// The trap where no label of a CASE holds.
const NO_CASE: u8 = 8;

impl<S: Scopes> Walker<'_, S> {
    /// An assignment.
    pub(crate) fn assign_statement(
        &mut self,
        stand: &Stand,
        to: &Designator,
        value: &Expr,
    ) -> Result<Ask<Flow>, Memory>
        requires stand { IsStand (frame_of S.state self.old) stand.now }
        requires sound { AreSound (nodes_of self.old) }
        requires to { IsReadDesignator (names_of stand.now) (designator_view to.now) }
        requires value { IsReadExpr (names_of stand.now) (expr_view value.now) }
        ensures keeps { Keeps self.old self.new }
        ensures walks { Walks S.state self.old self.new stand.now result IsFlow flow_in
            (λ s. form_of s (assign_form (designator_view to.now) (expr_view value.now))) }
    {
        let variable = analysed!(self.variable(stand, to));
        let coded = analysed!(self.value_of(stand, value));
        let x = Placed {
            at: value.at,
            coded,
        };
        let code = analysed!(self.assignment(stand, variable, x));
        answered(Flow::straight(Code::Fixed(code), self.fragments))
    }

    /// A call.
    pub(crate) fn called_statement(
        &mut self,
        stand: &Stand,
        to: &Designator,
        args: &[Expr],
    ) -> Result<Ask<Flow>, Memory>
        requires stand { IsStand (frame_of S.state self.old) stand.now }
        requires sound { AreSound (nodes_of self.old) }
        requires to { IsReadDesignator (names_of stand.now) (designator_view to.now) }
        requires args { AreReadExprs (names_of stand.now) (exprs (map expr_view args.now)) }
        ensures keeps { Keeps self.old self.new }
        ensures walks { Walks S.state self.old self.new stand.now result IsFlow flow_in
            (λ s. form_of s (spec_call (designator_view to.now) (exprs (map expr_view args.now)))) }
    {
        let x = analysed!(self.call_alone(stand, to, args));
        let code = code_unless_bad(x);
        answered(Flow::straight(Code::Fixed(code), self.fragments))
    }

    /// RETURN.
    pub(crate) fn return_statement(
        &mut self,
        stand: &Stand,
        at: u32,
        value: &Option<Expr>,
    ) -> Result<Ask<Flow>, Memory>
        requires stand { IsStand (frame_of S.state self.old) stand.now }
        requires sound { AreSound (nodes_of self.old) }
        requires value { IsReadExprOption (names_of stand.now) (option_map expr_view value.now) }
        ensures keeps { Keeps self.old self.new }
        ensures walks { Walks S.state self.old self.new stand.now result IsFlow flow_in
            (λ s. form_flow s at (return_form (option_map expr_view value.now))) }
    {
        let code = analysed!(self.returned(stand, at, value));
        answered(Flow::straight(Code::Fixed(code), self.fragments))
    }
}

/// EXIT, which stands within a LOOP.
pub fn exit_statement(stand: &Stand, at: u32, notes: &mut Notes) -> Result<Ask<Flow>, Memory>
    ensures { (state : State) (nodes : List Node) → Flowing state state notes.old notes.new nodes nodes
        stand.now.site.now result IsFlow flow_in (λ c. exit_of (stand_in c stand.now) at) }
{
    if stand.looped {
        return Ok(Ask::Known(Flow::exit()));
    }
    noted(stand.site, at, Diagnostic::ExitOutsideLoop, notes)?;
    Ok(Ask::Known(Flow::nothing()))
}

/// What stands where no label of a CASE holds and there is no ELSE.
pub fn no_case_else(fragments: &mut Fragments) -> Result<Ask<Flow>, Memory>
    requires sound { AreSound fragments.old.nodes.items }
    ensures { (state : State) (notes : NotesOf) (s : SiteOf) → Flowing state state notes notes
        fragments.old.nodes.items fragments.new.nodes.items s result IsFlow flow_in (λ c. gives (straight spec_none)) }
{
    let trap = fragments.one(Instr::Trap(NO_CASE))?;
    answered(Flow::straight(Code::Fixed(trap), fragments))
}
