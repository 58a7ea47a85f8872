//! What stands in statements, as expr_sem finds it: its coder works on the parts that the walker is lent.
ghost use Rattle.std.specs.Prelude.{map};
ghost use Rattle.m2_base.specs.Diagnostics.{code_of};
ghost use Rattle.m2_base.specs.Statics.ReadTrees.{AreReadExprs, IsReadDesignator, IsReadExpr};
ghost use Rattle.m2_base.specs.Trees.{exprs};
ghost use Rattle.m2_base.specs.Views.{designator_view, expr_view};
ghost use Rattle.type_rules.specs.Scenes.{IsThere};
ghost use Rattle.expr_sem.specs.Codings.{IsCoded, coded_in};
ghost use Rattle.block_code.specs.Expressions.{call_alone as spec_alone, designated as spec_designated};
ghost use Rattle.block_code.specs.Values.{assigned_to as spec_assigned};
ghost use Rattle.stmt_sem.specs.Stands.{IsStand, names_of};
ghost use Rattle.block_code.specs.Statements.{value_at};
ghost use Rattle.stmt_sem.specs.Walkers.{Codes, Keeps, frame_of, nodes_of};

use crate::stands::Stand;
use crate::walker::Walker;
use expr_sem::{Coded, Coder, Placed};
use m2_base::{Ask, Designator, Diagnostic, Expr, Memory, Place, Scopes};

/// A coder that is lent what a walker is lent, at a stand.
macro_rules! coder_at {
    ($walker:expr, $stand:expr) => {
        Coder {
            scopes: $walker.scopes,
            site: $stand.site,
            withs: $stand.withs,
            fragments: $walker.fragments,
            notes: $walker.notes,
        }
    };
}

impl<S: Scopes> Walker<'_, S> {
    /// What a designator stands for.
    pub(crate) fn designated(
        &mut self,
        stand: &Stand,
        of: &Designator,
    ) -> Result<Ask<Coded>, Memory>
        requires stand { IsStand (frame_of S.state self.old) stand.now }
        requires of { IsReadDesignator (names_of stand.now) (designator_view of.now) }
        ensures keeps { Keeps self.old self.new }
        ensures codes { Codes S.state self.old self.new stand.now result IsCoded coded_in
            (λ s. spec_designated s.context s.withs (designator_view of.now)) }
    {
        coder_at!(self, stand).designated(of)
    }

    /// What an expression stands for where a value is wanted.
    pub(crate) fn value_of(&mut self, stand: &Stand, e: &Expr) -> Result<Ask<Coded>, Memory>
        requires stand { IsStand (frame_of S.state self.old) stand.now }
        requires e { IsReadExpr (names_of stand.now) (expr_view e.now) }
        ensures keeps { Keeps self.old self.new }
        ensures codes { Codes S.state self.old self.new stand.now result IsCoded coded_in
            (λ s. value_at s (expr_view e.now)) }
    {
        coder_at!(self, stand).value_of(e)
    }

    /// A call that stands as a statement.
    pub(crate) fn call_alone(
        &mut self,
        stand: &Stand,
        to: &Designator,
        args: &[Expr],
    ) -> Result<Ask<Coded>, Memory>
        requires stand { IsStand (frame_of S.state self.old) stand.now }
        requires to { IsReadDesignator (names_of stand.now) (designator_view to.now) }
        requires args { AreReadExprs (names_of stand.now) (exprs (map expr_view args.now)) }
        ensures keeps { Keeps self.old self.new }
        ensures codes { Codes S.state self.old self.new stand.now result IsCoded coded_in
            (λ s. spec_alone s.context s.withs (designator_view to.now) (exprs (map expr_view args.now))) }
    {
        coder_at!(self, stand).call_alone(to, args)
    }

    /// A value that a variable of a type takes, as it is taken, or else is refused with this diagnostic.
    pub(crate) fn assigned_to(
        &mut self,
        stand: &Stand,
        to: Place,
        refusal: Diagnostic,
        x: Placed,
    ) -> Result<Ask<Coded>, Memory>
        requires stand { IsStand (frame_of S.state self.old) stand.now }
        requires to { IsThere (frame_of S.state self.old) to }
        requires x { IsCoded (frame_of S.state self.old) (nodes_of self.old) x.coded }
        ensures keeps { Keeps self.old self.new }
        ensures codes { Codes S.state self.old self.new stand.now result IsCoded coded_in
            (λ s. spec_assigned s.context to x.at (code_of refusal) (coded_in (nodes_of self.old) x.coded)) }
    {
        coder_at!(self, stand).assigned_to(to, refusal, x)
    }
}
