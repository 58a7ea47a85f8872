//! Parts of code that statements have of their own: variables, values of RETURN, selectors and the variables of WITHs.
ghost use Rattle.std.specs.Prelude.{option_map};
ghost use Rattle.m2_base.specs.Statics.ReadTrees.{IsReadDesignator, IsReadExpr};
ghost use Rattle.m2_base.specs.Views.{designator_view, expr_view};
ghost use Rattle.expr_sem.specs.Codings.{IsCoded, IsFragment, coded_in};
ghost use Rattle.expr_sem.specs.Fragments.{part};
ghost use Rattle.m2_base.specs.Statics.ReadStatements.{IsReadExprOption};
ghost use Rattle.stmt_sem.specs.Stands.{IsStand, names_of};
ghost use Rattle.stmt_sem.specs.StatementParts.{record_of as spec_record, selector as spec_selector};
ghost use Rattle.block_code.specs.Statements.{return_of, variable as spec_variable};
ghost use Rattle.stmt_sem.specs.Taken.{IsSelector, selector_in};
ghost use Rattle.stmt_sem.specs.Walkers.{Codes, Keeps, frame_of};

use crate::cases::{Selected, selector_type, selector_value};
use crate::returns::return_alone;
use crate::stands::Stand;
use crate::walker::Walker;
use crate::withs::record_variable;
use expr_sem::{Coded, Fragment, Placed, as_variable};
use m2_base::{Ask, Designator, Expr, Memory, Scopes};

impl<S: Scopes> Walker<'_, S> {
    /// A variable.
    pub(crate) fn variable(&mut self, stand: &Stand, of: &Designator) -> Result<Ask<Coded>, Memory>
        requires stand { IsStand (frame_of S.state self.old) stand.now }
        requires of { IsReadDesignator (names_of stand.now) (designator_view of.now) }
        ensures keeps { Keeps self.old self.new }
        ensures codes { Codes S.state self.old self.new stand.now result IsCoded coded_in
            (λ s. spec_variable s (designator_view of.now)) }
    {
        let x = analysed!(self.designated(stand, of));
        as_variable(stand.site, of.first.at, x, self.notes)
    }

    /// RETURN with a value or without.
    pub(crate) fn returned(
        &mut self,
        stand: &Stand,
        at: u32,
        value: &Option<Expr>,
    ) -> Result<Ask<Fragment>, Memory>
        requires stand { IsStand (frame_of S.state self.old) stand.now }
        requires value { IsReadExprOption (names_of stand.now) (option_map expr_view value.now) }
        ensures keeps { Keeps self.old self.new }
        ensures codes { Codes S.state self.old self.new stand.now result IsFragment part
            (λ s. return_of s at (option_map expr_view value.now)) }
    {
        match value {
            None => return_alone(stand.site, at, stand.result, self.fragments, self.notes),
            Some(e) => {
                let coded = analysed!(self.value_of(stand, e));
                let x = Placed { at: e.at, coded };
                self.return_value(stand, at, x)
            }
        }
    }

    /// The value of a selector, and its type.
    pub(crate) fn selector(&mut self, stand: &Stand, e: &Expr) -> Result<Ask<Selected>, Memory>
        requires stand { IsStand (frame_of S.state self.old) stand.now }
        requires e { IsReadExpr (names_of stand.now) (expr_view e.now) }
        ensures keeps { Keeps self.old self.new }
        ensures codes { Codes S.state self.old self.new stand.now result IsSelector selector_in
            (λ s. spec_selector s (expr_view e.now)) }
    {
        let x = analysed!(self.value_of(stand, e));
        let of = analysed!(selector_type(self.scopes, stand.site, e.at, x, self.notes));
        let value = analysed!(selector_value(self.scopes, stand.site, x, self.fragments));
        Ok(Ask::Known(Selected { value, of }))
    }

    /// The variable of a WITH.
    pub(crate) fn record_of(&mut self, stand: &Stand, of: &Designator) -> Result<Ask<Coded>, Memory>
        requires stand { IsStand (frame_of S.state self.old) stand.now }
        requires of { IsReadDesignator (names_of stand.now) (designator_view of.now) }
        ensures keeps { Keeps self.old self.new }
        ensures codes { Codes S.state self.old self.new stand.now result IsCoded coded_in
            (λ s. spec_record s (designator_view of.now)) }
    {
        let x = analysed!(self.variable(stand, of));
        record_variable(self.scopes, stand.site, of.first.at, x, self.notes)
    }
}
