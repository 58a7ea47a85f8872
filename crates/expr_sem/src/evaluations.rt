//! The code of a value, or of an address, appended to a piece of a block's code.
ghost use Rattle.m2_base.specs.Statics.ReadTrees.{IsReadDesignator, IsReadExpr};
ghost use Rattle.m2_base.specs.Views.{designator_view, expr_view};
ghost use Rattle.expr_sem.specs.Coders.{Keeps, SeesWiths, SuitsPlace, names_of, nodes_of};
ghost use Rattle.block_code.specs.Coded.{value_code as spec_code};
ghost use Rattle.expr_sem.specs.Codings.{with_types};
ghost use Rattle.expr_sem.specs.Evaluations.{Evaluates};
ghost use Rattle.block_code.specs.Expressions.{designated as spec_designated, value as spec_value};
ghost use Rattle.expr_sem.specs.Fragments.{AreSound};

use crate::coder::Coder;
use crate::pieces::{Piece, append};
use crate::values::value_code;
use m2_base::{Ask, Designator, Expr, Memory, Operand, Scopes};

impl<S: Scopes> Coder<'_, '_, S> {
    /// The code of an expression's value is appended to a piece of a block's code, and its operand is what comes out:
    /// none where the expression is in error, and then the piece is as it was. Where the answer isn't known yet, and
    /// where memory is wanted, the piece has what it had before. Fragments that are `sound` know the lengths of their
    /// codes, as those of a new `Fragments` do and all that are made of them.
    pub fn value(&mut self, e: &Expr, piece: &mut Piece) -> Result<Ask<Option<Operand>>, Memory>
        requires suits { SuitsPlace S.state self.old }
        requires withs { SeesWiths S.state self.old }
        requires sound { AreSound (nodes_of self.old) }
        requires read { IsReadExpr (names_of self.old) (expr_view e.now) }
        ensures keeps { Keeps self.old self.new }
        ensures codes { Evaluates (S.state self.old.scopes.now) (S.state self.new.scopes.now) self.old.notes.now
            self.new.notes.now piece.old piece.new self.old.withs.now self.old.site.now result (λ c x. spec_code c x)
            (λ c. spec_value c (with_types self.old.withs.now) (expr_view e.now)) }
    {
        let x = analysed!(self.value_of(e));
        if let Operand::InError = x.operand {
            return Ok(Ask::Known(None));
        }
        let code = analysed!(value_code(self.scopes, self.site, x, self.fragments));
        append(self.fragments, code, self.withs, piece)?;
        Ok(Ask::Known(Some(x.operand)))
    }

    /// The code of what a designator stands for is appended to a piece of a block's code: of a variable it gives the
    /// address. The operand is what comes out, as of `value`.
    pub fn address(
        &mut self,
        of: &Designator,
        piece: &mut Piece,
    ) -> Result<Ask<Option<Operand>>, Memory>
        requires suits { SuitsPlace S.state self.old }
        requires withs { SeesWiths S.state self.old }
        requires sound { AreSound (nodes_of self.old) }
        requires read { IsReadDesignator (names_of self.old) (designator_view of.now) }
        ensures keeps { Keeps self.old self.new }
        ensures codes { Evaluates (S.state self.old.scopes.now) (S.state self.new.scopes.now) self.old.notes.now
            self.new.notes.now piece.old piece.new self.old.withs.now self.old.site.now result (λ c x. x.code)
            (λ c. spec_designated c (with_types self.old.withs.now) (designator_view of.now)) }
    {
        let x = analysed!(self.designated(of));
        if let Operand::InError = x.operand {
            return Ok(Ask::Known(None));
        }
        append(self.fragments, x.code, self.withs, piece)?;
        Ok(Ask::Known(Some(x.operand)))
    }
}
