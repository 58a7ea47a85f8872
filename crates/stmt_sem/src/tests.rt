//! The tests of IF, WHILE and REPEAT.
ghost use Rattle.std.specs.Prelude.{◌≡◌};
ghost use Rattle.m2_base.specs.States.{Waits};
ghost use Rattle.m2_base.specs.Statics.Operations.{is_boolean as spec_boolean};
ghost use Rattle.m2_base.specs.Statics.ReadTrees.{IsReadExpr};
ghost use Rattle.m2_base.specs.Views.{expr_view};
ghost use Rattle.const_eval.specs.Sites.{IsOperand};
ghost use Rattle.expr_sem.specs.Codings.{IsFragment};
ghost use Rattle.expr_sem.specs.Fragments.{IsMade, part};
ghost use Rattle.type_rules.specs.Asks.{Reads, WhereKnown, WhereWaiting};
ghost use Rattle.type_rules.specs.Scenes.{WhereTold};
ghost use Rattle.type_rules.specs.Sites.{SuitsSite, context_of};
ghost use Rattle.stmt_sem.specs.Stands.{IsStand, names_of};
ghost use Rattle.block_code.specs.Statements.{test as spec_test};
ghost use Rattle.block_code.specs.Tests.{false_code as spec_false};
ghost use Rattle.stmt_sem.specs.Walkers.{Codes, Keeps, frame_of};

use crate::refusals::noted;
use crate::stands::Stand;
use crate::walker::Walker;
use code_form::Instr;
use const_eval::is_bad;
use expr_sem::{Fragment, Fragments, answered, value_code};
use m2_base::{Ask, Diagnostic, Expr, Memory, Operand, Scopes, Site};
use type_rules::{BOOLEAN, base_of, operand_type};

/// FALSE.
pub fn false_code(fragments: &mut Fragments) -> Result<Fragment, Memory>
    ensures { IsMade fragments.old.nodes.items fragments.new.nodes.items result spec_false }
{
    fragments.one(Instr::Push(0))
}

/// Whether an operand is a BOOLEAN.
#[tactic(auto, using(type_rules::proofs::Reading::reading, const_eval::proofs::TypesThere::there))]
fn is_boolean<S: Scopes>(scopes: &mut S, site: &Site, operand: Operand) -> Ask<bool>
    requires suits { SuitsSite (S.state scopes.old).frame site.now }
    requires operand { IsOperand (S.state scopes.old).frame operand }
    ensures reads { Reads (S.state scopes.old) (S.state scopes.new) }
    ensures waits { WhereWaiting result (λ head. Waits (S.state scopes.old) (S.state scopes.new) head) }
    ensures told { WhereTold (S.state scopes.old).frame (λ made.
        WhereKnown result
        (λ holds. holds ≡ spec_boolean (context_of (S.state scopes.old).frame made site.now) operand)) }
{
    let base = known!(base_of(scopes, site.around, operand_type(&operand)));
    Ask::Known(base == BOOLEAN)
}

impl<S: Scopes> Walker<'_, S> {
    /// The code of a test. One that is no BOOLEAN is refused, and stands as FALSE, as does one in error.
    pub(crate) fn test(&mut self, stand: &Stand, e: &Expr) -> Result<Ask<Fragment>, Memory>
        requires stand { IsStand (frame_of S.state self.old) stand.now }
        requires e { IsReadExpr (names_of stand.now) (expr_view e.now) }
        ensures keeps { Keeps self.old self.new }
        ensures codes { Codes S.state self.old self.new stand.now result IsFragment part
            (λ s. spec_test s (expr_view e.now)) }
    {
        let x = analysed!(self.value_of(stand, e));
        if is_bad(x.operand) {
            return answered(false_code(self.fragments));
        }
        let boolean = asked!(is_boolean(self.scopes, stand.site, x.operand));
        if boolean {
            return value_code(self.scopes, stand.site, x, self.fragments);
        }
        noted(stand.site, e.at, Diagnostic::NotBoolean, self.notes)?;
        answered(false_code(self.fragments))
    }
}
