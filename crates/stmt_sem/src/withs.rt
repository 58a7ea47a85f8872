//! The variable of a WITH.
ghost use Rattle.std.specs.Prelude.{List};
ghost use Rattle.const_eval.specs.Sites.{IsOperand};
ghost use Rattle.expr_sem.specs.Codings.{Coding, IsCoded, coded_in};
ghost use Rattle.expr_sem.specs.declared.fragments.Node.{Node};
ghost use Rattle.type_rules.specs.Sites.{SuitsSite};
ghost use Rattle.block_code.specs.Withs.{record_variable as spec_variable};

use const_eval::is_bad;
use expr_sem::{Coded, refused};
use m2_base::{Ask, Diagnostic, Memory, Notes, RowMeaning, Scopes, Site};
use type_rules::{operand_type, stand};

/// The variable of a WITH, which is a record. `at` is its first token.
pub fn record_variable<S: Scopes>(
    scopes: &mut S,
    site: &Site,
    at: u32,
    x: Coded,
    notes: &mut Notes,
) -> Result<Ask<Coded>, Memory>
    requires suits { SuitsSite (S.state scopes.old).frame site.now }
    requires x { IsOperand (S.state scopes.old).frame x.operand }
    ensures { (nodes : List Node) → IsCoded (S.state scopes.old).frame nodes x
        → Coding (S.state scopes.old) (S.state scopes.new) notes.old notes.new nodes nodes site.now result IsCoded
        coded_in (λ c. spec_variable c at (coded_in nodes x)) }
{
    if is_bad(x.operand) {
        return Ok(Ask::Known(x));
    }
    let (_, meaning) = asked!(stand(scopes, site.around, operand_type(&x.operand)));
    match meaning {
        RowMeaning::Record(..) => Ok(Ask::Known(x)),
        _ => refused(site, at, Diagnostic::NotARecord, notes),
    }
}
