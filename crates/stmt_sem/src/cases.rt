//! The selector of a CASE, and its end where no label holds.
ghost use Rattle.std.specs.Prelude.{List};
ghost use Rattle.m2_base.specs.Gives.{gives};
ghost use Rattle.m2_base.specs.declared.notes.Notes.{Notes as NotesOf};
ghost use Rattle.const_eval.specs.Sites.{IsOperand};
ghost use Rattle.expr_sem.specs.Codings.{Coding, IsCoded, IsFragment, coded_in};
ghost use Rattle.expr_sem.specs.Fragments.{part};
ghost use Rattle.expr_sem.specs.declared.fragments.Node.{Node};
ghost use Rattle.type_rules.specs.Sites.{SuitsSite};
ghost use Rattle.block_code.specs.Cases.{selector_type as spec_type, selector_value as spec_value};
ghost use Rattle.stmt_sem.specs.Plain.{IsType, itself};

use crate::refusals::noted;
use crate::tests::false_code;
use const_eval::{is_bad, is_ordinal};
use expr_sem::{Coded, Fragment, Fragments, answered, value_code};
use m2_base::{Ask, Diagnostic, Memory, Notes, Place, Scopes, Site};
use type_rules::{BROKEN, operand_type};

/// The value of a selector, and its type.
#[derive(Clone, Copy)]
pub struct Selected {
    pub value: Fragment,
    pub of: Place,
}

/// The type of the selector, which is ordinal. `at` is its first token.
pub fn selector_type<S: Scopes>(
    scopes: &mut S,
    site: &Site,
    at: u32,
    x: Coded,
    notes: &mut Notes,
) -> Result<Ask<Place>, Memory>
    requires suits { SuitsSite (S.state scopes.old).frame site.now }
    requires x { IsOperand (S.state scopes.old).frame x.operand }
    ensures { (nodes : List Node) → Coding (S.state scopes.old) (S.state scopes.new) notes.old notes.new nodes nodes
        site.now result IsType itself (λ c. spec_type c at (coded_in nodes x)) }
{
    if is_bad(x.operand) {
        return Ok(Ask::Known(BROKEN));
    }
    let holds = asked!(is_ordinal(scopes, site, x.operand));
    if holds {
        return Ok(Ask::Known(operand_type(&x.operand)));
    }
    noted(site, at, Diagnostic::WrongOperands, notes)?;
    Ok(Ask::Known(BROKEN))
}

/// The selector's value; one in error stands as 0.
pub fn selector_value<S: Scopes>(
    scopes: &mut S,
    site: &Site,
    x: Coded,
    fragments: &mut Fragments,
) -> Result<Ask<Fragment>, Memory>
    requires suits { SuitsSite (S.state scopes.old).frame site.now }
    requires x { IsCoded (S.state scopes.old).frame fragments.old.nodes.items x }
    ensures { (notes : NotesOf) → Coding (S.state scopes.old) (S.state scopes.new) notes notes
        fragments.old.nodes.items fragments.new.nodes.items site.now result IsFragment part
        (λ c. gives (spec_value c (coded_in fragments.old.nodes.items x))) }
{
    if is_bad(x.operand) {
        return answered(false_code(fragments));
    }
    value_code(scopes, site, x, fragments)
}
