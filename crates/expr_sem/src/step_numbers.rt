//! The number by which INC or DEC changes a variable.
ghost use Rattle.std.specs.Prelude.{◌≡◌, List};
ghost use Rattle.m2_base.specs.Rows.{is_same_place};
ghost use Rattle.m2_base.specs.States.{Waits};
ghost use Rattle.m2_base.specs.Statics.Types.{base_of as spec_base};
ghost use Rattle.const_eval.specs.Sites.{IsOperand};
ghost use Rattle.expr_sem.specs.Codings.{Coding, IsCoded, coded_in};
ghost use Rattle.block_code.specs.StandardProcedures.{is_step as spec_is_step, step_number as spec_step_number};
ghost use Rattle.expr_sem.specs.declared.fragments.Node.{Node};
ghost use Rattle.type_rules.specs.Asks.{Reads, WhereKnown, WhereWaiting};
ghost use Rattle.type_rules.specs.Scenes.{IsThere, Suits, WhereTold, scene_of};
ghost use Rattle.type_rules.specs.Sites.{SuitsSite, context_of};

use crate::coded::{Coded, Placed};
use crate::refusals::refused;
use crate::updates::either_bad;
use crate::values::{as_value, in_range};
use m2_base::{Around, Ask, Diagnostic, Memory, Notes, Operand, Place, Scopes, Site};
use type_rules::{CARDINAL, WHOLE, base_of, is_integer_or_cardinal, operand_type};

/// Whether a type has this base.
#[tactic(auto, using(type_rules::proofs::Reading::reading))]
fn has_base<S: Scopes>(scopes: &mut S, around: &Around, of: Place, want: Place) -> Ask<bool>
    requires suits { Suits (S.state scopes.old).frame around.now }
    requires of { IsThere (S.state scopes.old).frame of }
    ensures reads { Reads (S.state scopes.old) (S.state scopes.new) }
    ensures waits { WhereWaiting result (λ head. Waits (S.state scopes.old) (S.state scopes.new) head) }
    ensures told { WhereTold (S.state scopes.old).frame (λ made.
        WhereKnown result
        (λ holds. holds ≡ is_same_place (spec_base (scene_of (S.state scopes.old).frame made around.now) of) want)) }
{
    let base = known!(base_of(scopes, around, of));
    Ask::Known(base == want)
}

/// Whether an operand is a number of this type, or a whole constant.
#[tactic(auto, using(type_rules::proofs::Reading::reading))]
fn is_step<S: Scopes>(scopes: &mut S, site: &Site, want: Place, operand: Operand) -> Ask<bool>
    requires suits { SuitsSite (S.state scopes.old).frame site.now }
    requires operand { IsOperand (S.state scopes.old).frame operand }
    ensures reads { Reads (S.state scopes.old) (S.state scopes.new) }
    ensures waits { WhereWaiting result (λ head. Waits (S.state scopes.old) (S.state scopes.new) head) }
    ensures told { WhereTold (S.state scopes.old).frame (λ made.
        WhereKnown result
        (λ holds. holds ≡ spec_is_step (context_of (S.state scopes.old).frame made site.now).scene want operand)) }
{
    match operand {
        Operand::Constant(of, _) => {
            let holds = known!(has_base(scopes, site.around, of, want));
            Ask::Known(holds || of == WHOLE)
        }
        Operand::Computed(of) => has_base(scopes, site.around, of, want),
        Operand::Variable(of) => has_base(scopes, site.around, of, want),
        _ => Ask::Known(false),
    }
}

/// The number by which a variable is changed: of the variable's base, where that is a type of numbers, or else of
/// CARDINAL; or a whole constant. A constant lies in the range of that type. Where the variable or the number is in
/// error, nothing more is noted, and the number is in error.
pub fn step_number<S: Scopes>(
    scopes: &mut S,
    site: &Site,
    x: Coded,
    n: Placed,
    notes: &mut Notes,
) -> Result<Ask<Coded>, Memory>
    requires suits { SuitsSite (S.state scopes.old).frame site.now }
    requires x { IsOperand (S.state scopes.old).frame x.operand }
    requires n { (nodes : List Node) × IsCoded (S.state scopes.old).frame nodes n.coded }
    ensures { (nodes : List Node) → IsCoded (S.state scopes.old).frame nodes n.coded
        → Coding (S.state scopes.old) (S.state scopes.new) notes.old notes.new nodes nodes site.now result IsCoded
        coded_in (λ c. spec_step_number c (coded_in nodes x) n.at (coded_in nodes n.coded)) }
{
    let v = analysed!(as_value(site, n.at, n.coded, notes));
    if either_bad(x.operand, v.operand) {
        return Ok(Ask::Known(Coded::in_error()));
    }
    let base = asked!(base_of(scopes, site.around, operand_type(&x.operand)));
    let want = if is_integer_or_cardinal(base) {
        base
    } else {
        CARDINAL
    };
    let holds = asked!(is_step(scopes, site, want, v.operand));
    if holds {
        in_range(scopes, site, want, Placed { at: n.at, coded: v }, notes)
    } else {
        refused(site, n.at, Diagnostic::WrongArgument, notes)
    }
}
