//! Arguments of standard procedures that must be variables.
ghost use Rattle.std.specs.Prelude.{◌≡◌, List};
ghost use Rattle.m2_base.specs.States.{State, Waits};
ghost use Rattle.expr_sem.specs.Codings.{Coding, IsCoded, coded_in};
ghost use Rattle.block_code.specs.StandardFunctions.{as_variable as spec_variable};
ghost use Rattle.block_code.specs.StandardProcedures.{variable_argument as spec_argument};
ghost use Rattle.expr_sem.specs.VariableArguments.{is_wanted as spec_wanted};
ghost use Rattle.expr_sem.specs.declared.fragments.Node.{Node};
ghost use Rattle.type_rules.specs.Asks.{Reads, WhereKnown, WhereWaiting};
ghost use Rattle.type_rules.specs.Scenes.{IsThere, WhereTold};
ghost use Rattle.type_rules.specs.Sites.{SuitsSite, context_of};

use crate::coded::{Coded, Placed};
use crate::refusals::refused;
use const_eval::is_bad;
use m2_base::{Ask, Diagnostic, Memory, Notes, Operand, Place, RowMeaning, Scopes, Site};
use type_rules::{operand_type, range_of, stand};

/// Which type a variable is to have.
#[derive(Clone, Copy)]
pub enum Wanted {
    Ordinal,
    Set,
    Pointer,
}

/// What must be a variable, as the left side of an assignment or an argument of INC. It is given as it is; what is in
/// error stays so, and anything else is refused at its first token `at`. It never waits.
pub fn as_variable(site: &Site, at: u32, x: Coded, notes: &mut Notes) -> Result<Ask<Coded>, Memory>
    ensures { (state : State) (nodes : List Node) → IsCoded state.frame nodes x → Coding state state notes.old
        notes.new nodes nodes site.now result IsCoded coded_in (λ c. spec_variable c at (coded_in nodes x)) }
{
    match x.operand {
        Operand::Variable(_) => Ok(Ask::Known(x)),
        Operand::InError => Ok(Ask::Known(Coded::in_error())),
        Operand::NotConstant => Ok(Ask::Known(Coded::in_error())),
        _ => refused(site, at, Diagnostic::NotAVariable, notes),
    }
}

/// Whether a type is as wanted.
#[tactic(auto, using(type_rules::proofs::Reading::reading))]
fn is_wanted<S: Scopes>(scopes: &mut S, site: &Site, wanted: Wanted, of: Place) -> Ask<bool>
    requires suits { SuitsSite (S.state scopes.old).frame site.now }
    requires of { IsThere (S.state scopes.old).frame of }
    ensures reads { Reads (S.state scopes.old) (S.state scopes.new) }
    ensures waits { WhereWaiting result (λ head. Waits (S.state scopes.old) (S.state scopes.new) head) }
    ensures told { WhereTold (S.state scopes.old).frame (λ made.
        WhereKnown result
        (λ holds. holds ≡ spec_wanted (context_of (S.state scopes.old).frame made site.now).scene wanted of)) }
{
    match wanted {
        Wanted::Ordinal => Ask::Known(known!(range_of(scopes, site.around, of)).is_some()),
        Wanted::Set => {
            let (_, kind) = known!(stand(scopes, site.around, of));
            Ask::Known(matches!(kind, RowMeaning::Set(_)))
        }
        Wanted::Pointer => {
            let (_, kind) = known!(stand(scopes, site.around, of));
            Ask::Known(matches!(kind, RowMeaning::Pointer(_)))
        }
    }
}

/// An argument that must be a variable whose type is as wanted.
pub fn variable_argument<S: Scopes>(
    scopes: &mut S,
    site: &Site,
    wanted: Wanted,
    x: Placed,
    notes: &mut Notes,
) -> Result<Ask<Coded>, Memory>
    requires suits { SuitsSite (S.state scopes.old).frame site.now }
    requires x { (nodes : List Node) × IsCoded (S.state scopes.old).frame nodes x.coded }
    ensures { (nodes : List Node) → IsCoded (S.state scopes.old).frame nodes x.coded
        → Coding (S.state scopes.old) (S.state scopes.new) notes.old notes.new nodes nodes site.now result IsCoded
        coded_in (λ c. spec_argument c x.at (spec_wanted c.scene wanted) (coded_in nodes x.coded)) }
{
    let v = analysed!(as_variable(site, x.at, x.coded, notes));
    if is_bad(v.operand) {
        return Ok(Ask::Known(v));
    }
    if asked!(is_wanted(scopes, site, wanted, operand_type(&v.operand))) {
        return Ok(Ask::Known(v));
    }
    refused(site, x.at, Diagnostic::WrongArgument, notes)
}
