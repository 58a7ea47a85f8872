//! What becomes of a value for a variable of a type.
ghost use Rattle.std.specs.Prelude.{◌≡◌};
ghost use Rattle.m2_base.specs.States.{Waits};
ghost use Rattle.m2_base.specs.Statics.Assignable.{taken_into as spec_taken_into};
ghost use Rattle.const_eval.specs.Sites.{IsOperand};
ghost use Rattle.expr_sem.specs.Takings.{IsTaking, taking as spec_taking};
ghost use Rattle.block_code.specs.Values.{is_passed_over as spec_passed_over};
ghost use Rattle.type_rules.specs.Asks.{Reads, WhereKnown, WhereWaiting};
ghost use Rattle.type_rules.specs.Scenes.{IsThere, Suits, WhereTold, scene_of};
ghost use Rattle.type_rules.specs.Sites.{SuitsSite, context_of};

use const_eval::{char_of_string, is_bad, is_broken};
use m2_base::{Around, Ask, Operand, Place, RowMeaning, Scopes, Site};
use type_rules::{CHARACTER, assignable, base_of, is_one_char, is_string, stand};

/// What becomes of a value for a variable.
#[derive(Clone, Copy)]
pub enum Taking {
    /// Nothing is said of it, and it is in error.
    PassedOver,
    /// It isn't assignable.
    Refused,
    /// It is taken as this.
    Taken(Operand),
}

/// Whether nothing is said of a value for a variable of a type: one of them is in error, or the value is a string and
/// the variable's index type or element type is.
#[tactic(auto, using(type_rules::proofs::Reading::reading))]
fn is_passed_over<S: Scopes>(
    scopes: &mut S,
    around: &Around,
    to: Place,
    operand: Operand,
) -> Ask<bool>
    requires suits { Suits (S.state scopes.old).frame around.now }
    requires to { IsThere (S.state scopes.old).frame to }
    ensures reads { Reads (S.state scopes.old) (S.state scopes.new) }
    ensures waits { WhereWaiting result (λ head. Waits (S.state scopes.old) (S.state scopes.new) head) }
    ensures told { WhereTold (S.state scopes.old).frame (λ made.
        WhereKnown result
        (λ holds. holds ≡ spec_passed_over (scene_of (S.state scopes.old).frame made around.now) to operand)) }
{
    if is_bad(operand) {
        return Ask::Known(true);
    }
    if known!(is_broken(scopes, around, to)) {
        return Ask::Known(true);
    }
    if !is_string(&operand) {
        return Ask::Known(false);
    }
    let (_, meaning) = known!(stand(scopes, around, to));
    match meaning {
        RowMeaning::Array(index, element, _) => {
            if known!(is_broken(scopes, around, index)) {
                return Ask::Known(true);
            }
            is_broken(scopes, around, element)
        }
        _ => Ask::Known(false),
    }
}

/// A value as a variable of a type takes it: a string of one character for a CHAR is a CHAR.
#[tactic(auto, using(type_rules::proofs::Reading::reading, const_eval::proofs::TypesThere::there))]
fn taken_into<S: Scopes>(scopes: &mut S, site: &Site, to: Place, operand: Operand) -> Ask<Operand>
    requires suits { SuitsSite (S.state scopes.old).frame site.now }
    requires to { IsThere (S.state scopes.old).frame to }
    requires operand { IsOperand (S.state scopes.old).frame operand }
    ensures reads { Reads (S.state scopes.old) (S.state scopes.new) }
    ensures waits { WhereWaiting result (λ head. Waits (S.state scopes.old) (S.state scopes.new) head) }
    ensures told { WhereTold (S.state scopes.old).frame (λ made.
        WhereKnown result (λ given. let c = context_of (S.state scopes.old).frame made site.now in
        given ≡ spec_taken_into c.source c.scene to operand)) }
    ensures there { WhereKnown result (λ given. IsOperand (S.state scopes.old).frame given) }
{
    if !is_one_char(&operand) {
        return Ask::Known(operand);
    }
    let base = known!(base_of(scopes, site.around, to));
    if base == CHARACTER {
        Ask::Known(char_of_string(site, operand))
    } else {
        Ask::Known(operand)
    }
}

/// What becomes of a value for a variable of a type.
#[tactic(auto, using(type_rules::proofs::Reading::reading, const_eval::proofs::TypesThere::there))]
pub fn taking_of<S: Scopes>(scopes: &mut S, site: &Site, to: Place, operand: Operand) -> Ask<Taking>
    requires suits { SuitsSite (S.state scopes.old).frame site.now }
    requires to { IsThere (S.state scopes.old).frame to }
    requires operand { IsOperand (S.state scopes.old).frame operand }
    ensures reads { Reads (S.state scopes.old) (S.state scopes.new) }
    ensures waits { WhereWaiting result (λ head. Waits (S.state scopes.old) (S.state scopes.new) head) }
    ensures told { WhereTold (S.state scopes.old).frame (λ made.
        WhereKnown result
        (λ given. given ≡ spec_taking (context_of (S.state scopes.old).frame made site.now) to operand)) }
    ensures there { WhereKnown result (λ given. IsTaking (S.state scopes.old).frame given) }
{
    if known!(is_passed_over(scopes, site.around, to, operand)) {
        return Ask::Known(Taking::PassedOver);
    }
    if !known!(assignable(scopes, site.around, to, &operand)) {
        return Ask::Known(Taking::Refused);
    }
    let taken = known!(taken_into(scopes, site, to, operand));
    Ask::Known(Taking::Taken(taken))
}
