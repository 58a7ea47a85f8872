//! Whether an element is in a set.
ghost use Rattle.std.specs.Prelude.{◌≡◌, ◌&&◌, IfOk, if◌then◌else◌, Some, None};
ghost use Rattle.std.specs.Option.{IfSome};
ghost use Rattle.m2_base.specs.States.{Waits};
ghost use Rattle.m2_base.specs.Statics.Compatible.{is_compatible, taken_beside as spec_taken};
ghost use Rattle.m2_base.specs.Statics.Operands.{operand_type as spec_operand_type};
ghost use Rattle.m2_base.specs.Statics.Operations.{is_ordinal as spec_ordinal, membership as spec_membership};
ghost use Rattle.m2_base.specs.Statics.Types.{base_of as spec_base, kind_of};
ghost use Rattle.const_eval.specs.Judgements.{judged};
ghost use Rattle.const_eval.specs.Sites.{IsOperand};
ghost use Rattle.type_rules.specs.Asks.{Reads, WhereKnown, WhereWaiting};
ghost use Rattle.type_rules.specs.Scenes.{IsThere, WhereTold};
ghost use Rattle.type_rules.specs.Sites.{SuitsSite, context_of};

use crate::faults::Fault;
use crate::numbers::member_of_set;
use crate::operands::Argument;
use crate::pairs::{as_number, is_ordinal, taken_beside};
use crate::structures::set_row;
use m2_base::{Ask, Diagnostic, Operand, Place, Scopes, Site};
use type_rules::{BROKEN, base_by, base_of, compatible_with, operand_type, stand};

/// An operand as it is taken beside a set's base, where it is compatible with that and ordinal.
/// `whole` is the base of that base.
#[tactic(auto, using(type_rules::proofs::Reading::reading, crate::proofs::TypesThere::there))]
fn ordinal_element<S: Scopes>(
    scopes: &mut S,
    site: &Site,
    x: Operand,
    base: Place,
    whole: Place,
) -> Ask<Option<Operand>>
    requires suits { SuitsSite (S.state scopes.old).frame site.now }
    requires x { IsOperand (S.state scopes.old).frame x }
    requires whole { IsThere (S.state scopes.old).frame whole }
    ensures reads { Reads (S.state scopes.old) (S.state scopes.new) }
    ensures waits { WhereWaiting result (λ head. Waits (S.state scopes.old) (S.state scopes.new) head) }
    ensures told { WhereTold (S.state scopes.old).frame (λ made.
        WhereKnown result (λ given. let c = context_of (S.state scopes.old).frame made site.now in whole
        ≡ spec_base c.scene base → given ≡ (let element = spec_taken c.source c.scene x (Operand.Computed base) in
        if is_compatible c.scene x (Operand.Computed base) && spec_ordinal c element then Some element else None))) }
    ensures there { WhereKnown result
        (λ given. IfSome given (λ element. IsOperand (S.state scopes.old).frame element)) }
{
    let around = site.around;
    let beside = Operand::Computed(base);
    let own = known!(base_of(scopes, around, operand_type(&x)));
    if !known!(compatible_with(scopes, around, &x, own, &beside, whole)) {
        return Ask::Known(None);
    }
    let texts = site.texts;
    let element = taken_beside(&texts.names, x, &beside, whole);
    if known!(is_ordinal(scopes, site, element)) {
        Ask::Known(Some(element))
    } else {
        Ask::Known(None)
    }
}

/// IN: the right operand is a set, the left one an ordinal that is compatible with the set's base. What that stands for
/// is asked once.
#[tactic(auto, using(type_rules::proofs::Reading::reading, crate::proofs::TypesThere::there))]
pub(crate) fn membership<S: Scopes>(
    scopes: &mut S,
    site: &Site,
    operator_at: u32,
    x: Argument,
    y: Operand,
) -> Ask<Result<Operand, Fault>>
    requires suits { SuitsSite (S.state scopes.old).frame site.now }
    requires x { IsOperand (S.state scopes.old).frame x.operand }
    requires y { IsOperand (S.state scopes.old).frame y }
    ensures reads { Reads (S.state scopes.old) (S.state scopes.new) }
    ensures waits { WhereWaiting result (λ head. Waits (S.state scopes.old) (S.state scopes.new) head) }
    ensures told { WhereTold (S.state scopes.old).frame (λ made.
        WhereKnown result (λ given. let c = context_of (S.state scopes.old).frame made site.now in
        judged c given ≡ spec_membership c operator_at x.operand x.at y (kind_of c.scene (spec_operand_type y)))) }
    ensures there { WhereKnown result (λ given. IfOk given (λ operand. IsOperand (S.state scopes.old).frame operand)) }
{
    let Some((_, base)) = known!(set_row(scopes, site.around, operand_type(&y))) else {
        return Ask::Known(fault!(operator_at, WrongOperands));
    };
    let (stood, meaning) = known!(stand(scopes, site.around, base));
    if stood == BROKEN {
        return Ask::Known(Ok(Operand::InError));
    }
    let whole = base_by(stood, meaning);
    let Some(element) = known!(ordinal_element(scopes, site, x.operand, base, whole)) else {
        return Ask::Known(fault!(operator_at, WrongOperands));
    };
    match as_number(x.at, whole, element) {
        Ok(element) => Ask::Known(Ok(member_of_set(element, y))),
        Err(fault) => Ask::Known(Err(fault)),
    }
}
