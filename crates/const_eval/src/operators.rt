//! What an operator gives of its operands: which it takes, the type that it gives,
//! and the value where all are constant.
ghost use Rattle.std.specs.Prelude.{◌≡◌, ◌||◌, ◌&&◌, IfOk, is_some};
ghost use Rattle.m2_base.specs.Rows.{is_same_place};
ghost use Rattle.m2_base.specs.Standard.{character};
ghost use Rattle.m2_base.specs.States.{Frame, Waits};
ghost use Rattle.m2_base.specs.Statics.Contexts.{Context};
ghost use Rattle.m2_base.specs.Statics.Compatible.{is_number_type, is_pointer_kind, taken_beside as spec_taken};
ghost use Rattle.m2_base.specs.Statics.Folding.{is_equality as spec_equality, is_relation as spec_relation};
ghost use Rattle.m2_base.specs.Statics.Operations.{apply_one as spec_apply_one, logical as spec_logical};
ghost use Rattle.m2_base.specs.Statics.Operations.{on_numbers as spec_on_numbers, on_scalars as spec_on_scalars};
ghost use Rattle.m2_base.specs.Statics.Operations.{on_alike as spec_on_alike, base_type, is_set_kind};
ghost use Rattle.m2_base.specs.Statics.Operations.{operate as spec_operate};
ghost use Rattle.m2_base.specs.Statics.Types.{range_by as spec_range_by};
ghost use Rattle.m2_base.specs.declared.sites.Around.{Around as Surroundings};
ghost use Rattle.const_eval.specs.Judgements.{judged};
ghost use Rattle.const_eval.specs.Based.{IsBased, IsBasedHere};
ghost use Rattle.const_eval.specs.Sites.{IsNamed, IsOperand};
ghost use Rattle.const_eval.specs.Standard.{HasStandardRows};
ghost use Rattle.type_rules.specs.Asks.{Reads, WhereKnown, WhereWaiting};
ghost use Rattle.type_rules.specs.Scenes.{IsThere, Suits, WhereTold};
ghost use Rattle.type_rules.specs.Sites.{SuitsSite, context_of};

use crate::faults::Fault;
use crate::membership::membership;
use crate::numbers::{applied, combined, number_kind, number_type, set_operation};
use crate::operands::{Argument, PlacedOperator, as_char, is_bad, is_procedure, worse};
use crate::pairs::{as_number, is_beside_char, takes_base};
use m2_base::{
    Ask, Diagnostic, FoldKind, Names, Operand, Operator, Place, RowMeaning, Scopes, Site,
};
use type_rules::{
    BOOLEAN, CHARACTER, WHOLE, base_by, base_of, bases_of, compatible_with, is_integer_or_cardinal,
    is_relation, operand_type, range_by, stand,
};

/// Whether a base is INTEGER, CARDINAL or that of whole constants.
pub(crate) fn is_number(base: Place) -> bool
    ensures { result ≡ is_number_type base }
{
    is_integer_or_cardinal(base) || base == WHOLE
}

/// Judges NOT or a sign before an operand: NOT takes a BOOLEAN, a sign an INTEGER or a whole constant. Any other type
/// is a fault at the operator's token, and so is a value out of range. It waits for the operand's type.
#[tactic(auto, using(type_rules::proofs::Reading::reading, crate::proofs::TypesThere::there))]
pub fn apply_one<S: Scopes>(
    scopes: &mut S,
    site: &Site,
    operator: PlacedOperator,
    operand: Operand,
) -> Ask<Result<Operand, Fault>>
    requires suits { SuitsSite (S.state scopes.old).frame site.now }
    requires operand { IsOperand (S.state scopes.old).frame operand }
    ensures reads { Reads (S.state scopes.old) (S.state scopes.new) }
    ensures waits { WhereWaiting result (λ head. Waits (S.state scopes.old) (S.state scopes.new) head) }
    ensures told { WhereTold (S.state scopes.old).frame (λ made.
        WhereKnown result (λ given. let c = context_of (S.state scopes.old).frame made site.now in
        judged c given ≡ spec_apply_one c operator.operator operator.at operand)) }
    ensures there { WhereKnown result (λ given. IfOk given (λ operand. IsOperand (S.state scopes.old).frame operand)) }
{
    if is_bad(operand) {
        return Ask::Known(Ok(operand));
    }
    let base = known!(base_of(scopes, site.around, operand_type(&operand)));
    Ask::Known(applied(operator, base, operand))
}

/// AND and OR.
#[tactic(auto, using(type_rules::proofs::Reading::reading, crate::proofs::TypesThere::there))]
fn logical<S: Scopes>(
    scopes: &mut S,
    site: &Site,
    operator: PlacedOperator,
    x: Operand,
    y: Operand,
) -> Ask<Result<Operand, Fault>>
    requires suits { SuitsSite (S.state scopes.old).frame site.now }
    requires x { IsOperand (S.state scopes.old).frame x }
    requires y { IsOperand (S.state scopes.old).frame y }
    ensures reads { Reads (S.state scopes.old) (S.state scopes.new) }
    ensures waits { WhereWaiting result (λ head. Waits (S.state scopes.old) (S.state scopes.new) head) }
    ensures told { WhereTold (S.state scopes.old).frame (λ made.
        WhereKnown result (λ given. let c = context_of (S.state scopes.old).frame made site.now in
        judged c given ≡ spec_logical c operator.operator operator.at x y)) }
    ensures there { WhereKnown result (λ given. IfOk given (λ operand. IsOperand (S.state scopes.old).frame operand)) }
{
    let (left, right) = known!(bases_of(scopes, site.around, operand_type(&x), operand_type(&y)));
    if left == BOOLEAN && right == BOOLEAN {
        Ask::Known(combined(operator, FoldKind::Ordinal, BOOLEAN, x, y))
    } else {
        Ask::Known(fault!(operator.at, WrongOperands))
    }
}

/// An operand with its first token and the base of its type.
#[derive(Clone, Copy)]
struct Based {
    at: u32,
    operand: Operand,
    base: Place,
}

/// An operand with the base of its type, as it is taken beside another, whose type has the base `right`.
fn taken(names: &Names, x: Argument, left: Place, y: &Operand, right: Place) -> Based
    requires { IsNamed names.now x.operand }
    ensures at { result.at ≡ x.at }
    ensures told { (c : Context) → c.source.spellings ≡ names.now → right ≡ base_type c y.now
        → result.operand ≡ spec_taken c.source c.scene x.operand y.now }
    ensures based { (c : Context) → c.source.spellings ≡ names.now → HasStandardRows c → left ≡ base_type c x.operand
        → right ≡ base_type c y.now → IsBased c result }
    ensures there { (f : Frame) → IsThere f character → IsOperand f x.operand → IsThere f left
        → IsBasedHere f result }
{
    if is_beside_char(&x.operand, y, right) {
        Based {
            at: x.at,
            operand: as_char(names, x.operand),
            base: CHARACTER,
        }
    } else {
        Based {
            at: x.at,
            operand: x.operand,
            base: left,
        }
    }
}

/// Two numbers, of which a whole constant takes the other's base: arithmetic gives that, a comparison BOOLEAN.
fn on_numbers(operator: PlacedOperator, x: Based, y: Based) -> Result<Operand, Fault>
    ensures told { (c : Context) → HasStandardRows c → IsBased c x → IsBased c y
        → judged c result ≡ spec_on_numbers c operator.operator operator.at x.operand x.at y.operand y.at }
    ensures there { (f : Frame) (a : Surroundings) → Suits f a → IsBasedHere f x → IsBasedHere f y
        → IfOk result (λ operand. IsOperand f operand) }
{
    let base = if takes_base(x.operand, y.base) {
        y.base
    } else {
        x.base
    };
    let kind = number_kind(base);
    let of = match operator.operator {
        Operator::Plus | Operator::Minus | Operator::Times | Operator::Div | Operator::Mod => {
            number_type(kind)
        }
        other if is_relation(other) => BOOLEAN,
        _ => return fault!(operator.at, WrongOperands),
    };
    let left = match as_number(x.at, y.base, x.operand) {
        Ok(left) => left,
        Err(fault) => return Err(fault),
    };
    match as_number(y.at, x.base, y.operand) {
        Ok(right) => combined(operator, kind, of, left, right),
        Err(fault) => Err(fault),
    }
}

/// Whether a type is a pointer or opaque, by what its row says.
fn is_pointer_row(meaning: RowMeaning) -> bool
    ensures { result ≡ is_pointer_kind meaning }
{
    matches!(meaning, RowMeaning::Pointer(_) | RowMeaning::Opaque)
}

/// Whether an operator compares two scalars with bases of these rows.
fn compares(operator: Operator, left: RowMeaning, right: RowMeaning) -> bool
    ensures { result ≡ ((spec_relation operator && (is_some (spec_range_by left) && is_some (spec_range_by right)))
        || (spec_equality operator && (is_pointer_kind left || is_pointer_kind right))) }
{
    let ordinals = range_by(left).is_some() && range_by(right).is_some();
    let pointers = is_pointer_row(left) || is_pointer_row(right);
    let equality = matches!(operator, Operator::Equal | Operator::Unequal);
    is_relation(operator) && ordinals || equality && pointers
}

/// Two scalars that are no numbers.
#[tactic(auto, using(type_rules::proofs::Reading::reading, crate::proofs::TypesThere::there))]
fn on_scalars<S: Scopes>(
    scopes: &mut S,
    site: &Site,
    operator: PlacedOperator,
    x: Based,
    y: Based,
) -> Ask<Result<Operand, Fault>>
    requires suits { SuitsSite (S.state scopes.old).frame site.now }
    requires x { IsBasedHere (S.state scopes.old).frame x }
    requires y { IsBasedHere (S.state scopes.old).frame y }
    ensures reads { Reads (S.state scopes.old) (S.state scopes.new) }
    ensures waits { WhereWaiting result (λ head. Waits (S.state scopes.old) (S.state scopes.new) head) }
    ensures told { WhereTold (S.state scopes.old).frame (λ made.
        WhereKnown result (λ given. let c = context_of (S.state scopes.old).frame made site.now in IsBased c x
        → IsBased c y → judged c given ≡ spec_on_scalars c operator.operator operator.at x.operand y.operand)) }
    ensures there { WhereKnown result (λ given. IfOk given (λ operand. IsOperand (S.state scopes.old).frame operand)) }
{
    let (_, left) = known!(stand(scopes, site.around, x.base));
    let (_, right) = known!(stand(scopes, site.around, y.base));
    if compares(operator.operator, left, right) {
        let (x, y) = (x.operand, y.operand);
        Ask::Known(combined(operator, FoldKind::Ordinal, BOOLEAN, x, y))
    } else {
        Ask::Known(fault!(operator.at, WrongOperands))
    }
}

/// Whether two types are those of one set, by what they stand for and what their rows say.
fn are_sets_alike(left: (Place, RowMeaning), right: (Place, RowMeaning)) -> bool
    ensures { result ≡ (is_set_kind left.1 && is_set_kind right.1 && is_same_place left.0 right.0) }
{
    match (left, right) {
        ((left, RowMeaning::Set(_)), (right, RowMeaning::Set(_))) => left == right,
        _ => false,
    }
}

/// Two operands of one type, or of compatible types. What each type stands for is asked once.
#[tactic(auto, using(type_rules::proofs::Reading::reading, crate::proofs::TypesThere::there))]
fn on_alike<S: Scopes>(
    scopes: &mut S,
    site: &Site,
    operator: PlacedOperator,
    x: Argument,
    y: Argument,
) -> Ask<Result<Operand, Fault>>
    requires suits { SuitsSite (S.state scopes.old).frame site.now }
    requires x { IsOperand (S.state scopes.old).frame x.operand }
    requires y { IsOperand (S.state scopes.old).frame y.operand }
    ensures reads { Reads (S.state scopes.old) (S.state scopes.new) }
    ensures waits { WhereWaiting result (λ head. Waits (S.state scopes.old) (S.state scopes.new) head) }
    ensures told { WhereTold (S.state scopes.old).frame (λ made.
        WhereKnown result (λ given. let c = context_of (S.state scopes.old).frame made site.now in
        judged c given ≡ spec_on_alike c operator.operator operator.at x.operand x.at y.operand y.at)) }
    ensures there { WhereKnown result (λ given. IfOk given (λ operand. IsOperand (S.state scopes.old).frame operand)) }
{
    let around = site.around;
    let left = known!(stand(scopes, around, operand_type(&x.operand)));
    let right = known!(stand(scopes, around, operand_type(&y.operand)));
    if are_sets_alike(left, right) {
        return Ask::Known(set_operation(operator, x.operand, y.operand));
    }
    let first = base_by(left.0, left.1);
    let second = base_by(right.0, right.1);
    if !known!(compatible_with(scopes, around, &x.operand, first, &y.operand, second)) {
        return Ask::Known(fault!(operator.at, WrongOperands));
    }
    let texts = site.texts;
    let left = taken(&texts.names, x, first, &y.operand, second);
    let right = taken(&texts.names, y, second, &x.operand, first);
    if is_number(left.base) && is_number(right.base) {
        Ask::Known(on_numbers(operator, left, right))
    } else {
        on_scalars(scopes, site, operator, left, right)
    }
}

/// Judges an operator between two operands: a constant where both are. Wrong operands are a fault at its token, as is
/// a value out of range; a whole constant that the other type hasn't is one at its own first token. It waits for both
/// types.
#[tactic(auto, using(type_rules::proofs::Reading::reading, crate::proofs::TypesThere::there))]
pub fn operate<S: Scopes>(
    scopes: &mut S,
    site: &Site,
    operator: PlacedOperator,
    x: Argument,
    y: Argument,
) -> Ask<Result<Operand, Fault>>
    requires suits { SuitsSite (S.state scopes.old).frame site.now }
    requires x { IsOperand (S.state scopes.old).frame x.operand }
    requires y { IsOperand (S.state scopes.old).frame y.operand }
    ensures reads { Reads (S.state scopes.old) (S.state scopes.new) }
    ensures waits { WhereWaiting result (λ head. Waits (S.state scopes.old) (S.state scopes.new) head) }
    ensures told { WhereTold (S.state scopes.old).frame (λ made.
        WhereKnown result (λ given. let c = context_of (S.state scopes.old).frame made site.now in
        judged c given ≡ spec_operate c operator.operator operator.at x.operand x.at y.operand y.at)) }
    ensures there { WhereKnown result (λ given. IfOk given (λ operand. IsOperand (S.state scopes.old).frame operand)) }
{
    if is_bad(x.operand) || is_bad(y.operand) {
        return Ask::Known(Ok(worse(x.operand, y.operand)));
    }
    if is_procedure(x.operand) || is_procedure(y.operand) {
        return Ask::Known(fault!(operator.at, WrongOperands));
    }
    match operator.operator {
        Operator::And | Operator::Or => logical(scopes, site, operator, x.operand, y.operand),
        Operator::In => membership(scopes, site, operator.at, x, y.operand),
        _ => on_alike(scopes, site, operator, x, y),
    }
}
