//! Two operands beside each other.
ghost use Rattle.std.specs.Prelude.{◌≡◌, ◌&&◌, IfOk, if◌then◌else◌, true, Some, None, option_map};
ghost use Rattle.std.specs.Option.{IfSome};
ghost use Rattle.m2_base.specs.Standard.{character};
ghost use Rattle.m2_base.specs.States.{Frame, Waits};
ghost use Rattle.m2_base.specs.Statics.Compatible.{is_beside_char as spec_beside_char, is_compatible};
ghost use Rattle.m2_base.specs.Statics.Compatible.{taken_beside as spec_taken};
ghost use Rattle.m2_base.specs.Statics.Contexts.{Context};
ghost use Rattle.m2_base.specs.Statics.Operands.{operand_type as spec_operand_type};
ghost use Rattle.m2_base.specs.Statics.Operations.{as_number as spec_as_number, base_type, is_ordinal as spec_ordinal};
ghost use Rattle.m2_base.specs.Statics.Ranges.{is_within as spec_within, range};
ghost use Rattle.const_eval.specs.Judgements.{judged};
ghost use Rattle.const_eval.specs.Numbers.{takes_base as spec_takes};
ghost use Rattle.const_eval.specs.Sites.{IsNamed, IsOperand};
ghost use Rattle.const_eval.specs.Standard.{HasStandardRows};
ghost use Rattle.type_rules.specs.Asks.{Reads, WhereKnown, WhereWaiting};
ghost use Rattle.type_rules.specs.Scenes.{IsThere, WhereTold};
ghost use Rattle.type_rules.specs.Sites.{SuitsSite, context_of};
ghost use Rattle.type_rules.specs.Standing.{StopsAtType};

use crate::faults::Fault;
use crate::operands::as_char;
use m2_base::{
    Ask, Diagnostic, GREATEST_CARDINAL, GREATEST_INTEGER, LEAST_INTEGER, Names, Operand, Place,
    Scopes, Site,
};
use type_rules::{
    CHARACTER, INTEGER, WHOLE, bases_of, compatible_with, is_integer_or_cardinal, is_one_char,
    is_string, operand_type, range_of,
};

/// Whether a value is in the range with these ends, which are in it too. Where there is no range, as of a type that
/// isn't ordinal, every value is.
pub fn is_within(ends: Option<(i64, i64)>, value: i64) -> bool
    ensures { result ≡ spec_within (option_map (λ ends. range ends.0 ends.1) ends) value }
{
    match ends {
        None => true,
        Some((low, high)) => low <= value && value <= high,
    }
}

/// Whether an operand is of an ordinal type: INTEGER, CARDINAL, CHAR, an enumeration or a subrange. A whole constant,
/// which has neither type of numbers yet, counts as one. It waits for the type's row.
#[tactic(auto, using(type_rules::proofs::Reading::reading, crate::proofs::TypesThere::there))]
pub fn is_ordinal<S: Scopes>(scopes: &mut S, site: &Site, x: Operand) -> Ask<bool>
    requires suits { SuitsSite (S.state scopes.old).frame site.now }
    requires x { IsOperand (S.state scopes.old).frame x }
    ensures reads { Reads (S.state scopes.old) (S.state scopes.new) }
    ensures waits { WhereWaiting result (λ head. Waits (S.state scopes.old) (S.state scopes.new) head) }
    ensures told { WhereTold (S.state scopes.old).frame (λ made.
        WhereKnown result (λ given. let c = context_of (S.state scopes.old).frame made site.now in
        given ≡ spec_ordinal c x)) }
    ensures stops { WhereWaiting result
        (λ head. StopsAtType (S.state scopes.new) site.now.around.now (spec_operand_type x) head) }
{
    let of = operand_type(&x);
    if of == WHOLE {
        return Ask::Known(true);
    }
    let ends = known!(range_of(scopes, site.around, of));
    Ask::Known(ends.is_some())
}

/// Whether an operand is a string of one character beside a CHAR that is no string, whose type has this base.
pub(crate) fn is_beside_char(x: &Operand, y: &Operand, base: Place) -> bool
    ensures { (c : Context) → base ≡ base_type c y.now → result ≡ spec_beside_char c.scene x.now y.now }
{
    is_one_char(x) && !is_string(y) && base == CHARACTER
}

/// An operand as it is taken beside another, whose type has this base:
/// a string of one character beside a CHAR is a CHAR.
pub(crate) fn taken_beside(names: &Names, x: Operand, y: &Operand, base: Place) -> Operand
    requires { IsNamed names.now x }
    ensures told { (c : Context) → c.source.spellings ≡ names.now → base ≡ base_type c y.now
        → result ≡ spec_taken c.source c.scene x y.now }
    ensures there { (f : Frame) → IsThere f character → IsOperand f x → IsOperand f result }
{
    if is_beside_char(&x, y, base) {
        as_char(names, x)
    } else {
        x
    }
}

/// Two operands as they are taken beside each other, if they are compatible: a string of one character beside a CHAR
/// is a CHAR, all else is as it is. It waits for the rows of both types.
#[tactic(auto, using(type_rules::proofs::Reading::reading, crate::proofs::TypesThere::there))]
pub fn compatible_pair<S: Scopes>(
    scopes: &mut S,
    site: &Site,
    x: Operand,
    y: Operand,
) -> Ask<Option<(Operand, Operand)>>
    requires suits { SuitsSite (S.state scopes.old).frame site.now }
    requires x { IsOperand (S.state scopes.old).frame x }
    requires y { IsOperand (S.state scopes.old).frame y }
    ensures reads { Reads (S.state scopes.old) (S.state scopes.new) }
    ensures waits { WhereWaiting result (λ head. Waits (S.state scopes.old) (S.state scopes.new) head) }
    ensures told { WhereTold (S.state scopes.old).frame (λ made.
        WhereKnown result (λ given. let c = context_of (S.state scopes.old).frame made site.now in
        given ≡ (if is_compatible c.scene x y then
        Some (spec_taken c.source c.scene x y, spec_taken c.source c.scene y x) else None))) }
    ensures there { WhereKnown result (λ given. IfSome given
        (λ pair. IsOperand (S.state scopes.old).frame pair.0 × IsOperand (S.state scopes.old).frame pair.1)) }
{
    let around = site.around;
    let (left, right) = known!(bases_of(scopes, around, operand_type(&x), operand_type(&y)));
    if !known!(compatible_with(scopes, around, &x, left, &y, right)) {
        return Ask::Known(None);
    }
    let texts = site.texts;
    let first = taken_beside(&texts.names, x, &y, right);
    let second = taken_beside(&texts.names, y, &x, left);
    Ask::Known(Some((first, second)))
}

/// Whether an operand is a whole constant beside a base that is INTEGER or CARDINAL.
pub(crate) fn takes_base(x: Operand, other: Place) -> bool
    ensures { result ≡ spec_takes x other }
{
    match x {
        Operand::Constant(of, _) => of == WHOLE && is_integer_or_cardinal(other),
        _ => false,
    }
}

/// A whole constant takes the other operand's base, INTEGER or CARDINAL; outside its range it is refused.
pub(crate) fn as_number(at: u32, other: Place, x: Operand) -> Result<Operand, Fault>
    ensures told { (c : Context) → HasStandardRows c → judged c result ≡ spec_as_number c at other x }
    ensures there { (f : Frame) → IsThere f other → IsOperand f x → IfOk result (λ operand. IsOperand f operand) }
{
    match x {
        Operand::Constant(_, value) if takes_base(x, other) => {
            let ends = if other == INTEGER {
                (LEAST_INTEGER, GREATEST_INTEGER)
            } else {
                (0, GREATEST_CARDINAL)
            };
            if is_within(Some(ends), value) {
                Ok(Operand::Constant(other, value))
            } else {
                fault!(at, OutOfRange)
            }
        }
        _ => Ok(x),
    }
}
