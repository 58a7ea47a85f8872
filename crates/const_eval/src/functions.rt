//! The standard functions that constants may have: what each takes and gives.
ghost use Rattle.std.specs.Prelude.{◌≡◌, ◌&&◌, IfOk, if◌then◌else◌};
ghost use Rattle.m2_base.specs.Gives.{and_then};
ghost use Rattle.m2_base.specs.Standard.{boolean, broken as broken_type, character};
ghost use Rattle.m2_base.specs.States.{Frame, Waits};
ghost use Rattle.m2_base.specs.Statics.Contexts.{Context, Source};
ghost use Rattle.m2_base.specs.Statics.Operands.{char_or_same as spec_char_or_same};
ghost use Rattle.m2_base.specs.Statics.Functions.{abs_of as spec_abs, absolute as spec_absolute, cap_of as spec_cap};
ghost use Rattle.m2_base.specs.Statics.Functions.{capital as spec_capital, chr_of as spec_chr};
ghost use Rattle.m2_base.specs.Statics.Functions.{converted as spec_converted, number_argument as spec_number};
ghost use Rattle.m2_base.specs.Statics.Functions.{odd_of as spec_odd, oddness as spec_oddness, ord_of as spec_ord};
ghost use Rattle.m2_base.specs.Statics.Functions.{ordinal_argument as spec_ordinal_argument};
ghost use Rattle.m2_base.specs.Statics.Functions.{ordinal_type_argument as spec_ordinal_type_argument};
ghost use Rattle.m2_base.specs.Statics.Functions.{val_as as spec_val_as};
ghost use Rattle.const_eval.specs.Judgements.{judged, judged_or};
ghost use Rattle.const_eval.specs.Sites.{IsNamed, IsOperand, IsSmallConstant};
ghost use Rattle.type_rules.specs.Asks.{Reads, WhereKnown, WhereWaiting};
ghost use Rattle.type_rules.specs.Scenes.{IsThere, WhereTold};
ghost use Rattle.type_rules.specs.Sites.{SuitsSite, context_of};

use crate::faults::Fault;
use crate::numbers::{number_kind, number_type};
use crate::operands::{char_or_same, is_bad};
use crate::operators::is_number;
use crate::pairs::{is_ordinal, is_within};
use crate::structures::is_broken;
use m2_base::{Ask, Diagnostic, GREATEST_INTEGER, Operand, Place, Scopes, Site};
use type_rules::{BOOLEAN, BROKEN, CARDINAL, CHARACTER, INTEGER, base_of, operand_type, range_of};

/// An argument that is a number.
#[tactic(auto, using(type_rules::proofs::Reading::reading, crate::proofs::TypesThere::there))]
fn number_argument<S: Scopes>(
    scopes: &mut S,
    site: &Site,
    at: u32,
    x: Operand,
) -> Ask<Result<Operand, Fault>>
    requires suits { SuitsSite (S.state scopes.old).frame site.now }
    requires x { IsOperand (S.state scopes.old).frame x }
    ensures reads { Reads (S.state scopes.old) (S.state scopes.new) }
    ensures waits { WhereWaiting result (λ head. Waits (S.state scopes.old) (S.state scopes.new) head) }
    ensures told { WhereTold (S.state scopes.old).frame (λ made.
        WhereKnown result (λ given. let c = context_of (S.state scopes.old).frame made site.now in
        judged c given ≡ spec_number c at x)) }
    ensures there { WhereKnown result (λ given. IfOk given (λ operand. IsOperand (S.state scopes.old).frame operand)) }
{
    if is_bad(x) {
        return Ask::Known(Ok(x));
    }
    let base = known!(base_of(scopes, site.around, operand_type(&x)));
    if is_number(base) {
        Ask::Known(Ok(x))
    } else {
        Ask::Known(fault!(at, WrongArgument))
    }
}

/// The same as `char_or_same`, by the names of the site: a string of one character is that CHAR, anything else is as
/// it is. It asks no scope.
pub fn char_of_string(site: &Site, x: Operand) -> Operand
    requires { IsNamed site.now.texts.now.names x }
    ensures told { (source : Source) → source.spellings ≡ site.now.texts.now.names
        → result ≡ spec_char_or_same source x }
    ensures there { (f : Frame) → IsThere f character → IsOperand f x → IsOperand f result }
{
    let texts = site.texts;
    char_or_same(&texts.names, x)
}

/// An argument of an ordinal type; a string of one character is a CHAR.
#[tactic(auto, using(type_rules::proofs::Reading::reading, crate::proofs::TypesThere::there))]
pub(crate) fn ordinal_argument<S: Scopes>(
    scopes: &mut S,
    site: &Site,
    at: u32,
    x: Operand,
) -> Ask<Result<Operand, Fault>>
    requires suits { SuitsSite (S.state scopes.old).frame site.now }
    requires x { IsOperand (S.state scopes.old).frame x }
    ensures reads { Reads (S.state scopes.old) (S.state scopes.new) }
    ensures waits { WhereWaiting result (λ head. Waits (S.state scopes.old) (S.state scopes.new) head) }
    ensures told { WhereTold (S.state scopes.old).frame (λ made.
        WhereKnown result (λ given. let c = context_of (S.state scopes.old).frame made site.now in
        judged c given ≡ spec_ordinal_argument c at x)) }
    ensures there { WhereKnown result (λ given. IfOk given (λ operand. IsOperand (S.state scopes.old).frame operand)) }
{
    if is_bad(x) {
        return Ask::Known(Ok(x));
    }
    let taken = char_of_string(site, x);
    if known!(is_ordinal(scopes, site, taken)) {
        Ask::Known(Ok(taken))
    } else {
        Ask::Known(fault!(at, WrongArgument))
    }
}

/// Judges an argument that must be an ordinal type, as that of MIN: `at` is its first token. What is no type is a
/// fault, and so is a type that isn't ordinal; one in error is given as it is. It waits for the type's row.
#[tactic(auto, using(type_rules::proofs::Reading::reading, crate::proofs::TypesThere::there))]
pub fn ordinal_type_argument<S: Scopes>(
    scopes: &mut S,
    site: &Site,
    at: u32,
    x: Operand,
) -> Ask<Result<Place, Fault>>
    requires suits { SuitsSite (S.state scopes.old).frame site.now }
    requires x { IsOperand (S.state scopes.old).frame x }
    ensures reads { Reads (S.state scopes.old) (S.state scopes.new) }
    ensures waits { WhereWaiting result (λ head. Waits (S.state scopes.old) (S.state scopes.new) head) }
    ensures told { WhereTold (S.state scopes.old).frame (λ made.
        WhereKnown result (λ given. let c = context_of (S.state scopes.old).frame made site.now in
        judged_or c broken_type given ≡ spec_ordinal_type_argument c at x)) }
    ensures there { WhereKnown result (λ given. IfOk given (λ of. IsThere (S.state scopes.old).frame of)) }
{
    let of = match x {
        Operand::NamedType(of) => of,
        Operand::InError => return Ask::Known(Ok(BROKEN)),
        _ => return Ask::Known(fault!(at, NotAType)),
    };
    if known!(is_broken(scopes, site.around, of)) {
        return Ask::Known(Ok(of));
    }
    match known!(range_of(scopes, site.around, of)) {
        Some(_) => Ask::Known(Ok(of)),
        None => Ask::Known(fault!(at, WrongArgument)),
    }
}

/// A value as one of another ordinal type; a constant outside its range is refused.
#[tactic(auto, using(type_rules::proofs::Reading::reading, crate::proofs::TypesThere::there))]
pub(crate) fn converted<S: Scopes>(
    scopes: &mut S,
    site: &Site,
    at: u32,
    of: Place,
    x: Operand,
) -> Ask<Result<Operand, Fault>>
    requires suits { SuitsSite (S.state scopes.old).frame site.now }
    requires of { IsThere (S.state scopes.old).frame of }
    requires x { IsOperand (S.state scopes.old).frame x }
    ensures reads { Reads (S.state scopes.old) (S.state scopes.new) }
    ensures waits { WhereWaiting result (λ head. Waits (S.state scopes.old) (S.state scopes.new) head) }
    ensures told { WhereTold (S.state scopes.old).frame (λ made.
        WhereKnown result (λ given. let c = context_of (S.state scopes.old).frame made site.now in
        judged c given ≡ spec_converted c at of x)) }
    ensures there { WhereKnown result (λ given. IfOk given (λ operand. IsOperand (S.state scopes.old).frame operand)) }
{
    let ends = known!(range_of(scopes, site.around, of));
    match x {
        Operand::Constant(_, value) => {
            if is_within(ends, value) {
                Ask::Known(Ok(Operand::Constant(of, value)))
            } else {
                Ask::Known(fault!(at, OutOfRange))
            }
        }
        Operand::InError | Operand::NotConstant => Ask::Known(Ok(x)),
        _ => Ask::Known(Ok(Operand::Computed(of))),
    }
}

/// The absolute value, of a base type; a constant that leaves INTEGER is refused.
fn absolute(at: u32, of: Place, x: Operand) -> Result<Operand, Fault>
    requires { IsSmallConstant x }
    ensures told { (c : Context) → judged c result ≡ spec_absolute c at of x }
    ensures there { (f : Frame) → IsThere f of → IfOk result (λ operand. IsOperand f operand) }
{
    match x {
        Operand::Constant(_, value) => {
            let value = value.abs();
            if of == INTEGER && value > GREATEST_INTEGER {
                return fault!(at, OutOfRange);
            }
            Ok(Operand::Constant(of, value))
        }
        Operand::InError | Operand::NotConstant => Ok(x),
        _ => Ok(Operand::Computed(of)),
    }
}

/// Judges ABS(x), "absolute value", for an `x` whose first token is `at`: a number of the base of its type. What is no
/// number is a fault, and so is the constant whose absolute value INTEGER hasn't. It waits for the type.
#[tactic(auto, using(type_rules::proofs::Reading::reading, crate::proofs::TypesThere::there))]
pub fn abs_of<S: Scopes>(
    scopes: &mut S,
    site: &Site,
    at: u32,
    x: Operand,
) -> Ask<Result<Operand, Fault>>
    requires suits { SuitsSite (S.state scopes.old).frame site.now }
    requires x { IsOperand (S.state scopes.old).frame x }
    ensures reads { Reads (S.state scopes.old) (S.state scopes.new) }
    ensures waits { WhereWaiting result (λ head. Waits (S.state scopes.old) (S.state scopes.new) head) }
    ensures told { WhereTold (S.state scopes.old).frame (λ made.
        WhereKnown result (λ given. let c = context_of (S.state scopes.old).frame made site.now in
        judged c given ≡ spec_abs c at x)) }
    ensures there { WhereKnown result (λ given. IfOk given (λ operand. IsOperand (S.state scopes.old).frame operand)) }
{
    let x = match known!(number_argument(scopes, site, at, x)) {
        Ok(x) => x,
        Err(fault) => return Ask::Known(Err(fault)),
    };
    let base = known!(base_of(scopes, site.around, operand_type(&x)));
    Ask::Known(absolute(at, number_type(number_kind(base)), x))
}

/// A letter as a capital, any other character as it is.
fn capital(x: Operand) -> Operand
    ensures told { result ≡ spec_capital x }
    ensures there { (f : Frame) → IsOperand f x → IsThere f character → IsOperand f result }
{
    match x {
        Operand::Constant(_, value) if 97 <= value && value <= 122 => {
            Operand::Constant(CHARACTER, value - 32)
        }
        Operand::Constant(_, value) => Operand::Constant(CHARACTER, value),
        _ => Operand::Computed(CHARACTER),
    }
}

/// Judges CAP(ch) for an `x` whose first token is `at`: "if ch is a lower case letter, the corresponding capital
/// letter", else as it is. A string of one character is a CHAR; what is none is a fault. It waits for the type.
#[tactic(auto, using(type_rules::proofs::Reading::reading, crate::proofs::TypesThere::there))]
pub fn cap_of<S: Scopes>(
    scopes: &mut S,
    site: &Site,
    at: u32,
    x: Operand,
) -> Ask<Result<Operand, Fault>>
    requires suits { SuitsSite (S.state scopes.old).frame site.now }
    requires x { IsOperand (S.state scopes.old).frame x }
    ensures reads { Reads (S.state scopes.old) (S.state scopes.new) }
    ensures waits { WhereWaiting result (λ head. Waits (S.state scopes.old) (S.state scopes.new) head) }
    ensures told { WhereTold (S.state scopes.old).frame (λ made.
        WhereKnown result (λ given. let c = context_of (S.state scopes.old).frame made site.now in
        judged c given ≡ spec_cap c at x)) }
    ensures there { WhereKnown result (λ given. IfOk given (λ operand. IsOperand (S.state scopes.old).frame operand)) }
{
    if is_bad(x) {
        return Ask::Known(Ok(x));
    }
    let taken = char_of_string(site, x);
    let base = known!(base_of(scopes, site.around, operand_type(&taken)));
    if base == CHARACTER {
        Ask::Known(Ok(capital(taken)))
    } else {
        Ask::Known(fault!(at, WrongArgument))
    }
}

/// Judges CHR(x), "the character with ordinal number x", for an `x` whose first token is `at`: a CHAR, constant where
/// `x` is. What is no number is a fault, and so is a constant that is no character's. It waits for the type.
#[tactic(auto, using(type_rules::proofs::Reading::reading, crate::proofs::TypesThere::there))]
pub fn chr_of<S: Scopes>(
    scopes: &mut S,
    site: &Site,
    at: u32,
    x: Operand,
) -> Ask<Result<Operand, Fault>>
    requires suits { SuitsSite (S.state scopes.old).frame site.now }
    requires x { IsOperand (S.state scopes.old).frame x }
    ensures reads { Reads (S.state scopes.old) (S.state scopes.new) }
    ensures waits { WhereWaiting result (λ head. Waits (S.state scopes.old) (S.state scopes.new) head) }
    ensures told { WhereTold (S.state scopes.old).frame (λ made.
        WhereKnown result (λ given. let c = context_of (S.state scopes.old).frame made site.now in
        judged c given ≡ spec_chr c at x)) }
    ensures there { WhereKnown result (λ given. IfOk given (λ operand. IsOperand (S.state scopes.old).frame operand)) }
{
    match known!(number_argument(scopes, site, at, x)) {
        Ok(x) => converted(scopes, site, at, CHARACTER, x),
        Err(fault) => Ask::Known(Err(fault)),
    }
}

/// Whether a number is odd.
fn oddness(x: Operand) -> Operand
    ensures told { result ≡ spec_oddness x }
    ensures there { (f : Frame) → IsThere f boolean → IsOperand f result }
{
    match x {
        Operand::Constant(_, value) => Operand::Constant(BOOLEAN, value.rem_euclid(2)),
        Operand::InError | Operand::NotConstant => x,
        _ => Operand::Computed(BOOLEAN),
    }
}

/// Judges ODD(x), "x MOD 2 # 0", for an `x` whose first token is `at`: a BOOLEAN, constant where `x` is. What is no
/// number is a fault. It waits for the type.
#[tactic(auto, using(type_rules::proofs::Reading::reading, crate::proofs::TypesThere::there))]
pub fn odd_of<S: Scopes>(
    scopes: &mut S,
    site: &Site,
    at: u32,
    x: Operand,
) -> Ask<Result<Operand, Fault>>
    requires suits { SuitsSite (S.state scopes.old).frame site.now }
    requires x { IsOperand (S.state scopes.old).frame x }
    ensures reads { Reads (S.state scopes.old) (S.state scopes.new) }
    ensures waits { WhereWaiting result (λ head. Waits (S.state scopes.old) (S.state scopes.new) head) }
    ensures told { WhereTold (S.state scopes.old).frame (λ made.
        WhereKnown result (λ given. let c = context_of (S.state scopes.old).frame made site.now in
        judged c given ≡ spec_odd c at x)) }
    ensures there { WhereKnown result (λ given. IfOk given (λ operand. IsOperand (S.state scopes.old).frame operand)) }
{
    match known!(number_argument(scopes, site, at, x)) {
        Ok(x) => Ask::Known(Ok(oddness(x))),
        Err(fault) => Ask::Known(Err(fault)),
    }
}

/// Judges ORD(x), "ordinal number (of type CARDINAL) of x", for an `x` whose first token is `at`; a string of one
/// character is a CHAR. What isn't of an ordinal type is a fault, and so is a negative constant.
/// It waits for the type.
#[tactic(auto, using(type_rules::proofs::Reading::reading, crate::proofs::TypesThere::there))]
pub fn ord_of<S: Scopes>(
    scopes: &mut S,
    site: &Site,
    at: u32,
    x: Operand,
) -> Ask<Result<Operand, Fault>>
    requires suits { SuitsSite (S.state scopes.old).frame site.now }
    requires x { IsOperand (S.state scopes.old).frame x }
    ensures reads { Reads (S.state scopes.old) (S.state scopes.new) }
    ensures waits { WhereWaiting result (λ head. Waits (S.state scopes.old) (S.state scopes.new) head) }
    ensures told { WhereTold (S.state scopes.old).frame (λ made.
        WhereKnown result (λ given. let c = context_of (S.state scopes.old).frame made site.now in
        judged c given ≡ spec_ord c at x)) }
    ensures there { WhereKnown result (λ given. IfOk given (λ operand. IsOperand (S.state scopes.old).frame operand)) }
{
    match known!(ordinal_argument(scopes, site, at, x)) {
        Ok(x) => converted(scopes, site, at, CARDINAL, x),
        Err(fault) => Ask::Known(Err(fault)),
    }
}

/// Judges VAL(T, x), "the value with ordinal number x and with type T"; `of` is T, and `at` the first token of `x`.
/// What isn't ordinal is a fault, as is a constant that T hasn't; of a T in error it is in error. It waits for both.
#[tactic(auto, using(type_rules::proofs::Reading::reading, crate::proofs::TypesThere::there))]
pub fn val_of<S: Scopes>(
    scopes: &mut S,
    site: &Site,
    at: u32,
    of: Place,
    x: Operand,
) -> Ask<Result<Operand, Fault>>
    requires suits { SuitsSite (S.state scopes.old).frame site.now }
    requires of { IsThere (S.state scopes.old).frame of }
    requires x { IsOperand (S.state scopes.old).frame x }
    ensures reads { Reads (S.state scopes.old) (S.state scopes.new) }
    ensures waits { WhereWaiting result (λ head. Waits (S.state scopes.old) (S.state scopes.new) head) }
    ensures told { WhereTold (S.state scopes.old).frame (λ made.
        WhereKnown result (λ given. let c = context_of (S.state scopes.old).frame made site.now in
        judged c given ≡ and_then (spec_ordinal_argument c at x) (λ x. spec_val_as c at of x))) }
    ensures there { WhereKnown result (λ given. IfOk given (λ operand. IsOperand (S.state scopes.old).frame operand)) }
{
    let x = match known!(ordinal_argument(scopes, site, at, x)) {
        Ok(x) => x,
        Err(fault) => return Ask::Known(Err(fault)),
    };
    if known!(is_broken(scopes, site.around, of)) {
        return Ask::Known(Ok(Operand::InError));
    }
    converted(scopes, site, at, of, x)
}
