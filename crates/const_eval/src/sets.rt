//! Sets between brackets: their type, and their elements.
ghost use Rattle.std.specs.Prelude.{◌≡◌, IfOk, option_map};
ghost use Rattle.m2_base.specs.States.{Frame, Waits};
ghost use Rattle.m2_base.specs.Standard.{broken};
ghost use Rattle.m2_base.specs.Statics.Contexts.{Context};
ghost use Rattle.m2_base.specs.Statics.Sets.{checked_element as spec_checked, element_of as spec_element};
ghost use Rattle.m2_base.specs.Statics.Sets.{no_elements as spec_no_elements, set_base as spec_base};
ghost use Rattle.m2_base.specs.Statics.Sets.{set_type_of as spec_set_type};
ghost use Rattle.m2_base.specs.Statics.Ranges.{range};
ghost use Rattle.m2_base.specs.Statics.Types.{range_of as spec_range};
ghost use Rattle.m2_base.specs.declared.rows.Place.{Place as Spot};
ghost use Rattle.const_eval.specs.Judgements.{judged, judged_or};
ghost use Rattle.const_eval.specs.Sites.{IsOperand};
ghost use Rattle.type_rules.specs.Asks.{Reads, WhereKnown, WhereWaiting};
ghost use Rattle.type_rules.specs.Scenes.{IsThere, WhereTold};
ghost use Rattle.type_rules.specs.Sites.{SuitsSite, context_of};
ghost use Rattle.type_rules.specs.Standing.{StopsAtType};

use crate::faults::Fault;
use crate::operands::{is_bad, is_procedure};
use crate::pairs::{compatible_pair, is_within};
use crate::structures::{is_broken, set_row};
use m2_base::{Ask, Diagnostic, Operand, Place, Scopes, Site};
use type_rules::{BROKEN, range_of};

/// Judges what stands before the brackets of a set, an operand whose first token is `at`: the set type that it names.
/// What is no type, or no set type, is a fault; what is in error gives `BROKEN`. It waits for the type's row.
#[tactic(auto, using(type_rules::proofs::Reading::reading, crate::proofs::TypesThere::there))]
pub fn set_type_of<S: Scopes>(
    scopes: &mut S,
    site: &Site,
    at: u32,
    x: Operand,
) -> Ask<Result<Place, Fault>>
    requires suits { SuitsSite (S.state scopes.old).frame site.now }
    requires x { IsOperand (S.state scopes.old).frame x }
    ensures reads { Reads (S.state scopes.old) (S.state scopes.new) }
    ensures waits { WhereWaiting result (λ head. Waits (S.state scopes.old) (S.state scopes.new) head) }
    ensures told { WhereTold (S.state scopes.old).frame (λ made.
        WhereKnown result (λ given. let c = context_of (S.state scopes.old).frame made site.now in
        judged_or c broken given ≡ spec_set_type c at x)) }
    ensures there { WhereKnown result (λ given. IfOk given (λ of. IsThere (S.state scopes.old).frame of)) }
{
    match x {
        Operand::NamedType(of) => match known!(set_row(scopes, site.around, of)) {
            Some((place, _)) => Ask::Known(Ok(place)),
            None => Ask::Known(fault!(at, WrongIndex)),
        },
        Operand::InError => Ask::Known(Ok(BROKEN)),
        _ => Ask::Known(fault!(at, NotAType)),
    }
}

/// The base of a set type, with which its elements must be compatible; of a type that is no set the type of parts in
/// error. It waits for the row of what the type stands for.
#[tactic(auto, using(type_rules::proofs::Reading::reading, crate::proofs::TypesThere::there))]
pub fn set_base<S: Scopes>(scopes: &mut S, site: &Site, of: Place) -> Ask<Place>
    requires suits { SuitsSite (S.state scopes.old).frame site.now }
    requires of { IsThere (S.state scopes.old).frame of }
    ensures reads { Reads (S.state scopes.old) (S.state scopes.new) }
    ensures waits { WhereWaiting result (λ head. Waits (S.state scopes.old) (S.state scopes.new) head) }
    ensures told { WhereTold (S.state scopes.old).frame (λ made.
        WhereKnown result (λ given. let c = context_of (S.state scopes.old).frame made site.now in
        given ≡ spec_base c of)) }
    ensures there { WhereKnown result (λ given. IsThere (S.state scopes.old).frame given) }
    ensures stops { WhereWaiting result (λ head. StopsAtType (S.state scopes.new) site.now.around.now of head) }
{
    match known!(set_row(scopes, site.around, of)) {
        Some((_, base)) => Ask::Known(base),
        None => Ask::Known(BROKEN),
    }
}

/// The set of a type without elements, a constant, to which elements are added. It is in error where the type's base
/// is, and where the type is no set. It waits for the rows of the type and of its base.
#[tactic(auto, using(type_rules::proofs::Reading::reading, crate::proofs::TypesThere::there))]
pub fn no_elements<S: Scopes>(scopes: &mut S, site: &Site, of: Place) -> Ask<Operand>
    requires suits { SuitsSite (S.state scopes.old).frame site.now }
    requires of { IsThere (S.state scopes.old).frame of }
    ensures reads { Reads (S.state scopes.old) (S.state scopes.new) }
    ensures waits { WhereWaiting result (λ head. Waits (S.state scopes.old) (S.state scopes.new) head) }
    ensures told { WhereTold (S.state scopes.old).frame (λ made.
        WhereKnown result (λ given. let c = context_of (S.state scopes.old).frame made site.now in
        given ≡ spec_no_elements c of)) }
    ensures there { WhereKnown result (λ given. IsOperand (S.state scopes.old).frame given) }
{
    let base = known!(set_base(scopes, site, of));
    if known!(is_broken(scopes, site.around, base)) {
        Ask::Known(Operand::InError)
    } else {
        Ask::Known(Operand::Constant(of, 0))
    }
}

/// An element of a base with these ends: a constant outside them is refused.
fn element_within(at: u32, ends: Option<(i64, i64)>, x: Operand) -> Result<Operand, Fault>
    ensures told { (c : Context) (base : Spot) → option_map (λ ends. range ends.0 ends.1) ends
        ≡ spec_range c.scene base → judged c result ≡ spec_checked c base at x }
    ensures there { (f : Frame) → IsOperand f x → IfOk result (λ operand. IsOperand f operand) }
{
    match x {
        Operand::Constant(_, value) => {
            if is_within(ends, value) {
                Ok(x)
            } else {
                fault!(at, OutOfRange)
            }
        }
        _ => Ok(x),
    }
}

/// Judges an element of a set with this base, or an end of a range, whose first token is `at`: it must be compatible
/// with the base, and a constant in its range, else that is a fault; in error where the base is. It waits for both.
#[tactic(auto, using(type_rules::proofs::Reading::reading, crate::proofs::TypesThere::there))]
pub fn element_of<S: Scopes>(
    scopes: &mut S,
    site: &Site,
    base: Place,
    at: u32,
    x: Operand,
) -> Ask<Result<Operand, Fault>>
    requires suits { SuitsSite (S.state scopes.old).frame site.now }
    requires base { IsThere (S.state scopes.old).frame base }
    requires x { IsOperand (S.state scopes.old).frame x }
    ensures reads { Reads (S.state scopes.old) (S.state scopes.new) }
    ensures waits { WhereWaiting result (λ head. Waits (S.state scopes.old) (S.state scopes.new) head) }
    ensures told { WhereTold (S.state scopes.old).frame (λ made.
        WhereKnown result (λ given. let c = context_of (S.state scopes.old).frame made site.now in
        judged c given ≡ spec_element c base at x)) }
    ensures there { WhereKnown result (λ given. IfOk given (λ operand. IsOperand (S.state scopes.old).frame operand)) }
{
    if is_bad(x) {
        return Ask::Known(Ok(x));
    }
    if known!(is_broken(scopes, site.around, base)) {
        return Ask::Known(Ok(Operand::InError));
    }
    if is_procedure(x) {
        return Ask::Known(fault!(at, NotAssignable));
    }
    match known!(compatible_pair(scopes, site, x, Operand::Computed(base))) {
        Some(pair) => {
            let ends = known!(range_of(scopes, site.around, base));
            Ask::Known(element_within(at, ends, pair.0))
        }
        None => Ask::Known(fault!(at, NotAssignable)),
    }
}
