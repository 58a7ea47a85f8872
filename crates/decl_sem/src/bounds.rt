//! Bounds of subranges: which two operands may be bounds, and of which base.
ghost use Rattle.std.specs.Prelude.{◌≡◌, ◌++◌, ◌∷◌, [], ◌&&◌, ℕ, ℤ, Option, None, Some, IfOk, if◌then◌else◌, int_lt};
ghost use Rattle.std.specs.Prelude.{not, option_map};
ghost use Rattle.std.specs.Option.{IfSome};
ghost use Rattle.m2_base.specs.Gives.{Adds, gives};
ghost use Rattle.m2_base.specs.Lists.{IsPrefixOf};
ghost use Rattle.m2_base.specs.Rows.{IsValue, is_same_place};
ghost use Rattle.m2_base.specs.Standard.{cardinal, integer, whole};
ghost use Rattle.m2_base.specs.States.{Frame};
ghost use Rattle.m2_base.specs.Statics.Compatible.{is_integer_or_cardinal as spec_number};
ghost use Rattle.m2_base.specs.Statics.Contexts.{Context};
ghost use Rattle.m2_base.specs.Statics.Operands.{constant_of_operand};
ghost use Rattle.m2_base.specs.Statics.Ranges.{Range as Values, is_within as spec_within, range};
ghost use Rattle.m2_base.specs.Statics.Diagnostics.{out_of_range};
ghost use Rattle.m2_base.specs.Statics.Subranges.{common_type as spec_common, is_broken_base, of_ordinals, of_values};
ghost use Rattle.m2_base.specs.Statics.Subranges.{subrange_base as spec_base, whole_base as spec_whole_base};
ghost use Rattle.m2_base.specs.Statics.Subranges.{within_base};
ghost use Rattle.m2_base.specs.Statics.Types.{range_of, stands_for};
ghost use Rattle.m2_base.specs.declared.operands.Operand.{Operand as Value};
ghost use Rattle.m2_base.specs.declared.rows.Place.{Place as Spot};
ghost use Rattle.type_rules.specs.Scenes.{IsThere};
ghost use Rattle.decl_sem.specs.Making.{diag_in};
ghost use Rattle.decl_sem.specs.Bounds.{AreBounds, IsChoice, IsEnd, IsEndOf, IsVerdict, chosen, given_by, kept};

use crate::names::refuse;
use const_eval::is_within;
use m2_base::{Diagnostic, Memory, Notes, Place, Site};
use type_rules::{BROKEN, CARDINAL, INTEGER, WHOLE, is_integer_or_cardinal};

/// A base and its bounds.
#[derive(Clone, Copy)]
pub(crate) struct Bounds {
    pub(crate) base: Place,
    pub(crate) low: i64,
    pub(crate) high: i64,
}

/// What an operand is as a bound: whether it is ordinal, its base, and its value.
#[derive(Clone, Copy)]
pub(crate) struct End {
    pub(crate) ordinal: bool,
    pub(crate) base: Place,
    pub(crate) value: Option<i64>,
}

/// What two bounds give before their values are compared with the range of the base.
#[derive(Clone, Copy)]
pub(crate) enum Choice {
    Chosen(Bounds),
    /// They don't fit each other or the base.
    Wrong,
    /// A part is in error.
    Nothing,
}

/// What bounds are: right, out of the range of their base or not in order, not of one type, or in error.
#[derive(Clone, Copy)]
pub(crate) enum Verdict {
    Right(Bounds),
    LowOutside,
    /// The high bound is out of range, or below the low one.
    HighOutside,
    BothOutside,
    Wrong,
    Nothing,
}

/// Whether a type is that of whole constants, beside INTEGER or CARDINAL.
fn is_whole_beside(of: Place, other: Place) -> bool
    ensures { result ≡ (is_same_place of whole && spec_number other) }
{
    let number = is_integer_or_cardinal(other);
    of == WHOLE && number
}

/// The type of two bounds, by their bases; a whole bound beside an INTEGER or CARDINAL one has that one's type.
fn common_type(low: Place, high: Place) -> Option<Place>
    ensures told { result ≡ spec_common low high }
    ensures there { (f : Frame) → IsThere f low → IsThere f high → IfSome result (λ of. IsThere f of) }
{
    if low == high {
        Some(low)
    } else if is_whole_beside(low, high) {
        Some(high)
    } else if is_whole_beside(high, low) {
        Some(low)
    } else {
        None
    }
}

/// The base of whole bounds: CARDINAL where the low isn't negative, else INTEGER.
fn whole_base(low: i64) -> Place
    ensures told { result ≡ spec_whole_base low }
    ensures there { (f : Frame) → IsThere f integer → IsThere f cardinal → IsThere f result }
{
    if 0 <= low { CARDINAL } else { INTEGER }
}

/// The base of bounds of this type, where none is named.
fn own_base(of: Place, low: i64) -> Place
    ensures told { (c : Context) → Some result ≡ spec_base c None of low }
    ensures there { (f : Frame) → IsThere f integer → IsThere f cardinal → IsThere f of → IsThere f result }
{
    if of == WHOLE { whole_base(low) } else { of }
}

/// The base that is named, by what it stands for, where bounds of this type fit it.
fn named_base(named: Place, of: Place) -> Option<Place>
    ensures told { (c : Context) (base : Spot) (low : ℤ) → named ≡ stands_for c.scene base
        → result ≡ spec_base c (Some base) of low }
    ensures there { (f : Frame) → IsThere f named → IfSome result (λ base. IsThere f base) }
{
    if named == of || is_whole_beside(of, named) {
        Some(named)
    } else {
        None
    }
}

/// The base of bounds of this type, by what the named one stands for, if one is named.
fn subrange_base(named: Option<Place>, of: Place, low: i64) -> Option<Place>
    ensures told { (c : Context) (base : Option Spot) → named ≡ option_map (stands_for c.scene) base
        → result ≡ spec_base c base of low }
    ensures there { (f : Frame) → IsThere f integer → IsThere f cardinal → IsThere f of
        → IfSome named (λ base. IsThere f base) → IfSome result (λ base. IsThere f base) }
{
    match named {
        Some(named) => named_base(named, of),
        None => Some(own_base(of, low)),
    }
}

/// The bounds of two values whose type is this.
fn choose_values(named: Option<Place>, of: Place, low: i64, high: i64) -> Choice
    ensures told { (c : Context) (base : Option Spot) (low_at high_at : ℕ)
        → named ≡ option_map (stands_for c.scene) base
        → chosen c low_at high_at result ≡ within_base c low_at high_at low high (spec_base c base of low) }
    ensures there { (f : Frame) → IsThere f integer → IsThere f cardinal → IsThere f of → IsValue low → IsValue high
        → IfSome named (λ base. IsThere f base) → IsChoice f result }
{
    match subrange_base(named, of, low) {
        Some(base) => Choice::Chosen(Bounds { base, low, high }),
        None => Choice::Wrong,
    }
}

/// The bounds of two ordinal operands.
fn choose_ordinals(named: Option<Place>, low: End, high: End) -> Choice
    ensures told { (c : Context) (base : Option Spot) (x y : Value) (low_at high_at : ℕ) → named
        ≡ option_map (stands_for c.scene) base → IsEndOf c x low → IsEndOf c y high → chosen c low_at high_at result
        ≡ of_values c base low_at high_at x y (constant_of_operand x) (constant_of_operand y) }
    ensures there { (f : Frame) → IsThere f integer → IsThere f cardinal → IsEnd f low → IsEnd f high
        → IfSome named (λ base. IsThere f base) → IsChoice f result }
{
    let (Some(first), Some(last)) = (low.value, high.value) else {
        return Choice::Nothing;
    };
    match common_type(low.base, high.base) {
        Some(of) => choose_values(named, of, first, last),
        None => Choice::Wrong,
    }
}

/// The bounds of two operands, by what the named base stands for, if one is named.
pub(crate) fn choose(named: Option<Place>, low: End, high: End) -> Choice
    ensures told { (c : Context) (base : Option Spot) (x y : Value) (low_at high_at : ℕ) → named
        ≡ option_map (stands_for c.scene) base → IsEndOf c x low → IsEndOf c y high → chosen c low_at high_at result
        ≡ (if is_broken_base c base then gives None else of_ordinals c base low_at high_at x y) }
    ensures there { (f : Frame) → IsThere f integer → IsThere f cardinal → IsEnd f low → IsEnd f high
        → IfSome named (λ base. IsThere f base) → IsChoice f result }
{
    if named == Some(BROKEN) {
        return Choice::Nothing;
    }
    let ordinal = low.ordinal && high.ordinal;
    if ordinal {
        choose_ordinals(named, low, high)
    } else {
        Choice::Wrong
    }
}

/// Whether the low bound and the high one lie in the range of their base, which has these ends.
pub(crate) fn are_within(bounds: Bounds, ends: Option<(i64, i64)>) -> (bool, bool)
    ensures low { (r : Option Values) → option_map (λ ends. range ends.0 ends.1) ends ≡ r
        → result.0 ≡ spec_within r bounds.low }
    ensures high { (r : Option Values) → option_map (λ ends. range ends.0 ends.1) ends ≡ r
        → result.1 ≡ spec_within r bounds.high }
{
    (is_within(ends, bounds.low), is_within(ends, bounds.high))
}

/// Whether the low bound isn't above the high one.
fn is_ordered(bounds: Bounds) -> bool
    ensures { result ≡ not (int_lt bounds.high bounds.low) }
{
    bounds.low <= bounds.high
}

/// What bounds are, of which the low one and the high one may lie in the range of their base.
pub(crate) fn judge(bounds: Bounds, within: (bool, bool)) -> Verdict
    ensures told { (c : Context) (low_at high_at : ℕ)
        → within.0 ≡ spec_within (range_of c.scene bounds.base) bounds.low
        → within.1 ≡ spec_within (range_of c.scene bounds.base) bounds.high → given_by c low_at high_at result
        ≡ kept (within_base c low_at high_at bounds.low bounds.high (Some bounds.base)) }
    ensures there { (f : Frame) → AreBounds f bounds → IsVerdict f result }
{
    let ordered = is_ordered(bounds);
    match within {
        (true, true) => {
            if ordered {
                Verdict::Right(bounds)
            } else {
                Verdict::HighOutside
            }
        }
        (true, false) => Verdict::HighOutside,
        (false, true) => Verdict::LowOutside,
        (false, false) => Verdict::BothOutside,
    }
}

/// Two bounds that are out of range.
fn note_both(site: &Site, low_at: u32, high_at: u32, notes: &mut Notes) -> Result<(), Memory>
    ensures answers { notes.new.answers.items ≡ notes.old.answers.items }
    ensures diags { IsPrefixOf notes.old.diags.items notes.new.diags.items }
    ensures noted { IfOk result
        (λ _. notes.new.diags.items ≡ (notes.old.diags.items ++ diag_in site.now.around.now.text low_at out_of_range
        ∷ []) ++ diag_in site.now.around.now.text high_at out_of_range ∷ []) }
{
    put!(refuse(site, low_at, Diagnostic::OutOfRange, notes));
    refuse(site, high_at, Diagnostic::OutOfRange, notes)
}

/// The bounds, where they are right; what is wrong is noted.
pub(crate) fn note_verdict(
    site: &Site,
    low_at: u32,
    high_at: u32,
    verdict: Verdict,
    notes: &mut Notes,
) -> Result<Option<Bounds>, Memory>
    ensures answers { notes.new.answers.items ≡ notes.old.answers.items }
    ensures diags { IsPrefixOf notes.old.diags.items notes.new.diags.items }
    ensures told { (c : Context) → c.scene.block.text ≡ site.now.around.now.text
        → IfOk result (λ given. Adds notes.old notes.new (given_by c low_at high_at verdict) given) }
    ensures there { (f : Frame) → IsVerdict f verdict
        → IfOk result (λ given. IfSome given (λ bounds. AreBounds f bounds)) }
{
    match verdict {
        Verdict::Right(bounds) => return Ok(Some(bounds)),
        Verdict::LowOutside => put!(refuse(site, low_at, Diagnostic::OutOfRange, notes)),
        Verdict::HighOutside => put!(refuse(site, high_at, Diagnostic::OutOfRange, notes)),
        Verdict::BothOutside => put!(note_both(site, low_at, high_at, notes)),
        Verdict::Wrong => put!(refuse(site, high_at, Diagnostic::WrongOperands, notes)),
        Verdict::Nothing => (),
    }
    Ok(None)
}
