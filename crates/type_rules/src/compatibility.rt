//! When two operands are compatible.
ghost use Rattle.std.specs.Prelude.{◌≡◌, ◌&&◌, ◌||◌, not};
ghost use Rattle.m2_base.specs.Rows.{is_same_place};
ghost use Rattle.m2_base.specs.Standard.{character};
ghost use Rattle.m2_base.specs.Statics.Operands.{is_string as spec_string, is_one_char as spec_one_char};
ghost use Rattle.m2_base.specs.Statics.Operands.{operand_type as spec_type};
ghost use Rattle.m2_base.specs.States.{Waits};
ghost use Rattle.m2_base.specs.Statics.Compatible.{is_compatible, are_compatible_bases, is_pointer as spec_pointer};
ghost use Rattle.m2_base.specs.Statics.Types.{base_of as spec_base};
ghost use Rattle.type_rules.specs.Asks.{Reads, WhereKnown, WhereWaiting};
ghost use Rattle.type_rules.specs.Scenes.{Suits, IsThere, IsOperandThere, scene_of, WhereTold};
ghost use Rattle.type_rules.specs.Standing.{StopsAtEither, StopsAtType};

use crate::operands::{
    CHARACTER, NIL, WHOLE, is_integer_or_cardinal, is_one_char, is_string, operand_type,
};
use crate::ordinals::base_of;
use crate::standing::stand;
use m2_base::{Around, Ask, Operand, Place, RowMeaning, Scopes};

/// Whether a type is a pointer or opaque.
#[tactic(auto, using(crate::proofs::Reading::reading))]
pub fn is_pointer<S: Scopes>(scopes: &mut S, around: &Around, of: Place) -> Ask<bool>
    requires suits { Suits (S.state scopes.old).frame around.now }
    requires there { IsThere (S.state scopes.old).frame of }
    ensures reads { Reads (S.state scopes.old) (S.state scopes.new) }
    ensures waits { WhereWaiting result (λ head. Waits (S.state scopes.old) (S.state scopes.new) head) }
    ensures told { WhereTold (S.state scopes.old).frame (λ made.
        WhereKnown result (λ holds. holds ≡ spec_pointer (scene_of (S.state scopes.old).frame made around.now) of)) }
    ensures stops { WhereWaiting result (λ head. StopsAtType (S.state scopes.new) around.now of head) }
{
    let (_, meaning) = known!(stand(scopes, around, of));
    Ask::Known(matches!(meaning, RowMeaning::Pointer(_) | RowMeaning::Opaque))
}

/// Whether two bases are compatible: one base, a whole constant's with INTEGER or CARDINAL, NIL's with a pointer or an
/// opaque type.
#[tactic(auto, using(crate::proofs::Reading::reading))]
fn compatible_bases<S: Scopes>(scopes: &mut S, around: &Around, x: Place, y: Place) -> Ask<bool>
    requires suits { Suits (S.state scopes.old).frame around.now }
    requires x { IsThere (S.state scopes.old).frame x }
    requires y { IsThere (S.state scopes.old).frame y }
    ensures reads { Reads (S.state scopes.old) (S.state scopes.new) }
    ensures waits { WhereWaiting result (λ head. Waits (S.state scopes.old) (S.state scopes.new) head) }
    ensures told { WhereTold (S.state scopes.old).frame (λ made.
        WhereKnown result
        (λ holds. holds ≡ are_compatible_bases (scene_of (S.state scopes.old).frame made around.now) x y)) }
    ensures stops { WhereWaiting result (λ head. StopsAtEither (S.state scopes.new) around.now x y head) }
{
    if x == y {
        return Ask::Known(true);
    }
    if x == WHOLE && is_integer_or_cardinal(y) || y == WHOLE && is_integer_or_cardinal(x) {
        return Ask::Known(true);
    }
    if x == NIL {
        return is_pointer(scopes, around, y);
    }
    if y == NIL {
        return is_pointer(scopes, around, x);
    }
    Ask::Known(false)
}

/// Whether one of two operands, of these bases, is a string of one character, and the other a CHAR that is no string.
fn is_char_beside(x: &Operand, left: Place, y: &Operand, right: Place) -> bool
    ensures { result ≡ (spec_one_char x.now && not (spec_string y.now) && is_same_place right character
        || (spec_one_char y.now && not (spec_string x.now) && is_same_place left character)) }
{
    is_one_char(x) && !is_string(y) && right == CHARACTER
        || is_one_char(y) && !is_string(x) && left == CHARACTER
}

/// The bases of two types.
#[tactic(auto, using(crate::proofs::Reading::reading))]
pub fn bases_of<S: Scopes>(
    scopes: &mut S,
    around: &Around,
    x: Place,
    y: Place,
) -> Ask<(Place, Place)>
    requires suits { Suits (S.state scopes.old).frame around.now }
    requires x { IsThere (S.state scopes.old).frame x }
    requires y { IsThere (S.state scopes.old).frame y }
    ensures reads { Reads (S.state scopes.old) (S.state scopes.new) }
    ensures waits { WhereWaiting result (λ head. Waits (S.state scopes.old) (S.state scopes.new) head) }
    ensures left { WhereTold (S.state scopes.old).frame (λ made.
        WhereKnown result (λ bases. bases.0 ≡ spec_base (scene_of (S.state scopes.old).frame made around.now) x)) }
    ensures right { WhereTold (S.state scopes.old).frame (λ made.
        WhereKnown result (λ bases. bases.1 ≡ spec_base (scene_of (S.state scopes.old).frame made around.now) y)) }
    ensures there { WhereKnown result
        (λ bases. IsThere (S.state scopes.old).frame bases.0 × IsThere (S.state scopes.old).frame bases.1) }
    ensures stops { WhereWaiting result (λ head. StopsAtEither (S.state scopes.new) around.now x y head) }
{
    let left = known!(base_of(scopes, around, x));
    let right = known!(base_of(scopes, around, y));
    Ask::Known((left, right))
}

/// Whether two operands whose types have these bases are compatible: the same base,
/// or one of the other pairs that go together.
#[tactic(auto, using(crate::proofs::Reading::reading))]
pub fn compatible_with<S: Scopes>(
    scopes: &mut S,
    around: &Around,
    x: &Operand,
    left: Place,
    y: &Operand,
    right: Place,
) -> Ask<bool>
    requires suits { Suits (S.state scopes.old).frame around.now }
    requires left { IsThere (S.state scopes.old).frame left }
    requires right { IsThere (S.state scopes.old).frame right }
    ensures reads { Reads (S.state scopes.old) (S.state scopes.new) }
    ensures waits { WhereWaiting result (λ head. Waits (S.state scopes.old) (S.state scopes.new) head) }
    ensures told { WhereTold (S.state scopes.old).frame (λ made.
        WhereKnown result (λ holds. let scene = scene_of (S.state scopes.old).frame made around.now in
        left ≡ spec_base scene (spec_type x.now) → right ≡ spec_base scene (spec_type y.now)
        → holds ≡ is_compatible scene x.now y.now)) }
    ensures stops { WhereWaiting result (λ head. StopsAtEither (S.state scopes.new) around.now left right head) }
{
    if is_char_beside(x, left, y, right) {
        return Ask::Known(true);
    }
    compatible_bases(scopes, around, left, right)
}

/// Whether two operands are compatible.
#[tactic(auto, using(crate::proofs::Reading::reading))]
pub fn compatible<S: Scopes>(scopes: &mut S, around: &Around, x: &Operand, y: &Operand) -> Ask<bool>
    requires suits { Suits (S.state scopes.old).frame around.now }
    requires x { IsOperandThere (S.state scopes.old).frame x.now }
    requires y { IsOperandThere (S.state scopes.old).frame y.now }
    ensures reads { Reads (S.state scopes.old) (S.state scopes.new) }
    ensures waits { WhereWaiting result (λ head. Waits (S.state scopes.old) (S.state scopes.new) head) }
    ensures told { WhereTold (S.state scopes.old).frame (λ made.
        WhereKnown result
        (λ holds. holds ≡ is_compatible (scene_of (S.state scopes.old).frame made around.now) x.now y.now)) }
{
    let (left, right) = known!(bases_of(scopes, around, operand_type(x), operand_type(y)));
    compatible_with(scopes, around, x, left, y, right)
}
