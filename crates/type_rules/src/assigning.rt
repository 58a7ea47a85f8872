//! When an operand can be assigned to a variable of a type.
ghost use Rattle.std.specs.Prelude.{◌≡◌, option_map};
ghost use Rattle.std.specs.Option.{IfSome};
ghost use Rattle.m2_base.specs.Rows.{IsValue};
ghost use Rattle.m2_base.specs.States.{Waits};
ghost use Rattle.m2_base.specs.Statics.Assignable.{is_assignable, takes as spec_takes};
ghost use Rattle.m2_base.specs.Statics.Assignable.{takes_procedure as spec_takes_procedure};
ghost use Rattle.m2_base.specs.Statics.Assignable.{takes_string as spec_takes_string};
ghost use Rattle.m2_base.specs.Statics.Assignable.{is_open_array as spec_open_array};
ghost use Rattle.m2_base.specs.Statics.Assignable.{is_long_enough as spec_long_enough};
ghost use Rattle.m2_base.specs.Statics.Ranges.{range};
ghost use Rattle.m2_base.specs.Statics.Types.{stands_for as spec_stands, kind_of};
ghost use Rattle.type_rules.specs.Asks.{Reads, WhereKnown, WhereWaiting};
ghost use Rattle.type_rules.specs.Assigning.{takes_char as spec_takes_char, takes_text as spec_takes_text};
ghost use Rattle.type_rules.specs.Assigning.{takes_value as spec_takes_value, takes_other as spec_takes_other};
ghost use Rattle.type_rules.specs.Assigning.{takes_closed as spec_takes_closed, array_takes};
ghost use Rattle.type_rules.specs.Scenes.{Suits, IsThere, IsOperandThere, IsSaid, scene_of, WhereTold};
ghost use Rattle.type_rules.specs.Standing.{StopsAtType};

use crate::compatibility::{bases_of, compatible};
use crate::forms::{forms_of, same_form};
use crate::operands::{CHARACTER, is_integer_or_cardinal, operand_type};
use crate::ordinals::{base_of, range_of};
use crate::sameness::same;
use crate::standing::stand;
use m2_base::{Around, Ask, Operand, Place, RowMeaning, Scopes};

/// Whether a type is an open array.
#[tactic(auto, using(crate::proofs::Reading::reading))]
pub fn is_open_array<S: Scopes>(scopes: &mut S, around: &Around, of: Place) -> Ask<bool>
    requires suits { Suits (S.state scopes.old).frame around.now }
    requires there { IsThere (S.state scopes.old).frame of }
    ensures reads { Reads (S.state scopes.old) (S.state scopes.new) }
    ensures waits { WhereWaiting result (λ head. Waits (S.state scopes.old) (S.state scopes.new) head) }
    ensures told { WhereTold (S.state scopes.old).frame (λ made.
        WhereKnown result
        (λ holds. holds ≡ spec_open_array (scene_of (S.state scopes.old).frame made around.now) of)) }
    ensures stops { WhereWaiting result (λ head. StopsAtType (S.state scopes.new) around.now of head) }
{
    let (_, meaning) = known!(stand(scopes, around, of));
    Ask::Known(matches!(meaning, RowMeaning::OpenArray(_)))
}

/// Whether both are procedure types, of the same form.
#[tactic(auto, using(crate::proofs::Reading::reading))]
fn takes_procedure<S: Scopes>(scopes: &mut S, around: &Around, to: Place, of: Place) -> Ask<bool>
    requires suits { Suits (S.state scopes.old).frame around.now }
    requires to { IsThere (S.state scopes.old).frame to }
    requires of { IsThere (S.state scopes.old).frame of }
    ensures reads { Reads (S.state scopes.old) (S.state scopes.new) }
    ensures waits { WhereWaiting result (λ head. Waits (S.state scopes.old) (S.state scopes.new) head) }
    ensures told { WhereTold (S.state scopes.old).frame (λ made.
        WhereKnown result
        (λ holds. holds ≡ spec_takes_procedure (scene_of (S.state scopes.old).frame made around.now) to of)) }
{
    let (left, right) = known!(forms_of(scopes, around, to, of));
    let Some(left) = left else {
        return Ask::Known(false);
    };
    let Some(right) = right else {
        return Ask::Known(false);
    };
    same_form(scopes, around, left, right)
}

/// Whether an array with this range of indices has room for so many characters.
fn is_long_enough(length: u32, ends: Option<(i64, i64)>) -> bool
    requires { IfSome ends (λ ends. IsValue ends.0 × IsValue ends.1) }
    ensures { result ≡ spec_long_enough length (option_map (λ ends. range ends.0 ends.1) ends) }
{
    let Some((low, high)) = ends else {
        return false;
    };
    if high < low {
        return length == 0;
    }
    length as i64 <= high - low + 1
}

/// Whether an array has room for a string of this length: it is one of CHAR, at least as long.
#[tactic(auto, using(crate::proofs::Reading::reading))]
fn takes_string<S: Scopes>(
    scopes: &mut S,
    around: &Around,
    length: u32,
    index: Place,
    of: Place,
) -> Ask<bool>
    requires suits { Suits (S.state scopes.old).frame around.now }
    requires index { IsThere (S.state scopes.old).frame index }
    requires of { IsThere (S.state scopes.old).frame of }
    ensures reads { Reads (S.state scopes.old) (S.state scopes.new) }
    ensures waits { WhereWaiting result (λ head. Waits (S.state scopes.old) (S.state scopes.new) head) }
    ensures told { WhereTold (S.state scopes.old).frame (λ made.
        WhereKnown result
        (λ holds. holds ≡ array_takes (scene_of (S.state scopes.old).frame made around.now) length index of)) }
{
    if !known!(same(scopes, around, of, CHARACTER)) {
        return Ask::Known(false);
    }
    let ends = known!(range_of(scopes, around, index));
    Ask::Known(is_long_enough(length, ends))
}

/// Whether a variable takes a string of this length by its row: it is an array that has room for it.
#[tactic(auto, using(crate::proofs::Reading::reading))]
fn array_takes<S: Scopes>(scopes: &mut S, around: &Around, to: Place, length: u32) -> Ask<bool>
    requires suits { Suits (S.state scopes.old).frame around.now }
    requires to { IsThere (S.state scopes.old).frame to }
    ensures reads { Reads (S.state scopes.old) (S.state scopes.new) }
    ensures waits { WhereWaiting result (λ head. Waits (S.state scopes.old) (S.state scopes.new) head) }
    ensures told { WhereTold (S.state scopes.old).frame (λ made.
        WhereKnown result (λ holds. holds ≡ spec_takes_string (scene_of (S.state scopes.old).frame made around.now)
        length (kind_of (scene_of (S.state scopes.old).frame made around.now) to))) }
{
    let (_, meaning) = known!(stand(scopes, around, to));
    match meaning {
        RowMeaning::Array(index, of, _) => takes_string(scopes, around, length, index, of),
        _ => Ask::Known(false),
    }
}

/// Whether a string of this length is one character and a variable a CHAR.
#[tactic(auto, using(crate::proofs::Reading::reading))]
fn takes_char<S: Scopes>(scopes: &mut S, around: &Around, to: Place, length: u32) -> Ask<bool>
    requires suits { Suits (S.state scopes.old).frame around.now }
    requires to { IsThere (S.state scopes.old).frame to }
    ensures reads { Reads (S.state scopes.old) (S.state scopes.new) }
    ensures waits { WhereWaiting result (λ head. Waits (S.state scopes.old) (S.state scopes.new) head) }
    ensures told { WhereTold (S.state scopes.old).frame (λ made.
        WhereKnown result
        (λ holds. holds ≡ spec_takes_char (scene_of (S.state scopes.old).frame made around.now) to length)) }
{
    if length != 1 {
        return Ask::Known(false);
    }
    let base = known!(base_of(scopes, around, to));
    Ask::Known(base == CHARACTER)
}

/// Whether a variable takes a string of this length: of one character it is a CHAR or an array, of more an array.
#[tactic(auto, using(crate::proofs::Reading::reading))]
fn takes_text<S: Scopes>(scopes: &mut S, around: &Around, to: Place, length: u32) -> Ask<bool>
    requires suits { Suits (S.state scopes.old).frame around.now }
    requires to { IsThere (S.state scopes.old).frame to }
    ensures reads { Reads (S.state scopes.old) (S.state scopes.new) }
    ensures waits { WhereWaiting result (λ head. Waits (S.state scopes.old) (S.state scopes.new) head) }
    ensures told { WhereTold (S.state scopes.old).frame (λ made.
        WhereKnown result
        (λ holds. holds ≡ spec_takes_text (scene_of (S.state scopes.old).frame made around.now) to length)) }
{
    if known!(takes_char(scopes, around, to, length)) {
        return Ask::Known(true);
    }
    array_takes(scopes, around, to, length)
}

/// Whether INTEGER and CARDINAL meet, or two procedure types of the same form.
#[tactic(auto, using(crate::proofs::Reading::reading))]
fn takes_other<S: Scopes>(scopes: &mut S, around: &Around, to: Place, of: Place) -> Ask<bool>
    requires suits { Suits (S.state scopes.old).frame around.now }
    requires to { IsThere (S.state scopes.old).frame to }
    requires of { IsThere (S.state scopes.old).frame of }
    ensures reads { Reads (S.state scopes.old) (S.state scopes.new) }
    ensures waits { WhereWaiting result (λ head. Waits (S.state scopes.old) (S.state scopes.new) head) }
    ensures told { WhereTold (S.state scopes.old).frame (λ made.
        WhereKnown result
        (λ holds. holds ≡ spec_takes_other (scene_of (S.state scopes.old).frame made around.now) to of)) }
{
    let (left, right) = known!(bases_of(scopes, around, to, of));
    if is_integer_or_cardinal(left) && is_integer_or_cardinal(right) {
        return Ask::Known(true);
    }
    takes_procedure(scopes, around, to, of)
}

/// Whether a variable takes an operand that is compatible, or a number or a procedure type's.
#[tactic(auto, using(crate::proofs::Reading::reading))]
fn takes_value<S: Scopes>(
    scopes: &mut S,
    around: &Around,
    to: Place,
    operand: &Operand,
) -> Ask<bool>
    requires suits { Suits (S.state scopes.old).frame around.now }
    requires to { IsThere (S.state scopes.old).frame to }
    requires operand { IsOperandThere (S.state scopes.old).frame operand.now }
    ensures reads { Reads (S.state scopes.old) (S.state scopes.new) }
    ensures waits { WhereWaiting result (λ head. Waits (S.state scopes.old) (S.state scopes.new) head) }
    ensures told { WhereTold (S.state scopes.old).frame (λ made.
        WhereKnown result
        (λ holds. holds ≡ spec_takes_value (scene_of (S.state scopes.old).frame made around.now) to operand.now)) }
{
    if known!(compatible(scopes, around, operand, &Operand::Computed(to))) {
        return Ask::Known(true);
    }
    takes_other(scopes, around, to, operand_type(operand))
}

/// Whether a variable takes a value: it is no open array.
#[tactic(auto, using(crate::proofs::Reading::reading))]
fn takes_closed<S: Scopes>(
    scopes: &mut S,
    around: &Around,
    to: Place,
    operand: &Operand,
) -> Ask<bool>
    requires suits { Suits (S.state scopes.old).frame around.now }
    requires to { IsThere (S.state scopes.old).frame to }
    requires operand { IsOperandThere (S.state scopes.old).frame operand.now }
    ensures reads { Reads (S.state scopes.old) (S.state scopes.new) }
    ensures waits { WhereWaiting result (λ head. Waits (S.state scopes.old) (S.state scopes.new) head) }
    ensures told { WhereTold (S.state scopes.old).frame (λ made.
        WhereKnown result
        (λ holds. holds ≡ spec_takes_closed (scene_of (S.state scopes.old).frame made around.now) to operand.now)) }
{
    if known!(is_open_array(scopes, around, operand_type(operand))) {
        return Ask::Known(false);
    }
    takes_value(scopes, around, to, operand)
}

/// Whether a variable of a type that is no open array takes an operand.
#[tactic(auto, using(crate::proofs::Reading::reading))]
fn takes<S: Scopes>(scopes: &mut S, around: &Around, to: Place, operand: &Operand) -> Ask<bool>
    requires suits { Suits (S.state scopes.old).frame around.now }
    requires to { IsThere (S.state scopes.old).frame to }
    requires operand { IsOperandThere (S.state scopes.old).frame operand.now }
    ensures reads { Reads (S.state scopes.old) (S.state scopes.new) }
    ensures waits { WhereWaiting result (λ head. Waits (S.state scopes.old) (S.state scopes.new) head) }
    ensures told { WhereTold (S.state scopes.old).frame (λ made.
        WhereKnown result
        (λ holds. holds ≡ spec_takes (scene_of (S.state scopes.old).frame made around.now) to operand.now)) }
{
    match *operand {
        Operand::Procedure(_, of, _, _) => takes_procedure(scopes, around, to, of),
        Operand::StringConstant(_, length) => takes_text(scopes, around, to, length),
        _ => takes_closed(scopes, around, to, operand),
    }
}

/// Whether an operand can be assigned to a variable of a type.
#[tactic(auto, using(crate::proofs::Reading::reading))]
pub fn assignable<S: Scopes>(
    scopes: &mut S,
    around: &Around,
    to: Place,
    operand: &Operand,
) -> Ask<bool>
    requires suits { Suits (S.state scopes.old).frame around.now }
    requires to { IsThere (S.state scopes.old).frame to }
    requires operand { IsOperandThere (S.state scopes.old).frame operand.now }
    ensures reads { Reads (S.state scopes.old) (S.state scopes.new) }
    ensures waits { WhereWaiting result (λ head. Waits (S.state scopes.old) (S.state scopes.new) head) }
    ensures told { WhereTold (S.state scopes.old).frame (λ made.
        WhereKnown result
        (λ holds. holds ≡ is_assignable (scene_of (S.state scopes.old).frame made around.now) to operand.now)) }
{
    if known!(is_open_array(scopes, around, to)) {
        return Ask::Known(false);
    }
    takes(scopes, around, to, operand)
}
