//! When two procedure types are of the same form.
ghost use Rattle.std.specs.Prelude.{◌≡◌, ◌⊎◌, ◌≤◌, ◌<◌, option_map};
ghost use Rattle.std.specs.Option.{IfSome};
ghost use Rattle.m2_base.specs.Rows.{row_meaning, HasSmallNumbers};
ghost use Rattle.m2_base.specs.declared.rows.Place.{Place as Spot};
ghost use Rattle.m2_base.specs.States.{Waits};
ghost use Rattle.m2_base.specs.Statics.SameForm.{is_same_part as spec_same_part};
ghost use Rattle.m2_base.specs.Statics.SameForm.{is_same_parameter_type as spec_same_parameter, are_same_parameters};
ghost use Rattle.m2_base.specs.Statics.SameForm.{is_same_result as spec_same_result};
ghost use Rattle.m2_base.specs.Statics.TypeParts.{Parameter, parameter_of as spec_parameter};
ghost use Rattle.m2_base.specs.Statics.Types.{stands_for as spec_stands, kind_of};
ghost use Rattle.type_rules.specs.Asks.{Reads, WhereKnown, WhereWaiting};
ghost use Rattle.type_rules.specs.Forms.{form_by, are_same_places, same_by as spec_same_by, IsFormHere};
ghost use Rattle.type_rules.specs.Forms.{parameters_from, parameters_by, GoesOn, Progresses, GoesLater, same_forms};
ghost use Rattle.type_rules.specs.Forms.{compared};
ghost use Rattle.type_rules.specs.Scenes.{Suits, IsThere, IsStood, IsStoodHere, scene_of, WhereTold};
ghost use Rattle.type_rules.specs.Standing.{IsShortBefore, StopsAtEither, StopsAtType};

use crate::operands::BROKEN;
use crate::rows::row_at;
use crate::standing::{stand, stands_for};
use m2_base::{Around, Ask, Place, Row, RowMeaning, Scopes, read_row};

/// A procedure type: the place of its row, the ordinal of its first row, and its result.
#[derive(Clone, Copy)]
pub struct Form {
    pub of: Place,
    pub first: u32,
    pub result: Option<Place>,
}

/// A parameter of a procedure type, and the ordinal after its row.
#[derive(Clone, Copy)]
pub struct Formal {
    pub typ: Place,
    pub by_ref: bool,
    pub next: u32,
}

/// One step in the comparison of two lists of parameters: it has ended, or goes on at these ordinals.
#[derive(Clone, Copy)]
enum Compared {
    Ended(bool),
    Next(u32, u32),
}

/// The form of a procedure type; none where a type is none.
#[tactic(auto, using(crate::proofs::Reading::reading))]
pub fn form_of<S: Scopes>(scopes: &mut S, around: &Around, of: Place) -> Ask<Option<Form>>
    requires suits { Suits (S.state scopes.old).frame around.now }
    requires there { IsThere (S.state scopes.old).frame of }
    ensures reads { Reads (S.state scopes.old) (S.state scopes.new) }
    ensures waits { WhereWaiting result (λ head. Waits (S.state scopes.old) (S.state scopes.new) head) }
    ensures told { WhereTold (S.state scopes.old).frame (λ made.
        WhereKnown result (λ form. form ≡ form_by (spec_stands (scene_of (S.state scopes.old).frame made around.now)
        of) (kind_of (scene_of (S.state scopes.old).frame made around.now) of))) }
    ensures here { WhereKnown result (λ form. IfSome form (λ form. IsFormHere (S.state scopes.old).frame form)) }
    ensures stops { WhereWaiting result (λ head. StopsAtType (S.state scopes.new) around.now of head) }
{
    let (stood, meaning) = known!(stand(scopes, around, of));
    match meaning {
        RowMeaning::ProcType(result, _, first) => Ask::Known(Some(Form {
            of: stood,
            first,
            result,
        })),
        _ => Ask::Known(None),
    }
}

/// Whether two types are the same, where a part in error counts as the same.
#[tactic(auto, using(crate::proofs::Reading::reading))]
fn same_part<S: Scopes>(scopes: &mut S, around: &Around, x: Place, y: Place) -> Ask<bool>
    requires suits { Suits (S.state scopes.old).frame around.now }
    requires x { IsThere (S.state scopes.old).frame x }
    requires y { IsThere (S.state scopes.old).frame y }
    ensures reads { Reads (S.state scopes.old) (S.state scopes.new) }
    ensures waits { WhereWaiting result (λ head. Waits (S.state scopes.old) (S.state scopes.new) head) }
    ensures told { WhereTold (S.state scopes.old).frame (λ made.
        WhereKnown result (λ same. same ≡ spec_same_part (scene_of (S.state scopes.old).frame made around.now) x y)) }
    ensures stops { WhereWaiting result (λ head. StopsAtEither (S.state scopes.new) around.now x y head) }
{
    let left = known!(stands_for(scopes, around, x));
    let right = known!(stands_for(scopes, around, y));
    Ask::Known(same_places(left, right))
}

/// What a row says of a parameter of the procedure type whose row has this ordinal.
fn parameter_of(row: &Row, owner: u32) -> Option<(Place, bool)>
    requires { HasSmallNumbers (row_meaning row.now) }
    ensures { option_map (λ p. record { typ = p.0; by_ref = p.1 }) result ≡ spec_parameter owner row.now }
{
    match read_row(row) {
        RowMeaning::Param(typ, by_ref, of) if of == owner => Some((typ, by_ref)),
        _ => None,
    }
}

/// The first parameter of a procedure type from an ordinal on.
#[tactic(auto, using(crate::proofs::Reading::reading))]
pub fn next_parameter<S: Scopes>(
    scopes: &mut S,
    around: &Around,
    of: Place,
    start: u32,
) -> Ask<Option<Formal>>
    requires suits { Suits (S.state scopes.old).frame around.now }
    requires there { IsThere (S.state scopes.old).frame of }
    ensures reads { Reads (S.state scopes.old) (S.state scopes.new) }
    ensures waits { WhereWaiting result (λ head. Waits (S.state scopes.old) (S.state scopes.new) head) }
    ensures told { WhereTold (S.state scopes.old).frame (λ made.
        WhereKnown result (λ formal. parameters_from (scene_of (S.state scopes.old).frame made around.now) of start
        ≡ parameters_by (scene_of (S.state scopes.old).frame made around.now) of formal)) }
    ensures goes_on { WhereKnown result
        (λ formal. IfSome formal (λ formal. GoesOn (S.state scopes.old).frame of start formal)) }
    ensures stops { WhereWaiting result (λ head. IsShortBefore of head) }
{
    for ordinal in start..of.ordinal {
        let place = Place {
            scope: of.scope,
            ordinal,
        };
        let row = known!(row_at(scopes, around, place));
        if let Some((typ, by_ref)) = parameter_of(&row, of.ordinal) {
            return Ask::Known(Some(Formal {
                typ,
                by_ref,
                next: ordinal + 1,
            }));
        }
    }
    Ask::Known(None)
}

/// What two types stand for, and what their rows say.
#[tactic(auto, using(crate::proofs::Reading::reading))]
fn stand_both<S: Scopes>(
    scopes: &mut S,
    around: &Around,
    x: Place,
    y: Place,
) -> Ask<((Place, RowMeaning), (Place, RowMeaning))>
    requires suits { Suits (S.state scopes.old).frame around.now }
    requires x { IsThere (S.state scopes.old).frame x }
    requires y { IsThere (S.state scopes.old).frame y }
    ensures reads { Reads (S.state scopes.old) (S.state scopes.new) }
    ensures waits { WhereWaiting result (λ head. Waits (S.state scopes.old) (S.state scopes.new) head) }
    ensures left { WhereTold (S.state scopes.old).frame (λ made.
        WhereKnown result (λ both. IsStood (scene_of (S.state scopes.old).frame made around.now) x both.0)) }
    ensures right { WhereTold (S.state scopes.old).frame (λ made.
        WhereKnown result (λ both. IsStood (scene_of (S.state scopes.old).frame made around.now) y both.1)) }
    ensures here { WhereKnown result
        (λ both. IsStoodHere (S.state scopes.old).frame both.0 × IsStoodHere (S.state scopes.old).frame both.1) }
    ensures stops { WhereWaiting result (λ head. StopsAtEither (S.state scopes.new) around.now x y head) }
{
    let left = known!(stand(scopes, around, x));
    let right = known!(stand(scopes, around, y));
    Ask::Known((left, right))
}

/// Whether two places are one, or one of them is that of parts in error.
fn same_places(left: Place, right: Place) -> bool
    ensures { result ≡ are_same_places left right }
{
    left == BROKEN || right == BROKEN || left == right
}

/// Whether the types of two parameters are the same, by what they stand for.
#[tactic(auto, using(crate::proofs::Reading::reading))]
fn same_by<S: Scopes>(
    scopes: &mut S,
    around: &Around,
    left: (Place, RowMeaning),
    right: (Place, RowMeaning),
) -> Ask<bool>
    requires suits { Suits (S.state scopes.old).frame around.now }
    requires left { IsStoodHere (S.state scopes.old).frame left }
    requires right { IsStoodHere (S.state scopes.old).frame right }
    ensures reads { Reads (S.state scopes.old) (S.state scopes.new) }
    ensures waits { WhereWaiting result (λ head. Waits (S.state scopes.old) (S.state scopes.new) head) }
    ensures told { WhereTold (S.state scopes.old).frame (λ made.
        WhereKnown result
        (λ same. same ≡ spec_same_by (scene_of (S.state scopes.old).frame made around.now) left right)) }
{
    match (left.1, right.1) {
        (RowMeaning::OpenArray(x), RowMeaning::OpenArray(y)) => same_part(scopes, around, x, y),
        (RowMeaning::OpenArray(_), _) => Ask::Known(right.0 == BROKEN),
        (_, RowMeaning::OpenArray(_)) => Ask::Known(left.0 == BROKEN),
        _ => Ask::Known(same_places(left.0, right.0)),
    }
}

/// Whether the types of two parameters are the same: open arrays are where their element types are.
#[tactic(auto, using(crate::proofs::Reading::reading))]
fn same_parameter<S: Scopes>(scopes: &mut S, around: &Around, x: Place, y: Place) -> Ask<bool>
    requires suits { Suits (S.state scopes.old).frame around.now }
    requires x { IsThere (S.state scopes.old).frame x }
    requires y { IsThere (S.state scopes.old).frame y }
    ensures reads { Reads (S.state scopes.old) (S.state scopes.new) }
    ensures waits { WhereWaiting result (λ head. Waits (S.state scopes.old) (S.state scopes.new) head) }
    ensures told { WhereTold (S.state scopes.old).frame (λ made.
        WhereKnown result
        (λ same. same ≡ spec_same_parameter (scene_of (S.state scopes.old).frame made around.now) x y)) }
{
    let (left, right) = known!(stand_both(scopes, around, x, y));
    same_by(scopes, around, left, right)
}

/// The first parameters of two procedure types from these ordinals on.
#[tactic(auto, using(crate::proofs::Reading::reading))]
fn next_pair<S: Scopes>(
    scopes: &mut S,
    around: &Around,
    x: Place,
    left: u32,
    y: Place,
    right: u32,
) -> Ask<(Option<Formal>, Option<Formal>)>
    requires suits { Suits (S.state scopes.old).frame around.now }
    requires x { IsThere (S.state scopes.old).frame x }
    requires y { IsThere (S.state scopes.old).frame y }
    ensures reads { Reads (S.state scopes.old) (S.state scopes.new) }
    ensures waits { WhereWaiting result (λ head. Waits (S.state scopes.old) (S.state scopes.new) head) }
    ensures left { WhereTold (S.state scopes.old).frame (λ made.
        WhereKnown result (λ pair. parameters_from (scene_of (S.state scopes.old).frame made around.now) x left
        ≡ parameters_by (scene_of (S.state scopes.old).frame made around.now) x pair.0)) }
    ensures right { WhereTold (S.state scopes.old).frame (λ made.
        WhereKnown result (λ pair. parameters_from (scene_of (S.state scopes.old).frame made around.now) y right
        ≡ parameters_by (scene_of (S.state scopes.old).frame made around.now) y pair.1)) }
    ensures left_goes_on { WhereKnown result (λ pair. IfSome pair.0 (GoesOn (S.state scopes.old).frame x left)) }
    ensures right_goes_on { WhereKnown result (λ pair. IfSome pair.1 (GoesOn (S.state scopes.old).frame y right)) }
    ensures stops { WhereWaiting result (λ head. IsShortBefore x head ⊎ IsShortBefore y head) }
{
    let first = known!(next_parameter(scopes, around, x, left));
    let second = known!(next_parameter(scopes, around, y, right));
    Ask::Known((first, second))
}

/// Compares two parameters.
#[tactic(auto, using(crate::proofs::Reading::reading))]
fn compare<S: Scopes>(
    scopes: &mut S,
    around: &Around,
    first: Formal,
    second: Formal,
) -> Ask<Compared>
    requires suits { Suits (S.state scopes.old).frame around.now }
    requires first { IsThere (S.state scopes.old).frame first.typ }
    requires second { IsThere (S.state scopes.old).frame second.typ }
    ensures reads { Reads (S.state scopes.old) (S.state scopes.new) }
    ensures waits { WhereWaiting result (λ head. Waits (S.state scopes.old) (S.state scopes.new) head) }
    ensures told { WhereTold (S.state scopes.old).frame (λ made.
        (x y : Spot) → WhereKnown result (λ step. are_same_parameters (scene_of (S.state scopes.old).frame
        made around.now) (parameters_by (scene_of (S.state scopes.old).frame made around.now) x (Some first))
        (parameters_by (scene_of (S.state scopes.old).frame made around.now) y (Some second))
        ≡ compared (scene_of (S.state scopes.old).frame made around.now) x y step)) }
    ensures next { WhereKnown result (λ step. Progresses first.next step) }
{
    if first.by_ref != second.by_ref {
        return Ask::Known(Compared::Ended(false));
    }
    if known!(same_parameter(scopes, around, first.typ, second.typ)) {
        Ask::Known(Compared::Next(first.next, second.next))
    } else {
        Ask::Known(Compared::Ended(false))
    }
}

/// Compares the first parameters of two procedure types from these ordinals on.
#[tactic(auto, using(crate::proofs::Reading::reading))]
fn compare_next<S: Scopes>(
    scopes: &mut S,
    around: &Around,
    x: Place,
    left: u32,
    y: Place,
    right: u32,
) -> Ask<Compared>
    requires suits { Suits (S.state scopes.old).frame around.now }
    requires x { IsThere (S.state scopes.old).frame x }
    requires y { IsThere (S.state scopes.old).frame y }
    ensures reads { Reads (S.state scopes.old) (S.state scopes.new) }
    ensures waits { WhereWaiting result (λ head. Waits (S.state scopes.old) (S.state scopes.new) head) }
    ensures told { WhereTold (S.state scopes.old).frame (λ made.
        WhereKnown result (λ step. are_same_parameters (scene_of (S.state scopes.old).frame made around.now)
        (parameters_from (scene_of (S.state scopes.old).frame made around.now) x left)
        (parameters_from (scene_of (S.state scopes.old).frame made around.now) y right)
        ≡ compared (scene_of (S.state scopes.old).frame made around.now) x y step)) }
    ensures later { WhereKnown result (λ step. GoesLater left x.ordinal step) }
{
    match known!(next_pair(scopes, around, x, left, y, right)) {
        (Some(first), Some(second)) => compare(scopes, around, first, second),
        (None, None) => Ask::Known(Compared::Ended(true)),
        _ => Ask::Known(Compared::Ended(false)),
    }
}

/// Whether two procedure types have as many parameters, with the same modes and types.
#[tactic(auto, using(crate::proofs::Reading::reading))]
fn same_parameters<S: Scopes>(scopes: &mut S, around: &Around, x: Form, y: Form) -> Ask<bool>
    requires suits { Suits (S.state scopes.old).frame around.now }
    requires x { IsFormHere (S.state scopes.old).frame x }
    requires y { IsFormHere (S.state scopes.old).frame y }
    ensures reads { Reads (S.state scopes.old) (S.state scopes.new) }
    ensures waits { WhereWaiting result (λ head. Waits (S.state scopes.old) (S.state scopes.new) head) }
    ensures told { WhereTold (S.state scopes.old).frame (λ made.
        WhereKnown result (λ same. same ≡ are_same_parameters (scene_of (S.state scopes.old).frame made around.now)
        (parameters_from (scene_of (S.state scopes.old).frame made around.now) x.of x.first)
        (parameters_from (scene_of (S.state scopes.old).frame made around.now) y.of y.first))) }
{
    let mut left = x.first;
    let mut right = y.first;
    'parameters: loop {
        match known!(compare_next(scopes, around, x.of, left, y.of, right)) {
            Compared::Ended(same) => return Ask::Known(same),
            Compared::Next(next_left, next_right) => {
                left = next_left;
                right = next_right;
            }
        }
    }
}

/// Whether two results are the same, or there is none in both.
#[tactic(auto, using(crate::proofs::Reading::reading))]
fn same_result<S: Scopes>(
    scopes: &mut S,
    around: &Around,
    x: Option<Place>,
    y: Option<Place>,
) -> Ask<bool>
    requires suits { Suits (S.state scopes.old).frame around.now }
    requires x { IfSome x (IsThere (S.state scopes.old).frame) }
    requires y { IfSome y (IsThere (S.state scopes.old).frame) }
    ensures reads { Reads (S.state scopes.old) (S.state scopes.new) }
    ensures waits { WhereWaiting result (λ head. Waits (S.state scopes.old) (S.state scopes.new) head) }
    ensures told { WhereTold (S.state scopes.old).frame (λ made.
        WhereKnown result
        (λ same. same ≡ spec_same_result (scene_of (S.state scopes.old).frame made around.now) x y)) }
{
    match (x, y) {
        (None, None) => Ask::Known(true),
        (Some(left), Some(right)) => same_part(scopes, around, left, right),
        _ => Ask::Known(false),
    }
}

/// Whether two procedure types have the same modes, types and result.
#[tactic(auto, using(crate::proofs::Reading::reading))]
pub(crate) fn same_form<S: Scopes>(scopes: &mut S, around: &Around, x: Form, y: Form) -> Ask<bool>
    requires suits { Suits (S.state scopes.old).frame around.now }
    requires x { IsFormHere (S.state scopes.old).frame x }
    requires y { IsFormHere (S.state scopes.old).frame y }
    ensures reads { Reads (S.state scopes.old) (S.state scopes.new) }
    ensures waits { WhereWaiting result (λ head. Waits (S.state scopes.old) (S.state scopes.new) head) }
    ensures told { WhereTold (S.state scopes.old).frame (λ made.
        WhereKnown result (λ same. same ≡ same_forms (scene_of (S.state scopes.old).frame made around.now) x y)) }
{
    if !known!(same_parameters(scopes, around, x, y)) {
        return Ask::Known(false);
    }
    same_result(scopes, around, x.result, y.result)
}

/// The forms of two procedure types.
#[tactic(auto, using(crate::proofs::Reading::reading))]
pub(crate) fn forms_of<S: Scopes>(
    scopes: &mut S,
    around: &Around,
    x: Place,
    y: Place,
) -> Ask<(Option<Form>, Option<Form>)>
    requires suits { Suits (S.state scopes.old).frame around.now }
    requires x { IsThere (S.state scopes.old).frame x }
    requires y { IsThere (S.state scopes.old).frame y }
    ensures reads { Reads (S.state scopes.old) (S.state scopes.new) }
    ensures waits { WhereWaiting result (λ head. Waits (S.state scopes.old) (S.state scopes.new) head) }
    ensures left { WhereTold (S.state scopes.old).frame (λ made.
        WhereKnown result (λ forms. forms.0 ≡ form_by (spec_stands (scene_of (S.state scopes.old).frame made
        around.now) x) (kind_of (scene_of (S.state scopes.old).frame made around.now) x))) }
    ensures right { WhereTold (S.state scopes.old).frame (λ made.
        WhereKnown result (λ forms. forms.1 ≡ form_by (spec_stands (scene_of (S.state scopes.old).frame made
        around.now) y) (kind_of (scene_of (S.state scopes.old).frame made around.now) y))) }
    ensures here { WhereKnown result (λ forms. IfSome forms.0 (IsFormHere (S.state scopes.old).frame)
        × IfSome forms.1 (IsFormHere (S.state scopes.old).frame)) }
    ensures stops { WhereWaiting result (λ head. StopsAtEither (S.state scopes.new) around.now x y head) }
{
    let left = known!(form_of(scopes, around, x));
    let right = known!(form_of(scopes, around, y));
    Ask::Known((left, right))
}
