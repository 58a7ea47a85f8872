//! The row that a type stands for. Inside an implementation module an opaque type of its own definition stands for the
//! type that the module declares under that name.
ghost use Rattle.std.specs.Prelude.{◌≡◌, ◌≢◌, Some};
ghost use Rattle.std.specs.Option.{IfSome};
ghost use Rattle.m2_base.specs.Rows.{row_meaning};
ghost use Rattle.m2_base.specs.States.{Waits};
ghost use Rattle.m2_base.specs.declared.rows.Place.{Place as Spot};
ghost use Rattle.m2_base.specs.Statics.Types.{stands_for as spec_stands, kind_of, meaning_at as spec_meaning};
ghost use Rattle.m2_base.specs.Statics.Types.{opaque_as as spec_opaque, declared_as as spec_declared};
ghost use Rattle.m2_base.specs.Statics.Types.{type_named as spec_named};
ghost use Rattle.type_rules.specs.Asks.{Reads, WhereKnown, WhereWaiting};
ghost use Rattle.type_rules.specs.Scenes.{Suits, IsThere, IsRowOf, IsStoodHere, IsSaid, scene_of, WhereTold};
ghost use Rattle.type_rules.specs.Standing.{IsShortOfNamed, StopsAtName, StopsAtOpaque, StopsAtType, found_or};

use crate::finding::declared;
use crate::rows::{meaning_at, row_at};
use m2_base::{Around, Ask, Place, Row, RowMeaning, Scopes, read_row};

/// What a type stands for, and what its row says.
type Stood = (Place, RowMeaning);

/// The type of a type name's row, unless that is opaque; of any other row none.
#[tactic(auto, using(crate::proofs::Reading::reading))]
fn type_named<S: Scopes>(
    scopes: &mut S,
    around: &Around,
    place: Place,
    row: &Row,
) -> Ask<Option<Stood>>
    requires suits { Suits (S.state scopes.old).frame around.now }
    requires row { IsRowOf (S.state scopes.old).frame place row.now }
    ensures reads { Reads (S.state scopes.old) (S.state scopes.new) }
    ensures waits { WhereWaiting result (λ head. Waits (S.state scopes.old) (S.state scopes.new) head) }
    ensures told { WhereTold (S.state scopes.old).frame (λ made.
        WhereKnown result (λ found. (of : Spot) → found_or of found
        ≡ spec_named (scene_of (S.state scopes.old).frame made around.now) of (row_meaning row.now))) }
    ensures meant { WhereTold (S.state scopes.old).frame (λ made.
        WhereKnown result (λ found. IfSome found
        (λ stood. stood.1 ≡ spec_meaning (scene_of (S.state scopes.old).frame made around.now) stood.0))) }
    ensures here { WhereKnown result (λ found. IfSome found (IsStoodHere (S.state scopes.old).frame)) }
    ensures stops { WhereWaiting result (λ head. IsShortOfNamed row.now head) }
    ensures looks { (S.state scopes.new).looks ≡ (S.state scopes.old).looks }
{
    let _place = place.scope;
    let RowMeaning::TypeName(named) = read_row(row) else {
        return Ask::Known(None);
    };
    match known!(meaning_at(scopes, around, named)) {
        RowMeaning::Opaque => Ask::Known(None),
        meaning => Ask::Known(Some((named, meaning))),
    }
}

/// The type that the module has declared under this name, if it has.
#[tactic(auto, using(crate::proofs::Reading::reading))]
fn declared_as<S: Scopes>(scopes: &mut S, around: &Around, name: u32) -> Ask<Option<Stood>>
    requires suits { Suits (S.state scopes.old).frame around.now }
    ensures reads { Reads (S.state scopes.old) (S.state scopes.new) }
    ensures waits { WhereWaiting result (λ head. Waits (S.state scopes.old) (S.state scopes.new) head) }
    ensures told { WhereTold (S.state scopes.old).frame (λ made.
        WhereKnown result (λ found. (of : Spot)
        → found_or of found ≡ spec_declared (scene_of (S.state scopes.old).frame made around.now) of name)) }
    ensures meant { WhereTold (S.state scopes.old).frame (λ made.
        WhereKnown result (λ found. IfSome found
        (λ stood. stood.1 ≡ spec_meaning (scene_of (S.state scopes.old).frame made around.now) stood.0))) }
    ensures here { WhereKnown result (λ found. IfSome found (IsStoodHere (S.state scopes.old).frame)) }
    ensures stops { WhereWaiting result (λ head. StopsAtName (S.state scopes.new) around.now.module name head) }
{
    if name == 0 {
        return Ask::Known(None);
    }
    match known!(declared(scopes, around, name)) {
        Some((place, row)) => type_named(scopes, around, place, &row),
        None => Ask::Known(None),
    }
}

/// The type for which an opaque one stands, if it doesn't stand for itself: its name stands in the row after its own.
#[tactic(auto, using(crate::proofs::Reading::reading))]
fn opaque_as<S: Scopes>(scopes: &mut S, around: &Around, of: Place) -> Ask<Option<Stood>>
    requires suits { Suits (S.state scopes.old).frame around.now }
    requires there { IsThere (S.state scopes.old).frame of }
    ensures reads { Reads (S.state scopes.old) (S.state scopes.new) }
    ensures waits { WhereWaiting result (λ head. Waits (S.state scopes.old) (S.state scopes.new) head) }
    ensures told { WhereTold (S.state scopes.old).frame (λ made.
        WhereKnown result (λ found.
        found_or of found ≡ spec_opaque (scene_of (S.state scopes.old).frame made around.now) of around.now.own)) }
    ensures meant { WhereTold (S.state scopes.old).frame (λ made.
        WhereKnown result (λ found. IfSome found
        (λ stood. stood.1 ≡ spec_meaning (scene_of (S.state scopes.old).frame made around.now) stood.0))) }
    ensures here { WhereKnown result (λ found. IfSome found (IsStoodHere (S.state scopes.old).frame)) }
    ensures stops { WhereWaiting result (λ head. StopsAtOpaque (S.state scopes.new) around.now of head) }
{
    if around.own != Some(of.scope) {
        return Ask::Known(None);
    }
    let Some(ordinal) = of.ordinal.checked_add(1) else {
        return Ask::Known(None);
    };
    let after = Place {
        scope: of.scope,
        ordinal,
    };
    let row = known!(row_at(scopes, around, after));
    declared_as(scopes, around, row.name)
}

/// What a type stands for, and what its row says.
#[tactic(auto, using(crate::proofs::Reading::reading))]
pub fn stand<S: Scopes>(scopes: &mut S, around: &Around, of: Place) -> Ask<(Place, RowMeaning)>
    requires suits { Suits (S.state scopes.old).frame around.now }
    requires there { IsThere (S.state scopes.old).frame of }
    ensures reads { Reads (S.state scopes.old) (S.state scopes.new) }
    ensures waits { WhereWaiting result (λ head. Waits (S.state scopes.old) (S.state scopes.new) head) }
    ensures told { WhereTold (S.state scopes.old).frame (λ made.
        WhereKnown result (λ stood. stood.0 ≡ spec_stands (scene_of (S.state scopes.old).frame made around.now) of)) }
    ensures kind { WhereTold (S.state scopes.old).frame (λ made.
        WhereKnown result (λ stood. stood.1 ≡ kind_of (scene_of (S.state scopes.old).frame made around.now) of)) }
    ensures there { WhereKnown result (λ stood. IsThere (S.state scopes.old).frame stood.0) }
    ensures said { WhereKnown result (λ stood. IsSaid (S.state scopes.old).frame stood.0 stood.1) }
    ensures stops { WhereWaiting result (λ head. StopsAtType (S.state scopes.new) around.now of head) }
{
    match known!(meaning_at(scopes, around, of)) {
        RowMeaning::Opaque => match known!(opaque_as(scopes, around, of)) {
            Some(stood) => Ask::Known(stood),
            None => Ask::Known((of, RowMeaning::Opaque)),
        },
        meaning => Ask::Known((of, meaning)),
    }
}

/// What a type stands for.
#[tactic(auto, using(crate::proofs::Reading::reading))]
pub(crate) fn stands_for<S: Scopes>(scopes: &mut S, around: &Around, of: Place) -> Ask<Place>
    requires suits { Suits (S.state scopes.old).frame around.now }
    requires there { IsThere (S.state scopes.old).frame of }
    ensures reads { Reads (S.state scopes.old) (S.state scopes.new) }
    ensures waits { WhereWaiting result (λ head. Waits (S.state scopes.old) (S.state scopes.new) head) }
    ensures told { WhereTold (S.state scopes.old).frame (λ made.
        WhereKnown result (λ stood. stood ≡ spec_stands (scene_of (S.state scopes.old).frame made around.now) of)) }
    ensures there { WhereKnown result (λ stood. IsThere (S.state scopes.old).frame stood) }
    ensures stops { WhereWaiting result (λ head. StopsAtType (S.state scopes.new) around.now of head) }
{
    let (stood, _) = known!(stand(scopes, around, of));
    Ask::Known(stood)
}
