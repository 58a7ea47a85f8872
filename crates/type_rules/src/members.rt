//! The parts of a type: the fields of a record, and the index type and the elements of an array.
ghost use Rattle.std.specs.Prelude.{◌≡◌, ◌≤◌, find};
ghost use Rattle.std.specs.Option.{IfSome};
ghost use Rattle.m2_base.specs.Rows.{row_meaning, HasSmallNumbers};
ghost use Rattle.m2_base.specs.States.{Waits};
ghost use Rattle.m2_base.specs.Statics.TypeParts.{field_of as spec_field, index_of as spec_index};
ghost use Rattle.m2_base.specs.Statics.TypeParts.{is_field as spec_is_field, rows_between};
ghost use Rattle.type_rules.specs.Asks.{Reads, WhereKnown, WhereWaiting};
ghost use Rattle.type_rules.specs.Members.{IsFieldThere};
ghost use Rattle.type_rules.specs.Scenes.{Suits, IsThere, IsHere, scene_of, WhereTold};

use crate::rows::row_at;
use crate::standing::{stand, stands_for};
use m2_base::{Around, Ask, Place, Row, RowMeaning, Scopes, read_row};

/// The row of an array; none where a type is no array.
#[tactic(auto, using(crate::proofs::Reading::reading))]
pub fn index_of<S: Scopes>(scopes: &mut S, around: &Around, of: Place) -> Ask<Option<Row>>
    requires suits { Suits (S.state scopes.old).frame around.now }
    requires there { IsThere (S.state scopes.old).frame of }
    ensures reads { Reads (S.state scopes.old) (S.state scopes.new) }
    ensures waits { WhereWaiting result (λ head. Waits (S.state scopes.old) (S.state scopes.new) head) }
    ensures told { WhereTold (S.state scopes.old).frame (λ made.
        WhereKnown result (λ row. row ≡ spec_index (scene_of (S.state scopes.old).frame made around.now) of)) }
    ensures here { WhereKnown result (λ row. IfSome row (λ row. IsHere (S.state scopes.old).frame row)) }
{
    let stood = known!(stands_for(scopes, around, of));
    let row = known!(row_at(scopes, around, stood));
    match read_row(&row) {
        RowMeaning::Array(..) => Ask::Known(Some(row)),
        _ => Ask::Known(None),
    }
}

/// Whether a row is a field of this name, of the record whose row has this ordinal.
fn is_field(row: &Row, of: u32, name: u32) -> bool
    requires { HasSmallNumbers (row_meaning row.now) }
    ensures { result ≡ spec_is_field of name row.now }
{
    match read_row(row) {
        RowMeaning::Field(_, _, owner, field) => owner == of && field == name,
        _ => false,
    }
}

/// The field of a name among the rows of a record from the first on, gone over one after another.
#[tactic(auto, using(crate::proofs::Reading::reading))]
fn walk_to_field<S: Scopes>(
    scopes: &mut S,
    around: &Around,
    of: Place,
    first: u32,
    name: u32,
) -> Ask<Option<Row>>
    requires suits { Suits (S.state scopes.old).frame around.now }
    requires there { IsThere (S.state scopes.old).frame of }
    ensures reads { Reads (S.state scopes.old) (S.state scopes.new) }
    ensures waits { WhereWaiting result (λ head. Waits (S.state scopes.old) (S.state scopes.new) head) }
    ensures told { WhereTold (S.state scopes.old).frame (λ made.
        WhereKnown result (λ row. row ≡ find (spec_is_field of.ordinal name)
        (rows_between (scene_of (S.state scopes.old).frame made around.now) of.scope first of.ordinal))) }
    ensures here { WhereKnown result (λ row. IfSome row (λ row. IsHere (S.state scopes.old).frame row)) }
    ensures typed { WhereKnown result
        (λ row. IfSome row (λ row. IsFieldThere (S.state scopes.old).frame (row_meaning row))) }
{
    for ordinal in first..of.ordinal {
        let place = Place {
            scope: of.scope,
            ordinal,
        };
        let row = known!(row_at(scopes, around, place));
        if is_field(&row, of.ordinal, name) {
            return Ask::Known(Some(row));
        }
    }
    Ask::Known(None)
}

/// The field of a name among the rows of a record, the first of which has an ordinal that isn't above the record's.
#[tactic(auto, using(crate::proofs::Reading::reading))]
fn field_among<S: Scopes>(
    scopes: &mut S,
    around: &Around,
    of: Place,
    first: u32,
    name: u32,
) -> Ask<Option<Row>>
    requires suits { Suits (S.state scopes.old).frame around.now }
    requires there { IsThere (S.state scopes.old).frame of }
    ensures reads { Reads (S.state scopes.old) (S.state scopes.new) }
    ensures waits { WhereWaiting result (λ head. Waits (S.state scopes.old) (S.state scopes.new) head) }
    ensures told { WhereTold (S.state scopes.old).frame (λ made.
        WhereKnown result (λ row. row ≡ find (spec_is_field of.ordinal name)
        (rows_between (scene_of (S.state scopes.old).frame made around.now) of.scope first of.ordinal))) }
    ensures here { WhereKnown result (λ row. IfSome row (λ row. IsHere (S.state scopes.old).frame row)) }
    ensures typed { WhereKnown result
        (λ row. IfSome row (λ row. IsFieldThere (S.state scopes.old).frame (row_meaning row))) }
{
    let Some((ordinal, row)) = known!(scopes.select(of, name)) else {
        return Ask::Known(None);
    };
    if ordinal < first {
        // No declaration makes a field that stands before the rows of its record.
        return walk_to_field(scopes, around, of, first, name);
    }
    Ask::Known(Some(row))
}

/// The row of a record's field of this name; none where a type is no record or has no such field.
#[tactic(auto, using(crate::proofs::Reading::reading))]
pub fn field_of<S: Scopes>(
    scopes: &mut S,
    around: &Around,
    of: Place,
    name: u32,
) -> Ask<Option<Row>>
    requires suits { Suits (S.state scopes.old).frame around.now }
    requires there { IsThere (S.state scopes.old).frame of }
    ensures reads { Reads (S.state scopes.old) (S.state scopes.new) }
    ensures waits { WhereWaiting result (λ head. Waits (S.state scopes.old) (S.state scopes.new) head) }
    ensures told { WhereTold (S.state scopes.old).frame (λ made.
        WhereKnown result (λ row. row ≡ spec_field (scene_of (S.state scopes.old).frame made around.now) of name)) }
    ensures here { WhereKnown result (λ row. IfSome row (λ row. IsHere (S.state scopes.old).frame row)) }
    ensures typed { WhereKnown result
        (λ row. IfSome row (λ row. IsFieldThere (S.state scopes.old).frame (row_meaning row))) }
{
    let (stood, meaning) = known!(stand(scopes, around, of));
    match meaning {
        RowMeaning::Record(first, _) => field_among(scopes, around, stood, first, name),
        _ => Ask::Known(None),
    }
}
