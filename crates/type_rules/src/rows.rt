//! The row of a type, and what it says.
ghost use Rattle.std.specs.Prelude.{◌≡◌, ◌<◌, ◌≤◌, length, slice_get};
ghost use Rattle.std.specs.Option.{IfSome};
ghost use Rattle.m2_base.specs.Rows.{row_meaning};
ghost use Rattle.m2_base.specs.States.{Waits, fills_of};
ghost use Rattle.m2_base.specs.Statics.Contexts.{row_at as spec_row};
ghost use Rattle.m2_base.specs.Tables.{rows_at};
ghost use Rattle.type_rules.specs.Asks.{Reads, WhereKnown, WhereWaiting};
ghost use Rattle.type_rules.specs.Scenes.{Suits, IsThere, IsSaid, IsRowOf, rows_of, WhereTold};

use m2_base::{Around, Ask, Place, Row, RowMeaning, Scopes, read_row, write_row};

/// The row at a place; one that is missing is as Broken.
#[tactic(auto, using(crate::proofs::Reading::reading))]
pub fn row_at<S: Scopes>(scopes: &mut S, around: &Around, place: Place) -> Ask<Row>
    requires suits { Suits (S.state scopes.old).frame around.now }
    requires there { IsThere (S.state scopes.old).frame place }
    ensures reads { Reads (S.state scopes.old) (S.state scopes.new) }
    ensures waits { WhereWaiting result (λ head. Waits (S.state scopes.old) (S.state scopes.new) head) }
    ensures told { WhereTold (S.state scopes.old).frame (λ made.
        WhereKnown result (λ row. row ≡ spec_row (rows_of (S.state scopes.old).frame made) place)) }
    ensures row { WhereKnown result (λ row. IsRowOf (S.state scopes.old).frame place row) }
    ensures of { WhereWaiting result (λ head. head.scope ≡ place.scope) }
    ensures stops { WhereWaiting result (λ head. head.count ≤ place.ordinal) }
    ensures looks { (S.state scopes.new).looks ≡ (S.state scopes.old).looks }
{
    let _scope = around.scope;
    match scopes.fetch(0, place) {
        Ask::Known(Some(row)) => Ask::Known(row),
        Ask::Known(None) => Ask::Known(write_row(0, 0, RowMeaning::Broken)),
        Ask::DontKnowYet(head) => Ask::DontKnowYet(head),
    }
}

/// The row at a place of a scope before the own one; none past the scope's end.
pub fn row_before<S: Scopes>(scopes: &mut S, around: &Around, place: Place) -> Ask<Option<Row>>
    requires suits { Suits (S.state scopes.old).frame around.now }
    requires before { place.scope < fills_of (S.state scopes.old) }
    ensures reads { Reads (S.state scopes.old) (S.state scopes.new) }
    ensures waits { WhereWaiting result (λ head. Waits (S.state scopes.old) (S.state scopes.new) head) }
    ensures told { WhereTold (S.state scopes.old).frame (λ made.
        WhereKnown result
        (λ row. row ≡ slice_get (rows_at (rows_of (S.state scopes.old).frame made) place.scope) place.ordinal)) }
    ensures row { WhereKnown result (λ row. IfSome row (λ row. IsRowOf (S.state scopes.old).frame place row)) }
    ensures named { WhereKnown result
        (λ row. IfSome row (λ row. row.name < length (S.state scopes.old).frame.setting.texts.names)) }
    ensures of { WhereWaiting result (λ head. head.scope ≡ place.scope) }
    ensures stops { WhereWaiting result (λ head. head.count ≤ place.ordinal) }
{
    let _scope = around.scope;
    scopes.fetch(0, place)
}

/// What the row at a place says.
#[tactic(auto, using(crate::proofs::Reading::reading))]
pub fn meaning_at<S: Scopes>(scopes: &mut S, around: &Around, place: Place) -> Ask<RowMeaning>
    requires suits { Suits (S.state scopes.old).frame around.now }
    requires there { IsThere (S.state scopes.old).frame place }
    ensures reads { Reads (S.state scopes.old) (S.state scopes.new) }
    ensures waits { WhereWaiting result (λ head. Waits (S.state scopes.old) (S.state scopes.new) head) }
    ensures told { WhereTold (S.state scopes.old).frame (λ made.
        WhereKnown result
        (λ meaning. meaning ≡ row_meaning (spec_row (rows_of (S.state scopes.old).frame made) place))) }
    ensures said { WhereKnown result (λ meaning. IsSaid (S.state scopes.old).frame place meaning) }
    ensures of { WhereWaiting result (λ head. head.scope ≡ place.scope) }
    ensures stops { WhereWaiting result (λ head. head.count ≤ place.ordinal) }
    ensures looks { (S.state scopes.new).looks ≡ (S.state scopes.old).looks }
{
    let row = known!(row_at(scopes, around, place));
    Ask::Known(read_row(&row))
}
