//! The base and the range of a type.
ghost use Rattle.std.specs.Prelude.{◌≡◌, ℕ, option_map};
ghost use Rattle.std.specs.Option.{IfSome};
ghost use Rattle.m2_base.specs.Rows.{Fits, IsValue};
ghost use Rattle.m2_base.specs.declared.rows.Place.{Place as Spot};
ghost use Rattle.m2_base.specs.States.{Frame, Waits};
ghost use Rattle.m2_base.specs.Statics.Ranges.{range};
ghost use Rattle.m2_base.specs.Statics.Types.{base_by as spec_base_by, base_of as spec_base, range_by as spec_by};
ghost use Rattle.m2_base.specs.Statics.Types.{range_of as spec_range};
ghost use Rattle.type_rules.specs.Asks.{Reads, WhereKnown, WhereWaiting};
ghost use Rattle.type_rules.specs.Scenes.{IsSaid, Suits, IsThere, scene_of, WhereTold};
ghost use Rattle.type_rules.specs.Standing.{StopsAtType};

use crate::standing::stand;
use m2_base::{
    Around, Ask, GREATEST_CARDINAL, GREATEST_CHARACTER, GREATEST_INTEGER, LEAST_INTEGER, Place,
    RowMeaning, Scopes,
};

/// The base of a type that stands for this one, by what its row says.
pub fn base_by(stood: Place, meaning: RowMeaning) -> Place
    ensures base { result ≡ spec_base_by stood meaning }
    ensures there { (f : Frame) → IsThere f stood → IsSaid f stood meaning → IsThere f result }
{
    match meaning {
        RowMeaning::Subrange(base, _, _) => base,
        _ => stood,
    }
}

/// The base of a subrange; any other type is its own base.
#[tactic(auto, using(crate::proofs::Reading::reading))]
pub fn base_of<S: Scopes>(scopes: &mut S, around: &Around, of: Place) -> Ask<Place>
    requires suits { Suits (S.state scopes.old).frame around.now }
    requires there { IsThere (S.state scopes.old).frame of }
    ensures reads { Reads (S.state scopes.old) (S.state scopes.new) }
    ensures waits { WhereWaiting result (λ head. Waits (S.state scopes.old) (S.state scopes.new) head) }
    ensures told { WhereTold (S.state scopes.old).frame (λ made.
        WhereKnown result (λ base. base ≡ spec_base (scene_of (S.state scopes.old).frame made around.now) of)) }
    ensures there { WhereKnown result (λ base. IsThere (S.state scopes.old).frame base) }
    ensures stops { WhereWaiting result (λ head. StopsAtType (S.state scopes.new) around.now of head) }
{
    let (stood, meaning) = known!(stand(scopes, around, of));
    Ask::Known(base_by(stood, meaning))
}

/// The least and the greatest value of an ordinal type, by what its row says.
pub fn range_by(meaning: RowMeaning) -> Option<(i64, i64)>
    ensures ends { option_map (λ ends. range ends.0 ends.1) result ≡ spec_by meaning }
    ensures values { (names : ℕ) (p : Spot) → Fits names p meaning
        → IfSome result (λ ends. IsValue ends.0 × IsValue ends.1) }
{
    match meaning {
        RowMeaning::Integer => Some((LEAST_INTEGER, GREATEST_INTEGER)),
        RowMeaning::Cardinal => Some((0, GREATEST_CARDINAL)),
        RowMeaning::Character => Some((0, GREATEST_CHARACTER)),
        RowMeaning::Enum(count) => Some((0, count.saturating_sub(1) as i64)),
        RowMeaning::Subrange(_, low, high) => Some((low, high)),
        _ => None,
    }
}

/// The least and the greatest value of an ordinal type; none where a type isn't ordinal.
#[tactic(auto, using(crate::proofs::Reading::reading))]
pub fn range_of<S: Scopes>(scopes: &mut S, around: &Around, of: Place) -> Ask<Option<(i64, i64)>>
    requires suits { Suits (S.state scopes.old).frame around.now }
    requires there { IsThere (S.state scopes.old).frame of }
    ensures reads { Reads (S.state scopes.old) (S.state scopes.new) }
    ensures waits { WhereWaiting result (λ head. Waits (S.state scopes.old) (S.state scopes.new) head) }
    ensures told { WhereTold (S.state scopes.old).frame (λ made.
        WhereKnown result (λ ends. option_map (λ ends. range ends.0 ends.1) ends
        ≡ spec_range (scene_of (S.state scopes.old).frame made around.now) of)) }
    ensures values { WhereKnown result (λ ends. IfSome ends (λ ends. IsValue ends.0 × IsValue ends.1)) }
    ensures stops { WhereWaiting result (λ head. StopsAtType (S.state scopes.new) around.now of head) }
{
    let (_, meaning) = known!(stand(scopes, around, of));
    Ask::Known(range_by(meaning))
}
