//! What the row of a type says that isn't ordinal.
ghost use Rattle.std.specs.Prelude.{◌≡◌};
ghost use Rattle.std.specs.Option.{IfSome};
ghost use Rattle.m2_base.specs.Standard.{broken};
ghost use Rattle.m2_base.specs.States.{Waits};
ghost use Rattle.m2_base.specs.Statics.Types.{is_broken as spec_broken, kind_of, stands_for};
ghost use Rattle.const_eval.specs.Structures.{set_row_by};
ghost use Rattle.type_rules.specs.Asks.{Reads, WhereKnown, WhereWaiting};
ghost use Rattle.type_rules.specs.Scenes.{Suits, IsThere, scene_of, WhereTold};
ghost use Rattle.type_rules.specs.Standing.{StopsAtEither, StopsAtType};

use m2_base::{Around, Ask, Place, RowMeaning, Scopes};
use type_rules::{BROKEN, same, stand};

/// Whether a type is that of parts in error, by what it stands for; of such a type rules have nothing more to say. It
/// waits for the row of what the type stands for.
#[tactic(auto, using(type_rules::proofs::Reading::reading, crate::proofs::TypesThere::there))]
pub fn is_broken<S: Scopes>(scopes: &mut S, around: &Around, of: Place) -> Ask<bool>
    requires suits { Suits (S.state scopes.old).frame around.now }
    requires there { IsThere (S.state scopes.old).frame of }
    ensures reads { Reads (S.state scopes.old) (S.state scopes.new) }
    ensures waits { WhereWaiting result (λ head. Waits (S.state scopes.old) (S.state scopes.new) head) }
    ensures told { WhereTold (S.state scopes.old).frame (λ made.
        WhereKnown result (λ holds. holds ≡ spec_broken (scene_of (S.state scopes.old).frame made around.now) of)) }
    ensures stops { WhereWaiting result (λ head. StopsAtEither (S.state scopes.new) around.now of broken head) }
{
    same(scopes, around, of, BROKEN)
}

/// The place and the base of the row of a set type; none where a type is no set.
#[tactic(auto, using(type_rules::proofs::Reading::reading))]
pub(crate) fn set_row<S: Scopes>(
    scopes: &mut S,
    around: &Around,
    of: Place,
) -> Ask<Option<(Place, Place)>>
    requires suits { Suits (S.state scopes.old).frame around.now }
    requires there { IsThere (S.state scopes.old).frame of }
    ensures reads { Reads (S.state scopes.old) (S.state scopes.new) }
    ensures waits { WhereWaiting result (λ head. Waits (S.state scopes.old) (S.state scopes.new) head) }
    ensures told { WhereTold (S.state scopes.old).frame (λ made.
        WhereKnown result (λ row. let scene = scene_of (S.state scopes.old).frame made around.now in
        row ≡ set_row_by (stands_for scene of) (kind_of scene of))) }
    ensures there { WhereKnown result (λ row.
        IfSome row (λ row. IsThere (S.state scopes.old).frame row.0 × IsThere (S.state scopes.old).frame row.1)) }
    ensures stops { WhereWaiting result (λ head. StopsAtType (S.state scopes.new) around.now of head) }
{
    match known!(stand(scopes, around, of)) {
        (place, RowMeaning::Set(base)) => Ask::Known(Some((place, base))),
        _ => Ask::Known(None),
    }
}
