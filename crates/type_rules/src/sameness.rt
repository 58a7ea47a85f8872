//! When two types are the same.
ghost use Rattle.std.specs.Prelude.{◌≡◌};
ghost use Rattle.m2_base.specs.States.{Waits};
ghost use Rattle.m2_base.specs.Statics.Types.{is_same};
ghost use Rattle.type_rules.specs.Asks.{Reads, WhereKnown, WhereWaiting};
ghost use Rattle.type_rules.specs.Scenes.{Suits, IsThere, scene_of, WhereTold};
ghost use Rattle.type_rules.specs.Standing.{StopsAtEither};

use crate::standing::stands_for;
use m2_base::{Around, Ask, Place, Scopes};

/// Whether two types are the same: they are one row.
#[tactic(auto, using(crate::proofs::Reading::reading))]
pub fn same<S: Scopes>(scopes: &mut S, around: &Around, x: Place, y: Place) -> Ask<bool>
    requires suits { Suits (S.state scopes.old).frame around.now }
    requires x { IsThere (S.state scopes.old).frame x }
    requires y { IsThere (S.state scopes.old).frame y }
    ensures reads { Reads (S.state scopes.old) (S.state scopes.new) }
    ensures waits { WhereWaiting result (λ head. Waits (S.state scopes.old) (S.state scopes.new) head) }
    ensures told { WhereTold (S.state scopes.old).frame (λ made.
        WhereKnown result (λ same. same ≡ is_same (scene_of (S.state scopes.old).frame made around.now) x y)) }
    ensures stops { WhereWaiting result (λ head. StopsAtEither (S.state scopes.new) around.now x y head) }
{
    let left = known!(stands_for(scopes, around, x));
    let right = known!(stands_for(scopes, around, y));
    Ask::Known(left == right)
}
