//! The cells of a type.
ghost use Rattle.std.specs.Prelude.{◌≡◌, ◌<◌, ◌^◌};
ghost use Rattle.m2_base.specs.States.{Waits};
ghost use Rattle.m2_base.specs.Statics.Types.{size_of as spec_size};
ghost use Rattle.type_rules.specs.Asks.{Reads, WhereKnown, WhereWaiting};
ghost use Rattle.type_rules.specs.Scenes.{Suits, IsThere, scene_of, WhereTold};
ghost use Rattle.type_rules.specs.Standing.{StopsAtType};

use crate::standing::stand;
use m2_base::{Around, Ask, Place, RowMeaning, Scopes};

/// How many cells a variable of a type takes.
#[tactic(auto, using(crate::proofs::Reading::reading))]
pub fn size_of<S: Scopes>(scopes: &mut S, around: &Around, of: Place) -> Ask<u64>
    requires suits { Suits (S.state scopes.old).frame around.now }
    requires there { IsThere (S.state scopes.old).frame of }
    ensures reads { Reads (S.state scopes.old) (S.state scopes.new) }
    ensures waits { WhereWaiting result (λ head. Waits (S.state scopes.old) (S.state scopes.new) head) }
    ensures told { WhereTold (S.state scopes.old).frame (λ made.
        WhereKnown result (λ size. size ≡ spec_size (scene_of (S.state scopes.old).frame made around.now) of)) }
    ensures small { WhereKnown result (λ size. size < 2 ^ 32) }
    ensures stops { WhereWaiting result (λ head. StopsAtType (S.state scopes.new) around.now of head) }
{
    let (_, meaning) = known!(stand(scopes, around, of));
    match meaning {
        RowMeaning::Array(_, _, size) | RowMeaning::Record(_, size) => Ask::Known(size as u64),
        _ => Ask::Known(1),
    }
}
