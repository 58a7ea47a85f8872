//! The search for a name in the scopes of a chain.
ghost use Rattle.std.specs.Prelude.{◌≡◌, ◌≢◌};
ghost use Rattle.std.specs.Option.{IfSome};
ghost use Rattle.m2_base.specs.Lists.{IsIn, WhereLast};
ghost use Rattle.m2_base.specs.States.{Waits, fills_of};
ghost use Rattle.m2_base.specs.Tables.{Lacks, lookup};
ghost use Rattle.m2_base.specs.declared.replies.Reply.TheVariants.{DontKnowYet as Unknown};
ghost use Rattle.type_rules.specs.Asks.{WhereKnown, WhereWaiting};
ghost use Rattle.type_rules.specs.Scenes.{Suits, IsRowOf, rows_of, WhereTold};
ghost use Rattle.type_rules.specs.Sites.{CanLook, IsLookFor, IsWithin, Looked};

use m2_base::{Around, Ask, Place, Reply, Row, Scopes};

/// The first row of a name in the scopes of a chain. What the own scope has not yet is answered as nothing.
pub(crate) fn look_up<S: Scopes>(
    scopes: &mut S,
    around: &Around,
    chain: &[u32],
    name: u32,
    at: u32,
) -> Ask<Option<(Place, Row)>>
    requires suits { Suits (S.state scopes.old).frame around.now }
    requires chain { CanLook (S.state scopes.old).frame chain.now }
    requires named { name ≢ 0 }
    ensures looked { Looked (S.state scopes.old) (S.state scopes.new) at name result }
    ensures waits { WhereWaiting result (λ head. Waits (S.state scopes.old) (S.state scopes.new) head) }
    ensures asked { WhereWaiting result
        (λ head. WhereLast (S.state scopes.new).looks (IsLookFor at name chain.now (Unknown head))) }
    ensures told { WhereTold (S.state scopes.old).frame (λ made.
        (IsIn (fills_of (S.state scopes.old)) chain.now → Lacks made.rows name) →
        WhereKnown result (λ entry. entry ≡ lookup (rows_of (S.state scopes.old).frame made) chain.now name)) }
    ensures row { WhereKnown result
        (λ entry. IfSome entry (λ entry. IsRowOf (S.state scopes.old).frame entry.0 entry.1)) }
    ensures within { WhereKnown result (λ entry. IfSome entry (λ entry. IsWithin chain.now entry.0)) }
{
    match scopes.search(at, chain, name) {
        Reply::Found(place, row) => Ask::Known(Some((place, row))),
        Reply::Absent => Ask::Known(None),
        Reply::DontKnowYet(head) if head.scope == around.scope => Ask::Known(None),
        Reply::DontKnowYet(head) => Ask::DontKnowYet(head),
    }
}
