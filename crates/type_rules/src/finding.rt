//! The type that a module declares under a name.
ghost use Rattle.std.specs.Prelude.{◌≡◌, ◌≢◌, ◌≤◌, ◌∷◌, [], true};
ghost use Rattle.std.specs.Option.{IfSome};
ghost use Rattle.m2_base.specs.Lists.{WhereLast};
ghost use Rattle.m2_base.specs.States.{Waits};
ghost use Rattle.m2_base.specs.Statics.Lookup.{entry_in};
ghost use Rattle.m2_base.specs.Statics.Types.{named_or};
ghost use Rattle.m2_base.specs.declared.replies.Reply.TheVariants.{Found};
ghost use Rattle.m2_base.specs.declared.rows.Place.{Place as Spot};
ghost use Rattle.type_rules.specs.Asks.{Reads, WhereKnown, WhereWaiting};
ghost use Rattle.type_rules.specs.Scenes.{Suits, IsRowOf, WhereTold, rows_of, scene_of};
ghost use Rattle.type_rules.specs.Sites.{IsLookFor};
ghost use Rattle.type_rules.specs.Standing.{StopsSearch};

use m2_base::{Around, Ask, Place, Reply, Row, Scopes};

/// The first row of the module's scope that has a name. What the own scope has not yet is answered as nothing: no row
/// in hand is that of a type.
#[tactic(auto, using(crate::proofs::Reading::reading))]
pub(crate) fn declared<S: Scopes>(
    scopes: &mut S,
    around: &Around,
    name: u32,
) -> Ask<Option<(Place, Row)>>
    requires suits { Suits (S.state scopes.old).frame around.now }
    requires named { name ≢ 0 }
    ensures reads { Reads (S.state scopes.old) (S.state scopes.new) }
    ensures waits { WhereWaiting result (λ head. Waits (S.state scopes.old) (S.state scopes.new) head) }
    ensures told { WhereTold (S.state scopes.old).frame (λ made.
        WhereKnown result (λ entry. (t : Spot) → named_or (scene_of (S.state scopes.old).frame made around.now) t entry
        ≡ named_or (scene_of (S.state scopes.old).frame made around.now) t
        (entry_in (rows_of (S.state scopes.old).frame made) around.now.module name))) }
    ensures row { WhereKnown result
        (λ entry. IfSome entry (λ entry. IsRowOf (S.state scopes.old).frame entry.0 entry.1)) }
    ensures found { WhereKnown result (λ entry. IfSome entry (λ entry.
        WhereLast (S.state scopes.new).looks (IsLookFor 0 name (around.now.module ∷ []) (Found entry.0 entry.1)))) }
    ensures stops { WhereWaiting result (λ head. StopsSearch (S.state scopes.new) around.now.module name head) }
{
    match scopes.search(0, &[around.module], name) {
        Reply::Found(place, row) => Ask::Known(Some((place, row))),
        Reply::Absent => Ask::Known(None),
        Reply::DontKnowYet(head) if head.scope == around.scope => Ask::Known(None),
        Reply::DontKnowYet(head) => Ask::DontKnowYet(head),
    }
}

/// The first row of the module's scope that has a name, where the own scope is complete.
#[tactic(auto, using(crate::proofs::Reading::reading))]
pub fn entry_of_module<S: Scopes>(
    scopes: &mut S,
    around: &Around,
    name: u32,
) -> Ask<Option<(Place, Row)>>
    requires suits { Suits (S.state scopes.old).frame around.now }
    requires complete { (S.state scopes.old).frame.closed ≡ true }
    requires named { name ≢ 0 }
    ensures reads { Reads (S.state scopes.old) (S.state scopes.new) }
    ensures waits { WhereWaiting result (λ head. Waits (S.state scopes.old) (S.state scopes.new) head) }
    ensures told { WhereTold (S.state scopes.old).frame (λ made.
        WhereKnown result
        (λ entry. entry ≡ entry_in (rows_of (S.state scopes.old).frame made) around.now.module name)) }
    ensures row { WhereKnown result
        (λ entry. IfSome entry (λ entry. IsRowOf (S.state scopes.old).frame entry.0 entry.1)) }
    ensures stops { WhereWaiting result (λ head. StopsSearch (S.state scopes.new) around.now.module name head) }
{
    match scopes.search(0, &[around.module], name) {
        Reply::Found(place, row) => Ask::Known(Some((place, row))),
        Reply::Absent => Ask::Known(None),
        Reply::DontKnowYet(head) => Ask::DontKnowYet(head),
    }
}
