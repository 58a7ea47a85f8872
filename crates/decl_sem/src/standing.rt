//! What a type is, whose row may be in hand.
ghost use Rattle.std.specs.Prelude.{◌≡◌, ◌<◌, ◌≤◌, ◌-◌, ◌==◌, ◌&&◌, []};
ghost use Rattle.m2_base.specs.Rows.{HasSmallNumbers};
ghost use Rattle.m2_base.specs.States.{Waits};
ghost use Rattle.m2_base.specs.Statics.Types.{meaning_at as spec_meaning_at};
ghost use Rattle.decl_sem.specs.Making.{next_ordinal};
ghost use Rattle.decl_sem.specs.Hands.{held_meaning as spec_meaning, is_held as spec_held};
ghost use Rattle.decl_sem.specs.Pieces.{IsBehind, IsMaking, WhereMaking};
ghost use Rattle.type_rules.specs.Asks.{Reads, WhereKnown, WhereWaiting};
ghost use Rattle.type_rules.specs.Scenes.{IsSaid, IsStood, scene_of};

use crate::making::Made;
use crate::names::small_place;
use m2_base::{Ask, Place, RowMeaning, Scopes, Site, read_row};
use type_rules::{meaning_at, stand};

/// Whether the row at a place is in hand.
fn is_held(site: &Site, made: &Made, of: Place) -> bool
    ensures { result ≡ spec_held site.now.around.now.scope made.now.first of }
{
    of.scope == site.around.scope && of.ordinal >= made.first
}

/// What a row in hand says.
fn held_meaning(made: &Made, of: Place) -> RowMeaning
    requires first { made.now.first ≤ of.ordinal }
    requires within { of.ordinal < next_ordinal made.now }
    requires small { HasSmallNumbers (spec_meaning made.now of) }
    ensures { result ≡ spec_meaning made.now of }
{
    let rows = made.rows.list();
    read_row(&rows[(of.ordinal - made.first) as usize])
}

/// What the row at a place says.
pub(crate) fn meaning_in<S: Scopes>(
    scopes: &mut S,
    site: &Site,
    made: &Made,
    of: Place,
) -> Ask<RowMeaning>
    requires making { IsMaking (S.state scopes.old).frame site.now made.now [] }
    requires there { IsBehind (S.state scopes.old).frame (next_ordinal made.now) of }
    ensures reads { Reads (S.state scopes.old) (S.state scopes.new) }
    ensures waits { WhereWaiting result (λ head. Waits (S.state scopes.old) (S.state scopes.new) head) }
    ensures told { WhereMaking (S.state scopes.old).frame made.now (λ hand.
        WhereKnown result
        (λ meaning. meaning ≡ spec_meaning_at (scene_of (S.state scopes.old).frame hand site.now.around.now) of)) }
{
    if is_held(site, made, of) {
        return Ask::Known(held_meaning(made, of));
    }
    meaning_at(scopes, site.around, of)
}

/// What a type stands for, and what its row says.
pub(crate) fn stand_in<S: Scopes>(
    scopes: &mut S,
    site: &Site,
    made: &Made,
    of: Place,
) -> Ask<(Place, RowMeaning)>
    requires making { IsMaking (S.state scopes.old).frame site.now made.now [] }
    requires there { IsBehind (S.state scopes.old).frame (next_ordinal made.now) of }
    ensures reads { Reads (S.state scopes.old) (S.state scopes.new) }
    ensures waits { WhereWaiting result (λ head. Waits (S.state scopes.old) (S.state scopes.new) head) }
    ensures told { WhereMaking (S.state scopes.old).frame made.now (λ hand.
        WhereKnown result (λ stood. IsStood (scene_of (S.state scopes.old).frame hand site.now.around.now) of stood)) }
    ensures there { WhereKnown result (λ stood. IsBehind (S.state scopes.old).frame (next_ordinal made.now) stood.0) }
    ensures said { WhereKnown result (λ stood. IsSaid (S.state scopes.old).frame stood.0 stood.1) }
{
    if is_held(site, made, of) {
        let meaning = held_meaning(made, of);
        return Ask::Known((of, meaning));
    }
    let stood = known!(stand(scopes, site.around, of));
    let place = small_place(stood.0);
    Ask::Known((place, stood.1))
}
