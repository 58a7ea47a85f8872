//! When the types of two headings are of the same form.
ghost use Rattle.std.specs.Prelude.{◌≡◌, ◌&&◌, is_none};
ghost use Rattle.m2_base.specs.States.{Waits};
ghost use Rattle.m2_base.specs.Statics.SameForm.{is_same_form};
ghost use Rattle.type_rules.specs.Asks.{Reads, WhereKnown, WhereWaiting};
ghost use Rattle.type_rules.specs.Forms.{IsFormHere, is_bare as spec_is_bare};
ghost use Rattle.type_rules.specs.Scenes.{Suits, IsThere, scene_of, WhereTold};
ghost use Rattle.type_rules.specs.Standing.{IsShortBefore};

use crate::forms::{Form, Formal, forms_of, next_parameter, same_form};
use m2_base::{Around, Ask, Place, Scopes};

/// Whether there is neither a parameter nor a result.
fn is_nothing(first: Option<Formal>, of: Option<Place>) -> bool
    ensures { result ≡ (is_none first && is_none of) }
{
    first.is_none() && of.is_none()
}

/// Whether a procedure type has neither parameters nor a result.
#[tactic(auto, using(crate::proofs::Reading::reading))]
fn is_bare<S: Scopes>(scopes: &mut S, around: &Around, form: Form) -> Ask<bool>
    requires suits { Suits (S.state scopes.old).frame around.now }
    requires form { IsFormHere (S.state scopes.old).frame form }
    ensures reads { Reads (S.state scopes.old) (S.state scopes.new) }
    ensures waits { WhereWaiting result (λ head. Waits (S.state scopes.old) (S.state scopes.new) head) }
    ensures told { WhereTold (S.state scopes.old).frame (λ made.
        WhereKnown result (λ bare. bare ≡ spec_is_bare (scene_of (S.state scopes.old).frame made around.now) form)) }
    ensures stops { WhereWaiting result (λ head. IsShortBefore form.of head) }
{
    let first = known!(next_parameter(scopes, around, form.of, form.first));
    Ask::Known(is_nothing(first, form.result))
}

/// Whether two types have the same modes, types and result. A type that is no procedure type has none of them.
#[tactic(auto, using(crate::proofs::Reading::reading))]
pub fn has_same_form<S: Scopes>(scopes: &mut S, around: &Around, x: Place, y: Place) -> Ask<bool>
    requires suits { Suits (S.state scopes.old).frame around.now }
    requires x { IsThere (S.state scopes.old).frame x }
    requires y { IsThere (S.state scopes.old).frame y }
    ensures reads { Reads (S.state scopes.old) (S.state scopes.new) }
    ensures waits { WhereWaiting result (λ head. Waits (S.state scopes.old) (S.state scopes.new) head) }
    ensures told { WhereTold (S.state scopes.old).frame (λ made.
        WhereKnown result (λ same. same ≡ is_same_form (scene_of (S.state scopes.old).frame made around.now) x y)) }
{
    match known!(forms_of(scopes, around, x, y)) {
        (Some(left), Some(right)) => same_form(scopes, around, left, right),
        (Some(left), None) => is_bare(scopes, around, left),
        (None, Some(right)) => is_bare(scopes, around, right),
        (None, None) => Ask::Known(true),
    }
}
