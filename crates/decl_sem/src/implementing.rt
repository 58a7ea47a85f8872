//! How an implementation module implements what its definition promises.
ghost use Rattle.std.specs.Prelude.{◌≡◌, ◌≢◌, ◌||◌, is_some, true};
ghost use Rattle.std.specs.Option.{IfSome};
ghost use Rattle.m2_base.specs.Rows.{is_same_place, row_meaning};
ghost use Rattle.m2_base.specs.Standard.{broken};
ghost use Rattle.m2_base.specs.States.{Waits};
ghost use Rattle.m2_base.specs.Statics.Closing.{implemented as spec_implemented, implements_heading};
ghost use Rattle.m2_base.specs.Statics.Closing.{implements_opaque as spec_opaque, is_opaque_before as spec_before};
ghost use Rattle.m2_base.specs.Statics.Closing.{type_implemented as spec_type};
ghost use Rattle.m2_base.specs.Statics.Types.{meaning_at as spec_meaning, range_by as spec_range};
ghost use Rattle.type_rules.specs.Asks.{Reads, WhereKnown, WhereWaiting};
ghost use Rattle.type_rules.specs.Scenes.{IsRowOf, IsThere, Suits, WhereTold, scene_of};
ghost use Rattle.decl_sem.specs.Implementing.{implemented_view};

use m2_base::{Around, Ask, Place, Row, RowMeaning, Scopes, read_row};
use type_rules::{BROKEN, entry_of_module, has_same_form, meaning_at, range_by, stand};

/// How a row of the definition is implemented: it is, or nothing does, or the heading of the procedure at this token
/// differs.
#[derive(Clone, Copy)]
pub(crate) enum Implemented {
    Fully,
    Missing,
    Differs(u32),
}

/// Whether a type with this meaning is ordinal.
fn is_ordinal(meaning: RowMeaning) -> bool
    ensures { result ≡ is_some (spec_range meaning) }
{
    match range_by(meaning) {
        Some(_) => true,
        None => false,
    }
}

/// Whether what a type stands for is scalar, or in error.
fn is_scalar(stood: Place, meaning: RowMeaning) -> bool
    ensures { result ≡ (is_same_place stood broken || is_some (spec_range meaning)) }
{
    stood == BROKEN || is_ordinal(meaning)
}

/// Whether a type can implement an opaque one: it is scalar, a set or a pointer, or in error.
#[tactic(auto, using(type_rules::proofs::Reading::reading))]
fn implements_opaque<S: Scopes>(scopes: &mut S, around: &Around, of: Place) -> Ask<bool>
    requires suits { Suits (S.state scopes.old).frame around.now }
    requires there { IsThere (S.state scopes.old).frame of }
    ensures reads { Reads (S.state scopes.old) (S.state scopes.new) }
    ensures waits { WhereWaiting result (λ head. Waits (S.state scopes.old) (S.state scopes.new) head) }
    ensures told { WhereTold (S.state scopes.old).frame (λ made.
        WhereKnown result (λ holds. holds ≡ spec_opaque (scene_of (S.state scopes.old).frame made around.now) of
        (spec_meaning (scene_of (S.state scopes.old).frame made around.now) of))) }
{
    match known!(meaning_at(scopes, around, of)) {
        RowMeaning::Opaque => Ask::Known(false),
        RowMeaning::Set(_) | RowMeaning::Pointer(_) => Ask::Known(true),
        _ => {
            let (stood, meaning) = known!(stand(scopes, around, of));
            Ask::Known(is_scalar(stood, meaning))
        }
    }
}

/// How an opaque type is implemented by the row that the module has of its name: by a type alone.
#[tactic(auto, using(type_rules::proofs::Reading::reading))]
fn type_implemented<S: Scopes>(
    scopes: &mut S,
    around: &Around,
    entry: Option<(Place, Row)>,
) -> Ask<Implemented>
    requires suits { Suits (S.state scopes.old).frame around.now }
    requires row { IfSome entry (λ entry. IsRowOf (S.state scopes.old).frame entry.0 entry.1) }
    ensures reads { Reads (S.state scopes.old) (S.state scopes.new) }
    ensures waits { WhereWaiting result (λ head. Waits (S.state scopes.old) (S.state scopes.new) head) }
    ensures told { WhereTold (S.state scopes.old).frame (λ made.
        WhereKnown result
        (λ how. implemented_view how ≡ spec_type (scene_of (S.state scopes.old).frame made around.now) entry)) }
{
    let Some((_, row)) = entry else {
        return Ask::Known(Implemented::Missing);
    };
    let RowMeaning::TypeName(of) = read_row(&row) else {
        return Ask::Known(Implemented::Missing);
    };
    if known!(implements_opaque(scopes, around, of)) {
        Ask::Known(Implemented::Fully)
    } else {
        Ask::Known(Implemented::Missing)
    }
}

/// How a heading is implemented by the row that the module has of its name: by a procedure of the same form.
#[tactic(auto, using(type_rules::proofs::Reading::reading))]
fn heading_implemented<S: Scopes>(
    scopes: &mut S,
    around: &Around,
    heading: Place,
    entry: Option<(Place, Row)>,
) -> Ask<Implemented>
    requires suits { Suits (S.state scopes.old).frame around.now }
    requires there { IsThere (S.state scopes.old).frame heading }
    requires row { IfSome entry (λ entry. IsRowOf (S.state scopes.old).frame entry.0 entry.1) }
    ensures reads { Reads (S.state scopes.old) (S.state scopes.new) }
    ensures waits { WhereWaiting result (λ head. Waits (S.state scopes.old) (S.state scopes.new) head) }
    ensures told { WhereTold (S.state scopes.old).frame (λ made.
        WhereKnown result (λ how. implemented_view how
        ≡ implements_heading (scene_of (S.state scopes.old).frame made around.now) heading entry)) }
{
    let Some((_, row)) = entry else {
        return Ask::Known(Implemented::Missing);
    };
    let RowMeaning::Proc(of, _, _) = read_row(&row) else {
        return Ask::Known(Implemented::Missing);
    };
    if known!(has_same_form(scopes, around, heading, of)) {
        Ask::Known(Implemented::Fully)
    } else {
        Ask::Known(Implemented::Differs(row.at))
    }
}

/// Whether this type is an opaque one whose name stands in the row at this place: in the row after its own.
#[tactic(auto, using(type_rules::proofs::Reading::reading))]
fn is_opaque_before<S: Scopes>(
    scopes: &mut S,
    around: &Around,
    place: Place,
    of: Place,
) -> Ask<bool>
    requires suits { Suits (S.state scopes.old).frame around.now }
    requires there { IsThere (S.state scopes.old).frame of }
    ensures reads { Reads (S.state scopes.old) (S.state scopes.new) }
    ensures waits { WhereWaiting result (λ head. Waits (S.state scopes.old) (S.state scopes.new) head) }
    ensures told { WhereTold (S.state scopes.old).frame (λ made.
        WhereKnown result (λ holds. holds ≡ spec_before (scene_of (S.state scopes.old).frame made around.now)
        place.scope place.ordinal of (spec_meaning (scene_of (S.state scopes.old).frame made around.now) of))) }
{
    let meaning = known!(meaning_at(scopes, around, of));
    let next = of.scope == place.scope && of.ordinal as u64 + 1 == place.ordinal as u64;
    Ask::Known(next && matches!(meaning, RowMeaning::Opaque))
}

/// How the module implements a named row of its definition, which stands at this place.
#[tactic(auto, using(type_rules::proofs::Reading::reading))]
pub(crate) fn implementation_of<S: Scopes>(
    scopes: &mut S,
    around: &Around,
    place: Place,
    row: &Row,
) -> Ask<Implemented>
    requires suits { Suits (S.state scopes.old).frame around.now }
    requires complete { (S.state scopes.old).frame.closed ≡ true }
    requires row { IsRowOf (S.state scopes.old).frame place row.now }
    requires named { row.now.name ≢ 0 }
    ensures reads { Reads (S.state scopes.old) (S.state scopes.new) }
    ensures waits { WhereWaiting result (λ head. Waits (S.state scopes.old) (S.state scopes.new) head) }
    ensures told { WhereTold (S.state scopes.old).frame (λ made.
        WhereKnown result (λ how. implemented_view how ≡ spec_implemented (scene_of (S.state scopes.old).frame made
        around.now) place.scope place.ordinal row.now.name (row_meaning row.now))) }
{
    match read_row(row) {
        RowMeaning::TypeName(of) => {
            if !known!(is_opaque_before(scopes, around, place, of)) {
                return Ask::Known(Implemented::Fully);
            }
            let entry = known!(entry_of_module(scopes, around, row.name));
            type_implemented(scopes, around, entry)
        }
        RowMeaning::Proc(heading, _, _) => {
            let entry = known!(entry_of_module(scopes, around, row.name));
            heading_implemented(scopes, around, heading, entry)
        }
        _ => Ask::Known(Implemented::Fully),
    }
}
