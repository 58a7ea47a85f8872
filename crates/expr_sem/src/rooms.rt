//! NEW and DISPOSE of a pointer.
ghost use Rattle.std.specs.Prelude.{◌≡◌, true};
ghost use Rattle.m2_base.specs.Gives.{gives};
ghost use Rattle.m2_base.specs.States.{State, Waits};
ghost use Rattle.m2_base.specs.Statics.TypeParts.{target_of as spec_target};
ghost use Rattle.m2_base.specs.declared.notes.Notes.{Notes as NotesOf};
ghost use Rattle.m2_base.specs.declared.sites.Site.{Site as SiteOf};
ghost use Rattle.expr_sem.specs.Codings.{Coding, IsCoded, coded_in};
ghost use Rattle.expr_sem.specs.Fragments.{IsIn};
ghost use Rattle.block_code.specs.StandardProcedures.{disposed as spec_disposed, new_room as spec_new};
ghost use Rattle.type_rules.specs.Asks.{Reads, WhereKnown, WhereWaiting};
ghost use Rattle.type_rules.specs.Scenes.{IsThere, Suits, WhereTold, scene_of};
ghost use Rattle.type_rules.specs.Sites.{SuitsSite};

use crate::answers::answered_as;
use crate::chains::{instr_behind, pair};
use crate::coded::Coded;
use crate::elements::{cells_of, target_named};
use crate::fragments::Fragments;
use crate::updates::NO_VALUE;
use code_form::Instr;
use const_eval::{is_bad, is_broken};
use m2_base::{Around, Ask, Memory, Place, RowMeaning, Scopes, Site};
use type_rules::{BROKEN, operand_type, stand};

/// The type that a pointer type leads to, which may be declared later: the own scope is complete.
#[tactic(auto, using(type_rules::proofs::Reading::reading, const_eval::proofs::TypesThere::there))]
fn target_of<S: Scopes>(scopes: &mut S, around: &Around, of: Place) -> Ask<Place>
    requires suits { Suits (S.state scopes.old).frame around.now }
    requires of { IsThere (S.state scopes.old).frame of }
    requires closed { (S.state scopes.old).frame.closed ≡ true }
    ensures reads { Reads (S.state scopes.old) (S.state scopes.new) }
    ensures waits { WhereWaiting result (λ head. Waits (S.state scopes.old) (S.state scopes.new) head) }
    ensures told { WhereTold (S.state scopes.old).frame (λ made.
        WhereKnown result (λ target. target ≡ spec_target (scene_of (S.state scopes.old).frame made around.now) of)) }
    ensures there { WhereKnown result (λ target. IsThere (S.state scopes.old).frame target) }
{
    let (_, meaning) = known!(stand(scopes, around, of));
    match meaning {
        RowMeaning::Pointer(to) => target_named(scopes, around, to),
        _ => Ask::Known(BROKEN),
    }
}

/// NEW of a pointer, unless it is in error or what it points to is. Only statements ask for it; elsewhere the error is
/// that memory is wanted, which comes about in no module.
pub fn new_room<S: Scopes>(
    scopes: &mut S,
    site: &Site,
    x: Coded,
    fragments: &mut Fragments,
) -> Result<Ask<Coded>, Memory>
    requires suits { SuitsSite (S.state scopes.old).frame site.now }
    requires x { IsCoded (S.state scopes.old).frame fragments.old.nodes.items x }
    ensures { (notes : NotesOf) → Coding (S.state scopes.old) (S.state scopes.new) notes notes
        fragments.old.nodes.items fragments.new.nodes.items site.now result IsCoded coded_in
        (λ c. gives (spec_new c (coded_in fragments.old.nodes.items x))) }
{
    if is_bad(x.operand) {
        return Ok(Ask::Known(Coded::in_error()));
    }
    if site.item.is_some() {
        return Err(Memory);
    }
    let of = asked!(target_of(scopes, site.around, operand_type(&x.operand)));
    if asked!(is_broken(scopes, site.around, of)) {
        return Ok(Ask::Known(Coded::in_error()));
    }
    let size = asked!(cells_of(scopes, site.around, of));
    answered_as(NO_VALUE, instr_behind(x.code, Instr::New(size), fragments))
}

/// DISPOSE of a pointer, unless it is in error.
pub fn disposed(x: Coded, fragments: &mut Fragments) -> Result<Ask<Coded>, Memory>
    requires { IsIn fragments.old.nodes.items x.code }
    ensures { (state : State) (notes : NotesOf) (site : SiteOf) → SuitsSite state.frame site
        → Coding state state notes notes fragments.old.nodes.items fragments.new.nodes.items site result IsCoded
        coded_in (λ c. gives (spec_disposed (coded_in fragments.old.nodes.items x))) }
{
    if is_bad(x.operand) {
        return Ok(Ask::Known(Coded::in_error()));
    }
    let stored = pair(Instr::Push(0), Instr::Store, fragments)?;
    answered_as(NO_VALUE, fragments.then(x.code, stored))
}
