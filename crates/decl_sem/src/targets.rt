//! What a pointer points to. A name alone that the block declares may be declared later: the layout says where.
ghost use Rattle.std.specs.Prelude.{◌≡◌, ◌∷◌, ◌<◌, [], ℕ, Some, None, if◌then◌else◌, ◌&&◌, is_none, length, not};
ghost use Rattle.std.specs.Prelude.{option_map};
ghost use Rattle.std.specs.Option.{IfSome};
ghost use Rattle.m2_base.specs.Asks.{IfKnown};
ghost use Rattle.m2_base.specs.Rows.{HasSmallNumbers, alias_kind, at_place, pointer_kind, row_meaning};
ghost use Rattle.m2_base.specs.Standard.{broken, is_standard as spec_is_standard};
ghost use Rattle.m2_base.specs.States.{Frame, State, Waits};
ghost use Rattle.m2_base.specs.Statics.Contexts.{Context, refuse as refuses};
ghost use Rattle.m2_base.specs.Statics.Diagnostics.{not_a_type};
ghost use Rattle.m2_base.specs.Statics.Lookup.{entry_at};
ghost use Rattle.m2_base.specs.Statics.Makes.{makes_row, only_gives};
ghost use Rattle.m2_base.specs.Statics.Shapes.{nameless, type_shapes};
ghost use Rattle.m2_base.specs.Statics.Targets.{entry_target, imported_target as spec_imported};
ghost use Rattle.m2_base.specs.Statics.Targets.{layout_target as spec_layout, target_by_name};
ghost use Rattle.m2_base.specs.Statics.Targets.{target_name as spec_name};
ghost use Rattle.m2_base.specs.Statics.Uses.{followed};
ghost use Rattle.m2_base.specs.Views.{type_view};
ghost use Rattle.m2_base.specs.declared.rows.RowMeaning.TheVariants as meanings;
ghost use Rattle.m2_base.specs.declared.sites.Named.{Named as Entries};
ghost use Rattle.const_eval.specs.Analyses.{Analysed};
ghost use Rattle.type_rules.specs.Asks.{Reads, WhereKnown, WhereWaiting};
ghost use Rattle.type_rules.specs.Scenes.{IsRowOf, IsThere, Suits, WhereTold, scene_of};
ghost use Rattle.type_rules.specs.Sites.{SuitsSite};
ghost use Rattle.decl_sem.specs.Pieces.{AreAliasesBefore, Declares, IsBehind, IsMaking, known_of};
ghost use Rattle.decl_sem.specs.Targets.{HasItsKind, IsFirst, IsOptionTarget, IsTarget, laid_target_of, optional};
ghost use Rattle.decl_sem.specs.TypeUses.{type_or};

use crate::kinds::{ALIAS, TYPE_NAME};
use crate::making::{Made, is_standard};
use crate::names::{refuse, small_place};
use crate::putting::plain_row;
use m2_base::{
    Ask, Diagnostic, Ident, Memory, Named, Notes, Place, Qual, Row, RowMeaning, Scopes, Site,
    TypeExpr, TypeForm, read_row,
};
use type_rules::{BROKEN, follow, row_at};

/// A row with its place.
type Entry = (Place, Row);

/// A name that stands alone and is no standard one.
fn name_alone(qual: Qual) -> Option<Ident>
    ensures { result
        ≡ (if is_none qual.second && not (spec_is_standard qual.first.name) then Some qual.first else None) }
{
    let alone = qual.second.is_none();
    let standard = is_standard(qual.first.name);
    if alone && !standard {
        Some(qual.first)
    } else {
        None
    }
}

/// The name alone after POINTER TO.
fn target_name(typ: &TypeExpr) -> Option<Ident>
    ensures told { (c : Context) → result ≡ spec_name c (type_view typ.now) }
    ensures plain { IfSome result (λ _. type_shapes (type_view typ.now) ≡ []) }
{
    match &typ.form {
        TypeForm::Named(qual) => name_alone(*qual),
        TypeForm::Enum(_)
        | TypeForm::Sub { .. }
        | TypeForm::Array { .. }
        | TypeForm::Rec(_)
        | TypeForm::Set(_)
        | TypeForm::Pointer(_)
        | TypeForm::Proc { .. } => None,
    }
}

/// What the layout has under the name alone after POINTER TO, with the name's token.
fn laid_target(site: &Site, typ: &TypeExpr) -> Option<(u32, Named)>
    ensures told { (c : Context) → c.layout ≡ site.now.layout.now → target_by_name c (spec_name c (type_view typ.now))
        ≡ option_map (λ laid. spec_layout c laid.0 laid.1) result }
    ensures plain { IfSome result (λ _. type_shapes (type_view typ.now) ≡ []) }
    ensures first { IfSome result (λ laid. IsFirst site.now.layout.now laid.1) }
{
    let Some(name) = target_name(typ) else {
        return None;
    };
    match site.layout.first(name.name) {
        Some(named) => Some((name.at, named)),
        None => None,
    }
}

/// The target in the row that an alias leads to: a type's name as such, or what is in error.
fn imported_target(place: Place, meaning: RowMeaning) -> Option<Place>
    ensures told { (c : Context) (at : ℕ) → spec_imported c at place meaning ≡ type_or c at result }
    ensures target { (f : Frame) → IsTarget f place → IsTarget f broken → IfSome result (λ of. IsTarget f of) }
{
    match meaning {
        RowMeaning::TypeName(_) => Some(place),
        RowMeaning::Broken => Some(BROKEN),
        _ => None,
    }
}

/// What the layout has under the name of a target: a type's name, an alias, or anything else.
#[derive(Clone, Copy)]
enum Laid {
    TypeName,
    Alias,
    Other,
}

/// What a row of this kind is as a target.
fn laid_as(kind: u8) -> Laid
    ensures alias { HasItsKind result kind }
    ensures target { (c : Context) (at : ℕ) (n : Entries) → n.kind ≡ kind
        → spec_layout c at n ≡ laid_target_of c at (at_place c.scene.block.scope n.ordinal) result }
{
    match kind {
        TYPE_NAME => Laid::TypeName,
        ALIAS => Laid::Alias,
        _ => Laid::Other,
    }
}

/// What an alias in the own scope leads to.
#[tactic(auto, using(type_rules::proofs::Reading::reading))]
fn aliased<S: Scopes>(scopes: &mut S, site: &Site, place: Place) -> Ask<Entry>
    requires suits { SuitsSite (S.state scopes.old).frame site.now }
    requires there { IsThere (S.state scopes.old).frame place }
    ensures reads { Reads (S.state scopes.old) (S.state scopes.new) }
    ensures waits { WhereWaiting result (λ head. Waits (S.state scopes.old) (S.state scopes.new) head) }
    ensures told { WhereTold (S.state scopes.old).frame (λ made.
        WhereKnown result (λ entry. let scene = scene_of (S.state scopes.old).frame made site.now.around.now in
        entry ≡ followed scene (entry_at scene place))) }
    ensures row { WhereKnown result (λ entry. IsRowOf (S.state scopes.old).frame entry.0 entry.1) }
{
    let row = known!(row_at(scopes, site.around, place));
    follow(scopes, site.around, (place, row))
}

/// The target of an entry; a name that is no type's is refused.
fn target_of_entry(site: &Site, at: u32, entry: Entry, notes: &mut Notes) -> Result<Place, Memory>
    requires { HasSmallNumbers (row_meaning entry.1) }
    ensures { (a : State) → SuitsSite a.frame site.now → IsThere a.frame entry.0
        → Analysed a a notes.old notes.new site.now (known_of result) IsTarget (λ c. entry_target c at entry) }
{
    let place = small_place(entry.0);
    match imported_target(place, read_row(&entry.1)) {
        Some(of) => Ok(of),
        None => {
            put!(refuse(site, at, Diagnostic::NotAType, notes));
            Ok(BROKEN)
        }
    }
}

/// The target that an alias of the own scope leads to.
fn alias_target<S: Scopes>(
    scopes: &mut S,
    site: &Site,
    at: u32,
    place: Place,
    notes: &mut Notes,
) -> Result<Ask<Place>, Memory>
    requires suits { SuitsSite (S.state scopes.old).frame site.now }
    requires there { IsThere (S.state scopes.old).frame place }
    ensures { Analysed (S.state scopes.old) (S.state scopes.new) notes.old notes.new site.now result IsTarget
        (λ c. entry_target c at (followed c.scene (entry_at c.scene place))) }
{
    let entry = asked!(aliased(scopes, site, place));
    let of = put!(target_of_entry(site, at, entry, notes));
    Ok(Ask::Known(of))
}

/// A name that is no type's is refused.
fn refused_target(site: &Site, at: u32, notes: &mut Notes) -> Result<Place, Memory>
    ensures { (a : State) → SuitsSite a.frame site.now
        → Analysed a a notes.old notes.new site.now (known_of result) IsTarget (λ c. refuses c at not_a_type broken) }
{
    put!(refuse(site, at, Diagnostic::NotAType, notes));
    Ok(BROKEN)
}

/// The place of a row of the own scope.
fn own_place(site: &Site, ordinal: u32) -> Place
    ensures place { result ≡ at_place site.now.around.now.scope ordinal }
    ensures target { (f : Frame) → Suits f site.now.around.now → IsTarget f result }
{
    let scope = site.around.scope;
    Place { scope, ordinal }
}

/// The target that the layout gives: a type's name, which may be declared later, or what an alias leads to.
fn layout_target<S: Scopes>(
    scopes: &mut S,
    site: &Site,
    at: u32,
    named: Named,
    notes: &mut Notes,
) -> Result<Ask<Place>, Memory>
    requires suits { SuitsSite (S.state scopes.old).frame site.now }
    requires entered { named.kind ≡ alias_kind → named.ordinal < length (S.state scopes.old).frame.entered }
    ensures { Analysed (S.state scopes.old) (S.state scopes.new) notes.old notes.new site.now result IsTarget
        (λ c. spec_layout c at named) }
{
    let place = own_place(site, named.ordinal);
    match laid_as(named.kind) {
        Laid::TypeName => Ok(Ask::Known(place)),
        Laid::Alias => alias_target(scopes, site, at, place, notes),
        Laid::Other => {
            let of = put!(refused_target(site, at, notes));
            Ok(Ask::Known(of))
        }
    }
}

/// What a pointer points to by the layout; none where the layout doesn't say it. An alias stands in an import, and so
/// before the item of the pointer.
pub(crate) fn target_in<S: Scopes>(
    scopes: &mut S,
    site: &Site,
    typ: &TypeExpr,
    made: &mut Made,
) -> Result<Ask<Option<Place>>, Memory>
    requires making { IsMaking (S.state scopes.old).frame site.now made.old [] }
    requires aliases { AreAliasesBefore site.now.layout.now made.old.first }
    ensures target { Declares (S.state scopes.old) (S.state scopes.new) made.old made.new site.now result []
        IsOptionTarget (λ c. only_gives (optional (target_by_name c (spec_name c (type_view typ.now))))) }
    ensures plain { IfKnown result (λ target. IfSome target (λ _. type_shapes (type_view typ.now) ≡ [])) }
{
    let Some((at, named)) = laid_target(site, typ) else {
        return Ok(Ask::Known(None));
    };
    let of = analysed!(layout_target(scopes, site, at, named, &mut made.notes));
    Ok(Ask::Known(Some(of)))
}

/// The row of a pointer.
pub(crate) fn pointer_row<S: Scopes>(
    scopes: &S,
    site: &Site,
    at: u32,
    of: Place,
    made: &mut Made,
) -> Result<Ask<Place>, Memory>
    requires making { IsMaking (S.state scopes.now).frame site.now made.old (nameless pointer_kind at ∷ []) }
    requires target { IsTarget (S.state scopes.now).frame of }
    ensures { Declares (S.state scopes.now) (S.state scopes.now) made.old made.new site.now result
        (nameless pointer_kind at ∷ []) IsBehind (λ c. makes_row c at (meanings.Pointer of)) }
{
    match plain_row(scopes, site, made, at, RowMeaning::Pointer(of)) {
        Ok(place) => Ok(Ask::Known(place)),
        Err(memory) => Err(memory),
    }
}
