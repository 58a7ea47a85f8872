//! The type that a name leads to.
ghost use Rattle.std.specs.Prelude.{◌≡◌, ◌≢◌, ◌<◌, ◌^◌, ℕ, Some, IfOk};
ghost use Rattle.std.specs.Option.{IfSome};
ghost use Rattle.m2_base.specs.Noting.{IsRefused};
ghost use Rattle.m2_base.specs.Diagnostics.{code_of};
ghost use Rattle.m2_base.specs.Lists.{IsPrefixOf};
ghost use Rattle.m2_base.specs.Rows.{Fits, HasSmallNumbers, row_meaning};
ghost use Rattle.m2_base.specs.States.{Frame, State};
ghost use Rattle.m2_base.specs.Statics.Contexts.{Context};
ghost use Rattle.m2_base.specs.Statics.TypeNames.{entry_of_qual as spec_entry, member_of as spec_member};
ghost use Rattle.m2_base.specs.Statics.TypeNames.{qualified as spec_qualified, type_by, type_of_entry as spec_type};
ghost use Rattle.m2_base.specs.Statics.TypeNames.{type_of_qual as spec_type_of};
ghost use Rattle.m2_base.specs.declared.rows.Place.{Place as Spot};
ghost use Rattle.m2_base.specs.declared.sites.Around.{Around as Surroundings};
ghost use Rattle.m2_base.specs.declared.trees.Ident.{Ident as Name};
ghost use Rattle.const_eval.specs.Analyses.{Analysed};
ghost use Rattle.decl_sem.specs.Pieces.{known_of};
ghost use Rattle.m2_base.specs.Statics.ReadTrees.{IsReadQual};
ghost use Rattle.decl_sem.specs.TypeUses.{IsScopeBefore, member_by, type_or};
ghost use Rattle.type_rules.specs.Scenes.{IsRowOf, IsThere, Suits};
ghost use Rattle.type_rules.specs.Sites.{SuitsSite};

use m2_base::{
    Ask, Diagnostic, Ident, Memory, Notes, Place, Qual, Row, RowMeaning, Scopes, Site, read_row,
};
use type_rules::{BROKEN, use_name};

/// A row with its place.
type Entry = (Place, Row);

/// What a name before a point stands for.
#[derive(Clone, Copy)]
enum Qualifier {
    /// A module with this scope.
    Scope(u32),
    Wrong,
    NoModule,
}

/// Notes a diagnostic in the site's text.
pub(crate) fn refuse(
    site: &Site,
    at: u32,
    diagnostic: Diagnostic,
    notes: &mut Notes,
) -> Result<(), Memory>
    ensures noted { IfOk result (λ _. IsRefused notes.old notes.new site.now.around.now.text at (code_of diagnostic)) }
    ensures diags { IsPrefixOf notes.old.diags.items notes.new.diags.items }
    ensures answers { notes.new.answers.items ≡ notes.old.answers.items }
{
    notes.refuse(site.around.text, at, diagnostic)
}

/// The type in the row of a type's name, and that of what is in error; anything else is no type.
#[tactic(auto, using(crate::proofs::Uses::uses))]
fn type_in_row(meaning: RowMeaning) -> Option<Place>
    ensures there { (f : Frame) (a : Surroundings) (n : ℕ) (p : Spot) → Suits f a → p.ordinal < 2 ^ 32 → IsThere f p
        → Fits n p meaning → IfSome result (λ t. IsThere f t) }
    ensures told { (c : Context) (at : ℕ) → type_by c at meaning ≡ type_or c at result }
{
    match meaning {
        RowMeaning::TypeName(of) => Some(of),
        RowMeaning::Broken => Some(BROKEN),
        _ => None,
    }
}

/// What a row before a point stands for.
fn qualifier_of(meaning: RowMeaning) -> Qualifier
    ensures scope { (n : ℕ) (p : Spot) → Fits n p meaning → IsScopeBefore p.scope result }
    ensures told { (c : Context) (at : ℕ) (i : Name) → spec_member c at i meaning ≡ member_by c at i result }
{
    match meaning {
        RowMeaning::Module(scope) => Qualifier::Scope(scope),
        RowMeaning::Broken => Qualifier::Wrong,
        _ => Qualifier::NoModule,
    }
}

/// A place, whose ordinal has 32 bits.
pub(crate) fn small_place(place: Place) -> Place
    ensures same { result ≡ place }
    ensures small { place.ordinal < 2 ^ 32 }
{
    Place {
        scope: place.scope,
        ordinal: place.ordinal,
    }
}

/// The type that an entry leads to.
fn type_of_entry(
    site: &Site,
    at: u32,
    entry: Option<Entry>,
    notes: &mut Notes,
) -> Result<Place, Memory>
    requires { IfSome entry (λ e. HasSmallNumbers (row_meaning e.1)) }
    ensures { (a : State) → SuitsSite a.frame site.now → IfSome entry (λ e. IsRowOf a.frame e.0 e.1)
        → Analysed a a notes.old notes.new site.now (known_of result) IsThere (λ c. spec_type c at entry) }
{
    let Some(entry) = entry else {
        return Ok(BROKEN);
    };
    let place = small_place(entry.0);
    let _scope = place.scope;
    match type_in_row(read_row(&entry.1)) {
        Some(of) => Ok(of),
        None => {
            put!(refuse(site, at, Diagnostic::NotAType, notes));
            Ok(BROKEN)
        }
    }
}

/// What a name after a module's point stands for.
fn member_of<S: Scopes>(
    scopes: &mut S,
    site: &Site,
    at: u32,
    member: Ident,
    outer: Entry,
    notes: &mut Notes,
) -> Result<Ask<Option<Entry>>, Memory>
    requires suits { SuitsSite (S.state scopes.old).frame site.now }
    requires row { IsRowOf (S.state scopes.old).frame outer.0 outer.1 }
    requires named { member.name ≢ 0 }
    ensures { Analysed (S.state scopes.old) (S.state scopes.new) notes.old notes.new site.now result
        (λ f found. IfSome found (λ e. IsRowOf f e.0 e.1)) (λ c. spec_member c at member (row_meaning outer.1)) }
{
    match qualifier_of(read_row(&outer.1)) {
        Qualifier::Scope(scope) => {
            use_name(scopes, site, Some(scope), member.name, member.at, notes)
        }
        Qualifier::Wrong => Ok(Ask::Known(None)),
        Qualifier::NoModule => {
            put!(refuse(site, at, Diagnostic::NotAType, notes));
            Ok(Ask::Known(None))
        }
    }
}

/// What a name stands for, or a name after its point.
fn qualified<S: Scopes>(
    scopes: &mut S,
    site: &Site,
    at: u32,
    second: Option<Ident>,
    first: Option<Entry>,
    notes: &mut Notes,
) -> Result<Ask<Option<Entry>>, Memory>
    requires suits { SuitsSite (S.state scopes.old).frame site.now }
    requires row { IfSome first (λ e. IsRowOf (S.state scopes.old).frame e.0 e.1) }
    requires named { IfSome second (λ i. i.name ≢ 0) }
    ensures { Analysed (S.state scopes.old) (S.state scopes.new) notes.old notes.new site.now result
        (λ f found. IfSome found (λ e. IsRowOf f e.0 e.1)) (λ c. spec_qualified c at second first) }
{
    let Some(outer) = first else {
        return Ok(Ask::Known(None));
    };
    let Some(member) = second else {
        return Ok(Ask::Known(Some(outer)));
    };
    member_of(scopes, site, at, member, outer, notes)
}

/// What a type's name, with or without a module before it, is bound to.
fn entry_of_qual<S: Scopes>(
    scopes: &mut S,
    site: &Site,
    qual: Qual,
    notes: &mut Notes,
) -> Result<Ask<Option<Entry>>, Memory>
    requires suits { SuitsSite (S.state scopes.old).frame site.now }
    requires read { IsReadQual site.now.texts.now.names qual }
    ensures { Analysed (S.state scopes.old) (S.state scopes.new) notes.old notes.new site.now result
        (λ f found. IfSome found (λ e. IsRowOf f e.0 e.1)) (λ c. spec_entry c qual) }
{
    let first = analysed!(use_name(scopes, site, None, qual.first.name, qual.first.at, notes));
    qualified(scopes, site, qual.first.at, qual.second, first, notes)
}

/// The type that a name leads to.
pub(crate) fn type_of_qual<S: Scopes>(
    scopes: &mut S,
    site: &Site,
    qual: Qual,
    notes: &mut Notes,
) -> Result<Ask<Place>, Memory>
    requires suits { SuitsSite (S.state scopes.old).frame site.now }
    requires read { IsReadQual site.now.texts.now.names qual }
    ensures { Analysed (S.state scopes.old) (S.state scopes.new) notes.old notes.new site.now result IsThere
        (λ c. spec_type_of c qual) }
{
    let entry = analysed!(entry_of_qual(scopes, site, qual, notes));
    let of = put!(type_of_entry(site, qual.first.at, entry, notes));
    Ok(Ask::Known(of))
}
