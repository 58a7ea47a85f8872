//! The rows of an import.
ghost use Rattle.std.specs.Prelude.{◌≡◌, ◌≢◌, ◌∷◌, ◌++◌, ◌-◌, [], ◌<◌, ◌+◌, ◌^◌, map, is_some, true, length};
ghost use Rattle.std.specs.Prelude.{if◌then◌else◌, unwrap_or, None, Some, IfOk};
ghost use Rattle.std.specs.Option.{IfSome};
ghost use Rattle.m2_base.specs.Rows.{alias_kind, module_kind};
ghost use Rattle.m2_base.specs.Statics.Contexts.{scope_of_module};
ghost use Rattle.m2_base.specs.Rows.{row_of};
ghost use Rattle.m2_base.specs.States.{State, Waits};
ghost use Rattle.m2_base.specs.Statics.Lookup.{entry_named};
ghost use Rattle.type_rules.specs.Asks.{Reads, WhereKnown, WhereWaiting};
ghost use Rattle.m2_base.specs.Statics.Contexts.{diag};
ghost use Rattle.m2_base.specs.Statics.Diagnostics.{declared_twice};
ghost use Rattle.m2_base.specs.Statics.ImportRows.{again_diags, alias_row, import_rows as spec_rows};
ghost use Rattle.m2_base.specs.Statics.ImportRows.{place_or_broken as spec_target};
ghost use Rattle.m2_base.specs.Statics.ImportedConstants.{brought_by, brought_names, brought_row, members_of};
ghost use Rattle.m2_base.specs.Lists.{Each, IsPrefixOf};
ghost use Rattle.m2_base.specs.Statics.Makes.{make_then, one_row};
ghost use Rattle.m2_base.specs.Statics.Items.{import_item};
ghost use Rattle.m2_base.specs.Statics.Shapes.{import_kind, named};
ghost use Rattle.m2_base.specs.declared.rows.RowMeaning.TheVariants.{Alias, Module};
ghost use Rattle.type_rules.specs.Scenes.{IsRowOf};
ghost use Rattle.type_rules.specs.Sites.{context_of, source_of};
ghost use Rattle.decl_sem.specs.Brought.{BringAny, DeclaresWith, all_names, brings_new, listed, listed_of};
ghost use Rattle.decl_sem.specs.FoundConstants.{AreNewMembers, member_view};
ghost use Rattle.decl_sem.specs.ImportedModules.{IsFromBefore, first_from, is_text_named};
ghost use Rattle.decl_sem.specs.Making.{diag_in, next_ordinal};
ghost use Rattle.decl_sem.specs.Pieces.{Declares, IsAny, IsBehind, IsMaking, WhereMaking, known_of};
ghost use Rattle.m2_base.specs.Statics.ReadTrees.{IsReadName, IsReadOption};

use crate::brought::{Found, Member, differ, is_full, is_hidden, members_in};
use crate::kinds::ALIAS;
use crate::making::{Made, make_again, make_new};
use crate::names::{refuse, small_place};
use crate::putting::name_row;
use m2_base::{
    Ask, Diagnostic, Ident, Memory, Named, Notes, Place, Row, RowMeaning, Scopes, Site, Texts,
};
use std::alloc::Global;
use type_rules::{BROKEN, use_name};

/// A row with its place.
type Entry = (Place, Row);

/// Whether a text has this name.
fn has_name(texts: &Texts, text: u32, name: u32) -> bool
    requires { name ≢ 0 }
    ensures { result ≡ is_text_named texts.now name text }
{
    match texts.list.get(text as usize) {
        Some(module) => module.name == name,
        None => false,
    }
}

/// The number of the first text of this name, counted from 1; 0 where none has it.
fn scope_in(texts: &Texts, order: &[u32], name: u32) -> u32
    requires named { name ≢ 0 }
    requires small { first_from (is_text_named texts.now name) 1 order.now < 2 ^ 32 }
    ensures { result ≡ first_from (is_text_named texts.now name) 1 order.now }
{
    for (place, text) in order.iter().enumerate() {
        if has_name(texts, *text, name) {
            return (place + 1) as u32;
        }
    }
    0
}

/// The scope of the definition module of this name.
fn module_scope(texts: &Texts, name: u32) -> u32
    requires named { name ≢ 0 }
    requires small { scope_of_module (source_of texts.now) name < 2 ^ 32 }
    ensures { result ≡ scope_of_module (source_of texts.now) name }
{
    scope_in(texts, &texts.order, name)
}

/// Where an entry is; without one it is in error.
fn place_or_broken(entry: Option<Entry>) -> Place
    ensures { result ≡ spec_target entry }
{
    match entry {
        Some(entry) => entry.0,
        None => BROKEN,
    }
}

/// Whether the name of an alias that an import has brought before is declared twice: it leads elsewhere,
/// and isn't in error.
fn is_again<S: Scopes>(
    scopes: &mut S,
    site: &Site,
    name: Ident,
    target: Place,
    made: &Made,
) -> Ask<bool>
    requires making { IsMaking (S.state scopes.old).frame site.now made.now [] }
    requires named { name.name ≢ 0 }
    ensures reads { Reads (S.state scopes.old) (S.state scopes.new) }
    ensures waits { WhereWaiting result (λ head. Waits (S.state scopes.old) (S.state scopes.new) head) }
    ensures told { WhereMaking (S.state scopes.old).frame made.now (λ hand.
        WhereKnown result (λ again. let c = context_of (S.state scopes.old).frame hand site.now in
        again_diags c name target ≡ (if again then diag c name.at declared_twice ∷ [] else []))) }
{
    if !differ(target, BROKEN) {
        return Ask::Known(false);
    }
    is_hidden(scopes, site, made, name.name, target)
}

/// An alias whose name an import has brought before.
fn again_row<S: Scopes>(
    scopes: &mut S,
    site: &Site,
    name: Ident,
    target: Place,
    made: &mut Made,
) -> Result<Ask<Place>, Memory>
    requires making { IsMaking (S.state scopes.old).frame site.now made.old (named alias_kind name ∷ []) }
    requires named { name.name ≢ 0 }
    requires brought { is_some (entry_named site.now.layout.now.brought name.name) ≡ true }
    requires target { IsBehind (S.state scopes.old).frame (next_ordinal made.old) target }
    ensures { Declares (S.state scopes.old) (S.state scopes.new) made.old made.new site.now result
        (named alias_kind name ∷ []) IsBehind
        (λ c. one_row c (row_of 0 name.at (Alias target)) (again_diags c name target)) }
{
    let again = asked!(is_again(scopes, site, name, target, made));
    let place = put!(make_again(site, made, name.at, RowMeaning::Alias(target), again));
    Ok(Ask::Known(place))
}

/// The row of an alias. It has no name where an earlier import brought that.
fn own_row<S: Scopes>(
    scopes: &mut S,
    site: &Site,
    name: Ident,
    entry: Option<Entry>,
    made: &mut Made,
) -> Result<Ask<Place>, Memory>
    requires making { IsMaking (S.state scopes.old).frame site.now made.old (named alias_kind name ∷ []) }
    requires named { IsReadName site.now.texts.now.names name }
    requires row { IfSome entry (λ e. IsRowOf (S.state scopes.old).frame e.0 e.1) }
    ensures { Declares (S.state scopes.old) (S.state scopes.new) made.old made.new site.now result
        (named alias_kind name ∷ []) IsBehind (λ c. alias_row c name (spec_target entry)) }
{
    let target = small_place(place_or_broken(entry));
    match site.layout.brought(name.name) {
        Some(_) => again_row(scopes, site, name, target, made),
        None => {
            let place = put!(name_row(scopes, site, made, name, RowMeaning::Alias(target)));
            Ok(Ask::Known(place))
        }
    }
}

/// An alias of each of these constants, and the names of the aliases.
fn put_members(
    alloc: Global,
    site: &Site,
    at: u32,
    members: &[Member],
    made: &mut Made,
) -> Result<Vec<Named>, Memory>
    requires room { next_ordinal made.old + length members.now < 2 ^ 32 }
    requires places { Each (λ m. m.place.scope < 2 ^ 31) members.now }
    ensures names { IfOk result (λ brought. brought.items
        ≡ brought_names (unwrap_or site.now.item 0) (next_ordinal made.old) at (map member_view members.now)) }
    ensures rows { IfOk result
        (λ brought. made.new.rows.items ≡ made.old.rows.items ++ map (brought_row at) (map member_view members.now)) }
    ensures notes { made.new.notes ≡ made.old.notes }
    ensures first { made.new.first ≡ made.old.first }
{
    let item = site.item.unwrap_or(0);
    let mut brought = Vec::new(alloc);
    for member in members {
        let name = member.name;
        let alias = RowMeaning::Alias(member.place);
        let ordinal = make_new(site, made, name, at, alias)?.ordinal;
        let kind = ALIAS;
        brought.push(Named {
            name,
            ordinal,
            kind,
            at,
            item,
        })?;
    }
    Ok(brought)
}

/// Notes that one of the constants is hidden.
fn note_hidden(site: &Site, at: u32, hidden: bool, notes: &mut Notes) -> Result<(), Memory>
    ensures noted { IfOk result (λ _. notes.new.diags.items
        ≡ notes.old.diags.items ++ (if hidden then diag_in site.now.around.now.text at declared_twice ∷ [] else [])) }
    ensures diags { IsPrefixOf notes.old.diags.items notes.new.diags.items }
    ensures answers { notes.new.answers.items ≡ notes.old.answers.items }
{
    if !hidden {
        return Ok(());
    }
    refuse(site, at, Diagnostic::DeclaredTwice, notes)
}

/// The names that are brought, where these constants are found.
fn put_found(
    alloc: Global,
    site: &Site,
    at: u32,
    found: &Found,
    made: &mut Made,
) -> Result<Vec<Named>, Memory>
    requires room { next_ordinal made.old < 2 ^ 32 - 16384 }
    requires places { Each (λ m. m.place.scope < 2 ^ 31) found.now.members.items }
    ensures { (a : State) → IsMaking a.frame site.now made.old []
        → AreNewMembers a.frame site.now made.old found.now.members.items
        → DeclaresWith a a made.old made.new site.now (known_of (listed_of result)) [] all_names IsAny
        (λ c. brings_new c at (map member_view found.now.members.items) found.now.hidden) }
{
    if is_full(site, found) {
        put!(refuse(site, at, Diagnostic::TooManyConstants, &mut made.notes));
        return Ok(Vec::new(alloc));
    }
    put!(note_hidden(site, at, found.hidden, &mut made.notes));
    put_members(alloc, site, at, &found.members, made)
}

/// The names that an entry brings.
fn bring<S: Scopes>(
    alloc: Global,
    scopes: &mut S,
    site: &Site,
    at: u32,
    entry: Option<Entry>,
    made: &mut Made,
) -> Result<Ask<Vec<Named>>, Memory>
    requires making { IsMaking (S.state scopes.old).frame site.now made.old [] }
    requires row { IfSome entry (λ e. IsRowOf (S.state scopes.old).frame e.0 e.1) }
    requires before { IfSome entry (λ e. e.0.scope < (S.state scopes.old).frame.setting.fills) }
    ensures { DeclaresWith (S.state scopes.old) (S.state scopes.new) made.old made.new site.now
        (listed result) [] all_names IsAny (λ c. brought_by c at (members_of c.scene entry)) }
{
    let found = analysed!(members_in(alloc, scopes, site, entry, made));
    let brought = put!(put_found(alloc, site, at, &found, made));
    Ok(Ask::Known(brought))
}

/// An alias of an entry, and the names that it brings.
fn entry_rows<S: Scopes>(
    alloc: Global,
    scopes: &mut S,
    site: &Site,
    name: Ident,
    entry: Option<Entry>,
    made: &mut Made,
) -> Result<Ask<Vec<Named>>, Memory>
    requires making { IsMaking (S.state scopes.old).frame site.now made.old (named alias_kind name ∷ []) }
    requires named { IsReadName site.now.texts.now.names name }
    requires row { IfSome entry (λ e. IsRowOf (S.state scopes.old).frame e.0 e.1) }
    requires before { IfSome entry (λ e. e.0.scope < (S.state scopes.old).frame.setting.fills) }
    ensures { DeclaresWith (S.state scopes.old) (S.state scopes.new) made.old made.new site.now
        (listed result) (named alias_kind name ∷ []) all_names IsAny (λ c.
        make_then c (alias_row c name (spec_target entry)) (λ d p. brought_by d name.at (members_of d.scene entry))) }
{
    let _place = analysed!(own_row(scopes, site, name, entry, made));
    bring(alloc, scopes, site, name.at, entry, made)
}

/// A module.
fn module_rows<S: Scopes>(
    alloc: Global,
    scopes: &mut S,
    site: &Site,
    name: Ident,
    made: &mut Made,
) -> Result<Ask<Vec<Named>>, Memory>
    requires making { IsMaking (S.state scopes.old).frame site.now made.old (named module_kind name ∷ []) }
    requires named { IsReadName site.now.texts.now.names name }
    requires before { scope_of_module (source_of site.now.texts.now) name.name
        < (S.state scopes.old).frame.setting.fills }
    ensures { DeclaresWith (S.state scopes.old) (S.state scopes.new) made.old made.new site.now (listed result)
        (named module_kind name ∷ []) all_names (BringAny (import_item None name)) (λ c. spec_rows c None name) }
{
    let scope = module_scope(site.texts, name.name);
    put!(name_row(scopes, site, made, name, RowMeaning::Module(scope)));
    Ok(Ask::Known(Vec::new(alloc)))
}

/// A name of a module of this name, and the names that it brings.
fn member_rows<S: Scopes>(
    alloc: Global,
    scopes: &mut S,
    site: &Site,
    outer: Ident,
    name: Ident,
    made: &mut Made,
) -> Result<Ask<Vec<Named>>, Memory>
    requires making { IsMaking (S.state scopes.old).frame site.now made.old (named alias_kind name ∷ []) }
    requires read { IsReadName site.now.texts.now.names outer }
    requires named { IsReadName site.now.texts.now.names name }
    requires before { scope_of_module (source_of site.now.texts.now) outer.name
        < (S.state scopes.old).frame.setting.fills }
    ensures { DeclaresWith (S.state scopes.old) (S.state scopes.new) made.old made.new site.now
        (listed result) (named alias_kind name ∷ []) all_names (BringAny (import_item (Some outer) name))
        (λ c. spec_rows c (Some outer) name) }
{
    let scope = module_scope(site.texts, outer.name);
    let entry = analysed!(use_name(
        scopes,
        site,
        Some(scope),
        name.name,
        name.at,
        &mut made.notes,
    ));
    entry_rows(alloc, scopes, site, name, entry, made)
}

/// A module; or a name of a module, an alias of what it stands for there, and the names that it brings.
pub(crate) fn import_rows<S: Scopes>(
    alloc: Global,
    scopes: &mut S,
    site: &Site,
    from: &Option<Ident>,
    name: Ident,
    made: &mut Made,
) -> Result<Ask<Vec<Named>>, Memory>
    requires making { IsMaking (S.state scopes.old).frame site.now made.old (named (import_kind from.now) name ∷ []) }
    requires read { IsReadOption site.now.texts.now.names from.now }
    requires named { IsReadName site.now.texts.now.names name }
    requires before { IsFromBefore (source_of site.now.texts.now) (S.state scopes.old).frame.setting.fills
        (import_item from.now name) }
    ensures { DeclaresWith (S.state scopes.old) (S.state scopes.new) made.old made.new site.now (listed result)
        (named (import_kind from.now) name ∷ []) all_names (BringAny (import_item from.now name))
        (λ c. spec_rows c from.now name) }
{
    match from {
        Some(module) => member_rows(alloc, scopes, site, *module, name, made),
        None => module_rows(alloc, scopes, site, name, made),
    }
}
