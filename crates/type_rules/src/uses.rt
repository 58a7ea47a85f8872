//! What a name stands for where it is used.
ghost use Rattle.std.specs.Prelude.{◌≡◌, ◌≢◌, ◌+◌, ◌<◌, ◌≤◌, ◌∷◌, ◌++◌, ◌==◌, ◌&&◌, ◌⊎◌, [], drop, length, nat_lt};
ghost use Rattle.std.specs.Prelude.{slice_get, IfOk, OnErr, MatchOption, true};
ghost use Rattle.std.specs.Option.{IfSome};
ghost use Rattle.m2_base.specs.Asks.{IfKnown, IfWaits};
ghost use Rattle.m2_base.specs.Diagnostics.{code_of};
ghost use Rattle.m2_base.specs.Gives.{Adds};
ghost use Rattle.m2_base.specs.Lists.{IsIn, WhereKept};
ghost use Rattle.m2_base.specs.Noting.{IsRefused};
ghost use Rattle.m2_base.specs.Standard.{is_standard as spec_is_standard};
ghost use Rattle.m2_base.specs.States.{Works, Waits, fills_of};
ghost use Rattle.m2_base.specs.Statics.Contexts.{text_of_scope as spec_text};
ghost use Rattle.m2_base.specs.Statics.Diagnostics.{used_before};
ghost use Rattle.m2_base.specs.Statics.Lookup.{entry_at, first_entry};
ghost use Rattle.m2_base.specs.Statics.Uses.{answer_of, followed, bound_or as spec_bound_or};
ghost use Rattle.m2_base.specs.Statics.Uses.{bound_outside as spec_bound_outside, use_in_item as spec_use_in_item};
ghost use Rattle.m2_base.specs.Statics.Uses.{use_of as spec_use_of};
ghost use Rattle.m2_base.specs.Standard.{standard_place, standard_rows as spec_rows};
ghost use Rattle.m2_base.specs.Tables.{Lacks, lookup};
ghost use Rattle.type_rules.specs.Asks.{Reads, WhereKnown, WhereWaiting};
ghost use Rattle.type_rules.specs.Scenes.{Suits, IsRowOf, rows_of, scene_of, WhereTold};
ghost use Rattle.type_rules.specs.Sites.{AreOfItem, AreOfSite, SuitsSite, CanLook, context_of, source_of, IsAskedIn};
ghost use Rattle.type_rules.specs.Sites.{IsWithin, LeadsTo, chain_of, chain_in_item};

use crate::looking::look_up;
use crate::rows::row_at;
use m2_base::{
    Answer, Around, Ask, Diagnostic, Memory, Notes, Place, Row, RowMeaning, Scopes, Site, Texts,
    read_row, standard_row,
};

/// A row with its place.
type Entry = (Place, Row);

/// Notes an answer.
fn answer(notes: &mut Notes, name: u32, at: u32, entry: &Entry) -> Result<(), Memory>
    ensures noted { IfOk result
        (λ _. notes.new.answers.items ≡ notes.old.answers.items ++ answer_of name at entry.now ∷ []) }
    ensures kept { OnErr result (notes.new.answers.items ≡ notes.old.answers.items) }
    ensures diags { notes.new.diags.items ≡ notes.old.diags.items }
{
    let (place, row) = *entry;
    notes.answers.push(Answer {
        at,
        name,
        place,
        row,
    })?;
    Ok(())
}

/// The entry that another leads to, where it is an alias; any other leads to itself.
#[tactic(auto, using(crate::proofs::Reading::reading))]
pub fn follow<S: Scopes>(scopes: &mut S, around: &Around, entry: Entry) -> Ask<Entry>
    requires suits { Suits (S.state scopes.old).frame around.now }
    requires row { IsRowOf (S.state scopes.old).frame entry.0 entry.1 }
    ensures reads { Reads (S.state scopes.old) (S.state scopes.new) }
    ensures waits { WhereWaiting result (λ head. Waits (S.state scopes.old) (S.state scopes.new) head) }
    ensures told { WhereTold (S.state scopes.old).frame (λ made.
        WhereKnown result (λ found. found ≡ followed (scene_of (S.state scopes.old).frame made around.now) entry)) }
    ensures row { WhereKnown result (λ found. IsRowOf (S.state scopes.old).frame found.0 found.1) }
    ensures upto { WhereKnown result (λ found. found.0.scope ≤ entry.0.scope) }
    ensures of { WhereWaiting result (λ head. LeadsTo entry.1 head) }
{
    match read_row(&entry.1) {
        RowMeaning::Alias(target) => {
            let row = known!(row_at(scopes, around, target));
            Ask::Known((target, row))
        }
        _ => Ask::Known(entry),
    }
}

/// The text of a scope: the definition modules have theirs, all other blocks are in the main text.
fn text_of_scope(texts: &Texts, scope: u32) -> u32
    ensures { result ≡ spec_text (source_of texts.now) scope }
{
    if scope == 0 {
        return 0;
    }
    let definition = (scope - 1) as usize;
    if definition < texts.order.len() {
        texts.order[definition]
    } else {
        0
    }
}

/// A found entry, which is noted as an answer and followed.
#[tactic(auto, using(crate::proofs::Reading::reading))]
fn bind<S: Scopes>(
    scopes: &mut S,
    around: &Around,
    name: u32,
    at: u32,
    entry: Entry,
    notes: &mut Notes,
) -> Result<Ask<Option<Entry>>, Memory>
    requires suits { Suits (S.state scopes.old).frame around.now }
    requires row { IsRowOf (S.state scopes.old).frame entry.0 entry.1 }
    ensures reads { Reads (S.state scopes.old) (S.state scopes.new) }
    ensures noted { IfOk result
        (λ _. notes.new.answers.items ≡ notes.old.answers.items ++ answer_of name at entry ∷ []) }
    ensures kept { OnErr result (notes.new.answers.items ≡ notes.old.answers.items) }
    ensures diags { notes.new.diags.items ≡ notes.old.diags.items }
    ensures waits { IfWaits result (λ head. Waits (S.state scopes.old) (S.state scopes.new) head) }
    ensures told { WhereTold (S.state scopes.old).frame (λ made.
        IfKnown result
        (λ found. found ≡ Some (followed (scene_of (S.state scopes.old).frame made around.now) entry))) }
    ensures row { IfKnown result
        (λ found. MatchOption found ⊥ (λ found. IsRowOf (S.state scopes.old).frame found.0 found.1)) }
    ensures upto { IfKnown result (λ found. MatchOption found ⊥ (λ found. found.0.scope ≤ entry.0.scope)) }
    ensures of { IfWaits result (λ head. LeadsTo entry.1 head) }
{
    answer(notes, name, at, &entry)?;
    match follow(scopes, around, entry) {
        Ask::Known(found) => Ok(Ask::Known(Some(found))),
        Ask::DontKnowYet(head) => Ok(Ask::DontKnowYet(head)),
    }
}

/// What a name stands for by the scopes of a chain, or this diagnostic.
fn bound_or<S: Scopes>(
    scopes: &mut S,
    site: &Site,
    chain: &[u32],
    diagnostic: Diagnostic,
    name: u32,
    at: u32,
    notes: &mut Notes,
) -> Result<Ask<Option<Entry>>, Memory>
    requires suits { SuitsSite (S.state scopes.old).frame site.now }
    requires chain { CanLook (S.state scopes.old).frame chain.now }
    requires named { name ≢ 0 }
    ensures works { Works (S.state scopes.old) (S.state scopes.new) notes.old notes.new }
    ensures waits { IfWaits result (λ head. Waits (S.state scopes.old) (S.state scopes.new) head) }
    ensures asked { IfWaits result (λ head. IsAskedIn (S.state scopes.new) notes.new at name chain.now head) }
    ensures quiet { IfWaits result (λ head. notes.new.diags.items ≡ notes.old.diags.items) }
    ensures told { WhereTold (S.state scopes.old).frame (λ made.
        (IsIn (fills_of (S.state scopes.old)) chain.now → Lacks made.rows name) → IfKnown result
        (λ entry. Adds notes.old notes.new (spec_bound_or (context_of (S.state scopes.old).frame made site.now)
        (code_of diagnostic) name at (lookup (rows_of (S.state scopes.old).frame made) chain.now name)) entry)) }
    ensures none { IfKnown result (λ entry. MatchOption entry (length notes.new.diags.items
        ≡ length notes.old.diags.items + 1) (λ _. notes.new.diags.items ≡ notes.old.diags.items)) }
    ensures row { IfKnown result
        (λ entry. IfSome entry (λ entry. IsRowOf (S.state scopes.old).frame entry.0 entry.1)) }
    ensures within { IfKnown result (λ entry. IfSome entry (λ entry. IsWithin chain.now entry.0)) }
{
    match look_up(scopes, site.around, chain, name, at) {
        Ask::Known(Some(entry)) => bind(scopes, site.around, name, at, entry, notes),
        Ask::Known(None) => {
            notes.refuse(site.around.text, at, diagnostic)?;
            Ok(Ask::Known(None))
        }
        Ask::DontKnowYet(head) => Ok(Ask::DontKnowYet(head)),
    }
}

/// Whether an entry stands in the text of a site, after this token.
fn stands_later(site: &Site, entry: &Entry, at: u32) -> bool
    ensures { result ≡ ((spec_text (source_of site.now.texts.now) entry.now.0.scope == site.now.around.now.text)
        && nat_lt at entry.now.1.at) }
{
    text_of_scope(site.texts, entry.0.scope) == site.around.text && at < entry.1.at
}

/// Notes an answer, and that its row is declared later.
fn refuse_later(
    notes: &mut Notes,
    text: u32,
    name: u32,
    at: u32,
    entry: &Entry,
) -> Result<(), Memory>
    ensures noted { IfOk result
        (λ _. notes.new.answers.items ≡ notes.old.answers.items ++ answer_of name at entry.now ∷ []) }
    ensures refused { IfOk result (λ _. IsRefused notes.old notes.new text at used_before) }
    ensures answers { (notes.new.answers.items ≡ notes.old.answers.items ++ answer_of name at entry.now ∷ [])
        ⊎ (notes.new.answers.items ≡ notes.old.answers.items) }
    ensures kept { OnErr result (notes.new.diags.items ≡ notes.old.diags.items) }
{
    answer(notes, name, at, entry)?;
    notes.refuse(text, at, Diagnostic::UsedBefore)
}

/// What a name from outside the block stands for in a declaration: it must stand before in the text.
fn bound_outside<S: Scopes>(
    scopes: &mut S,
    site: &Site,
    name: u32,
    at: u32,
    notes: &mut Notes,
) -> Result<Ask<Option<Entry>>, Memory>
    requires suits { SuitsSite (S.state scopes.old).frame site.now }
    requires named { name ≢ 0 }
    ensures works { Works (S.state scopes.old) (S.state scopes.new) notes.old notes.new }
    ensures waits { IfWaits result (λ head. Waits (S.state scopes.old) (S.state scopes.new) head) }
    ensures asked { IfWaits result
        (λ head. IsAskedIn (S.state scopes.new) notes.new at name (drop 1 site.now.around.now.chain) head) }
    ensures quiet { IfWaits result (λ head. notes.new.diags.items ≡ notes.old.diags.items) }
    ensures told { WhereTold (S.state scopes.old).frame (λ made.
        IfKnown result
        (λ entry. Adds notes.old notes.new (spec_bound_outside (context_of (S.state scopes.old).frame made site.now)
        name at (lookup (rows_of (S.state scopes.old).frame made) (drop 1 site.now.around.now.chain) name)) entry)) }
    ensures none { IfKnown result (λ entry. MatchOption entry (length notes.new.diags.items
        ≡ length notes.old.diags.items + 1) (λ _. notes.new.diags.items ≡ notes.old.diags.items)) }
    ensures row { IfKnown result
        (λ entry. IfSome entry (λ entry. IsRowOf (S.state scopes.old).frame entry.0 entry.1)) }
{
    let outer = &site.around.chain.scopes()[1..];
    match look_up(scopes, site.around, outer, name, at) {
        Ask::Known(Some(entry)) => {
            if stands_later(site, &entry, at) {
                refuse_later(notes, site.around.text, name, at, &entry)?;
                return Ok(Ask::Known(None));
            }
            bind(scopes, site.around, name, at, entry, notes)
        }
        Ask::Known(None) => {
            notes.refuse(site.around.text, at, Diagnostic::UnknownName)?;
            Ok(Ask::Known(None))
        }
        Ask::DontKnowYet(head) => Ok(Ask::DontKnowYet(head)),
    }
}

/// What a name stands for in the declaration of an item. One that the block declares must
/// be declared by an earlier item.
#[tactic(auto, using(m2_base::proofs::Kept::kept))]
fn use_in_item<S: Scopes>(
    scopes: &mut S,
    site: &Site,
    item: u32,
    name: u32,
    at: u32,
    notes: &mut Notes,
) -> Result<Ask<Option<Entry>>, Memory>
    requires suits { SuitsSite (S.state scopes.old).frame site.now }
    requires named { name ≢ 0 }
    ensures works { Works (S.state scopes.old) (S.state scopes.new) notes.old notes.new }
    ensures waits { IfWaits result (λ head. Waits (S.state scopes.old) (S.state scopes.new) head) }
    ensures asked { IfWaits result (λ head. IsAskedIn (S.state scopes.new) notes.new at name
        (chain_in_item site.now item (first_entry site.now.layout.now name)) head) }
    ensures quiet { IfWaits result (λ head. notes.new.diags.items ≡ notes.old.diags.items) }
    ensures told { WhereTold (S.state scopes.old).frame (λ made.
        AreOfItem site.now.layout.now item made.rows → IfKnown result
        (λ entry. Adds notes.old notes.new (spec_use_in_item (context_of (S.state scopes.old).frame made site.now) item
        name at (first_entry site.now.layout.now name)) entry)) }
    ensures none { IfKnown result (λ entry. MatchOption entry (length notes.new.diags.items
        ≡ length notes.old.diags.items + 1) (λ _. notes.new.diags.items ≡ notes.old.diags.items)) }
    ensures row { IfKnown result
        (λ entry. IfSome entry (λ entry. IsRowOf (S.state scopes.old).frame entry.0 entry.1)) }
{
    match site.layout.first(name) {
        Some(named) if named.item < item => {
            let own = [site.around.scope];
            bound_or(scopes, site, &own, Diagnostic::UnknownName, name, at, notes)
        }
        Some(_) => {
            notes.refuse(site.around.text, at, Diagnostic::UsedBefore)?;
            Ok(Ask::Known(None))
        }
        None => bound_outside(scopes, site, name, at, notes),
    }
}

/// Whether a name is a standard one.
fn is_standard(name: u32) -> bool
    ensures { result ≡ spec_is_standard name }
{
    1 <= name && name <= 26
}

/// The row of a standard name.
fn standard_entry(name: u32) -> Entry
    requires { spec_is_standard name ≡ true }
    ensures place { result.0 ≡ standard_place name }
    ensures row { slice_get spec_rows (name + 10) ≡ Some result.1 }
{
    let place = Place {
        scope: 0,
        ordinal: name + 10,
    };
    (place, standard_row(name))
}

/// What a name stands for where it is used at a token, with the place of its row; none with a diagnostic. A name after
/// a module's point or in a FROM list is looked up `within` that module's scope alone.
/// What waits has noted no diagnostic.
pub fn use_name<S: Scopes>(
    scopes: &mut S,
    site: &Site,
    within: Option<u32>,
    name: u32,
    at: u32,
    notes: &mut Notes,
) -> Result<Ask<Option<Entry>>, Memory>
    requires suits { SuitsSite (S.state scopes.old).frame site.now }
    requires within { IfSome within (λ scope. scope < fills_of (S.state scopes.old)) }
    requires named { name ≢ 0 }
    ensures works { Works (S.state scopes.old) (S.state scopes.new) notes.old notes.new }
    ensures waits { IfWaits result (λ head. Waits (S.state scopes.old) (S.state scopes.new) head) }
    ensures asked { IfWaits result
        (λ head. IsAskedIn (S.state scopes.new) notes.new at name (chain_of site.now within name) head) }
    ensures quiet { IfWaits result (λ head. notes.new.diags.items ≡ notes.old.diags.items) }
    ensures told { WhereTold (S.state scopes.old).frame (λ made.
        AreOfSite site.now made → IfKnown result (λ entry. Adds notes.old notes.new
        (spec_use_of (context_of (S.state scopes.old).frame made site.now) within name at) entry)) }
    ensures none { IfKnown result (λ entry. MatchOption entry (length notes.new.diags.items
        ≡ length notes.old.diags.items + 1) (λ _. notes.new.diags.items ≡ notes.old.diags.items)) }
    ensures row { IfKnown result
        (λ entry. IfSome entry (λ entry. IsRowOf (S.state scopes.old).frame entry.0 entry.1)) }
    ensures within { IfKnown result (λ entry. IfSome entry (λ entry. IfSome within (λ scope. entry.0.scope ≤ scope))) }
{
    if let Some(scope) = within {
        let module = [scope];
        return bound_or(
            scopes,
            site,
            &module,
            Diagnostic::NotDeclaredThere,
            name,
            at,
            notes,
        );
    }
    if is_standard(name) {
        return Ok(Ask::Known(Some(standard_entry(name))));
    }
    match site.item {
        Some(item) => use_in_item(scopes, site, item, name, at, notes),
        None => {
            let chain = site.around.chain.scopes();
            bound_or(
                scopes,
                site,
                chain,
                Diagnostic::UnknownName,
                name,
                at,
                notes,
            )
        }
    }
}
