//! The rows of the item in hand, one after another.
ghost use Rattle.std.specs.Prelude.{◌≡◌, ◌≢◌, ℕ, ◌∷◌, ◌++◌, [], ◌+◌, ◌<◌, ◌^◌, length, if◌then◌else◌, IfOk, OnErr};
ghost use Rattle.m2_base.specs.Lists.{IsPrefixOf};
ghost use Rattle.m2_base.specs.Rows.{at_place, row_of, HasSmallScopes};
ghost use Rattle.m2_base.specs.Standard.{is_standard as spec_is_standard};
ghost use Rattle.m2_base.specs.Statics.Contexts.{Context, diag};
ghost use Rattle.m2_base.specs.Statics.Diagnostics.{declared_twice};
ghost use Rattle.m2_base.specs.Statics.Lookup.{first_entry};
ghost use Rattle.m2_base.specs.Statics.Makes.{makes_named as spec_named, makes_row as spec_row, one_row};
ghost use Rattle.m2_base.specs.Statics.Shapes.{nameless, named};
ghost use Rattle.m2_base.specs.Statics.TypeParts.{is_field};
ghost use Rattle.m2_base.specs.States.{State};
ghost use Rattle.decl_sem.specs.MadeRows.{is_key};
ghost use Rattle.decl_sem.specs.Pieces.{Declares, IsBehind, IsMaking, IsNewMeaning, kind_number, known_of};
ghost use Rattle.decl_sem.specs.LaidRows.{is_of, kept_name as spec_kept_name};
ghost use Rattle.decl_sem.specs.Making.{IsInHand, IsNext, MakesAll, name_refusals, next_ordinal};

use crate::made_rows::{FieldKey, MadeRows, field_key};
use m2_base::{Diagnostic, Ident, Layout, Memory, Notes, Place, Row, RowMeaning, Site, write_row};

/// What is made of the item in hand so far.
#[derive(Drop)]
pub(crate) struct Made {
    /// The ordinal of its first row.
    pub(crate) first: u32,
    pub(crate) rows: MadeRows,
    pub(crate) notes: Notes,
}

/// The ordinal of the next row.
pub(crate) fn next_row(made: &Made) -> u32
    requires { next_ordinal made.now < 2 ^ 32 }
    ensures { result ≡ next_ordinal made.now }
{
    made.first + made.rows.len() as u32
}

/// Whether a name is a standard one.
pub(crate) fn is_standard(name: u32) -> bool
    ensures { result ≡ spec_is_standard name }
{
    1 <= name && name <= 26
}

/// Whether the layout has the first row of a name at this ordinal.
fn is_first(layout: &Layout, ordinal: u32, name: u32) -> bool
    ensures { result ≡ is_of ordinal (first_entry layout.now name) }
{
    match layout.first(name) {
        Some(named) => named.ordinal == ordinal,
        None => false,
    }
}

/// The name that the row with this ordinal keeps. A standard name, and one that an earlier row of the block has, is
/// refused.
fn kept_name(
    site: &Site,
    ordinal: u32,
    name: u32,
    at: u32,
    notes: &mut Notes,
) -> Result<u32, Memory>
    ensures kept { IfOk result (λ kept. kept ≡ spec_kept_name site.now.layout.now ordinal name) }
    ensures diags { IfOk result (λ kept. notes.new.diags.items
        ≡ notes.old.diags.items ++ name_refusals site.now.around.now.text site.now.layout.now ordinal name at) }
    ensures unchanged { OnErr result (notes.new.diags.items ≡ notes.old.diags.items) }
    ensures answers { notes.new.answers.items ≡ notes.old.answers.items }
{
    let diagnostic = if is_standard(name) {
        Diagnostic::StandardDeclared
    } else if is_first(site.layout, ordinal, name) {
        return Ok(name);
    } else {
        Diagnostic::DeclaredTwice
    };
    notes.refuse(site.around.text, at, diagnostic)?;
    Ok(0)
}

/// One more row, with its key if it is a field. Its place is the value.
fn put_row(site: &Site, made: &mut Made, row: Row, field: Option<FieldKey>) -> Result<Place, Memory>
    requires room { next_ordinal made.old < 2 ^ 32 }
    requires field { (own name : ℕ) → is_field own name row ≡ is_key own name field }
    ensures place { IfOk result (λ place. place ≡ at_place site.now.around.now.scope (next_ordinal made.old)) }
    ensures rows { IfOk result (λ place. made.new.rows.items ≡ made.old.rows.items ++ row ∷ []) }
    ensures notes { made.new.notes ≡ made.old.notes }
    ensures first { made.new.first ≡ made.old.first }
    ensures unchanged { OnErr result (made.new.rows.items ≡ made.old.rows.items) }
{
    let ordinal = made.first + made.rows.len() as u32;
    made.rows.push(row, field)?;
    let scope = site.around.scope;
    Ok(Place { scope, ordinal })
}

/// A row without a name.
pub(crate) fn make_row(
    site: &Site,
    made: &mut Made,
    at: u32,
    meaning: RowMeaning,
) -> Result<Place, Memory>
    requires room { next_ordinal made.old < 2 ^ 32 }
    requires scopes { HasSmallScopes meaning }
    ensures made { IfOk result (λ place.
        (c : Context) → IsInHand c site.now made.old → MakesAll made.old made.new (spec_row c at meaning) place) }
    ensures place { IfOk result (λ place. place ≡ at_place site.now.around.now.scope (next_ordinal made.old)) }
    ensures rows { IfOk result (λ place. made.new.rows.items ≡ made.old.rows.items ++ row_of 0 at meaning ∷ []) }
    ensures notes { made.new.notes ≡ made.old.notes }
    ensures first { made.new.first ≡ made.old.first }
{
    let field = field_key(meaning);
    put_row(site, made, write_row(0, at, meaning), field)
}

/// A row with a name. One that declares a standard name, and the second of a name in its scope,
/// is nameless and refused.
#[tactic(auto, using(crate::proofs::NextRows::by_layout))]
pub(crate) fn make_named(
    site: &Site,
    made: &mut Made,
    name: u32,
    at: u32,
    meaning: RowMeaning,
) -> Result<Place, Memory>
    requires room { next_ordinal made.old < 2 ^ 32 }
    requires scopes { HasSmallScopes meaning }
    ensures made { IfOk result (λ place. (c : Context) → IsInHand c site.now made.old → IsNext c name
        → MakesAll made.old made.new (spec_named c name at meaning) place) }
    ensures place { IfOk result (λ place. place ≡ at_place site.now.around.now.scope (next_ordinal made.old)) }
    ensures rows { IfOk result (λ place. made.new.rows.items ≡ made.old.rows.items
        ++ row_of (spec_kept_name site.now.layout.now (next_ordinal made.old) name) at meaning ∷ []) }
    ensures diags { IsPrefixOf made.old.notes.diags.items made.new.notes.diags.items }
    ensures answers { made.new.notes.answers.items ≡ made.old.notes.answers.items }
    ensures first { made.new.first ≡ made.old.first }
{
    let ordinal = made.first + made.rows.len() as u32;
    let kept = kept_name(site, ordinal, name, at, &mut made.notes)?;
    let field = field_key(meaning);
    put_row(site, made, write_row(kept, at, meaning), field)
}

/// A row whose name an import has brought before: it has none. It is refused where it leads elsewhere.
pub(crate) fn make_again(
    site: &Site,
    made: &mut Made,
    at: u32,
    meaning: RowMeaning,
    elsewhere: bool,
) -> Result<Place, Memory>
    requires room { next_ordinal made.old < 2 ^ 32 }
    requires scopes { HasSmallScopes meaning }
    ensures made { IfOk result (λ place. (c : Context) → IsInHand c site.now made.old → MakesAll made.old made.new
        (one_row c (row_of 0 at meaning) (if elsewhere then diag c at declared_twice ∷ [] else [])) place) }
    ensures place { IfOk result (λ place. place ≡ at_place site.now.around.now.scope (next_ordinal made.old)) }
    ensures rows { IfOk result (λ place. made.new.rows.items ≡ made.old.rows.items ++ row_of 0 at meaning ∷ []) }
    ensures diags { IsPrefixOf made.old.notes.diags.items made.new.notes.diags.items }
    ensures answers { made.new.notes.answers.items ≡ made.old.notes.answers.items }
    ensures first { made.new.first ≡ made.old.first }
{
    if elsewhere {
        let text = site.around.text;
        made.notes.refuse(text, at, Diagnostic::DeclaredTwice)?;
    }
    let field = field_key(meaning);
    put_row(site, made, write_row(0, at, meaning), field)
}

/// A row whose name is new in the block.
pub(crate) fn make_new(
    site: &Site,
    made: &mut Made,
    name: u32,
    at: u32,
    meaning: RowMeaning,
) -> Result<Place, Memory>
    requires room { next_ordinal made.old < 2 ^ 32 }
    requires scopes { HasSmallScopes meaning }
    ensures place { IfOk result (λ place. place ≡ at_place site.now.around.now.scope (next_ordinal made.old)) }
    ensures rows { IfOk result (λ place. made.new.rows.items ≡ made.old.rows.items ++ row_of name at meaning ∷ []) }
    ensures notes { made.new.notes ≡ made.old.notes }
    ensures first { made.new.first ≡ made.old.first }
{
    let field = field_key(meaning);
    put_row(site, made, write_row(name, at, meaning), field)
}

/// A row without a name, as a piece of the item.
pub(crate) fn put_plain(
    site: &Site,
    made: &mut Made,
    at: u32,
    meaning: RowMeaning,
) -> Result<Place, Memory>
    requires room { next_ordinal made.old < 2 ^ 32 }
    requires scopes { HasSmallScopes meaning }
    ensures piece { (a : State) → IsMaking a.frame site.now made.old (nameless (kind_number meaning) at ∷ [])
        → IsNewMeaning a.frame site.now (next_ordinal made.old) meaning → Declares a a made.old made.new site.now
        (known_of result) (nameless (kind_number meaning) at ∷ []) IsBehind (λ c. spec_row c at meaning) }
    ensures place { IfOk result (λ place. place ≡ at_place site.now.around.now.scope (next_ordinal made.old)) }
    ensures count { IfOk result (λ _. next_ordinal made.new ≡ next_ordinal made.old + 1) }
{
    make_row(site, made, at, meaning)
}

/// A row with a name, as a piece of the item.
pub(crate) fn put_named(
    site: &Site,
    made: &mut Made,
    ident: Ident,
    meaning: RowMeaning,
) -> Result<Place, Memory>
    requires room { next_ordinal made.old < 2 ^ 32 }
    requires scopes { HasSmallScopes meaning }
    ensures piece { (a : State) → IsMaking a.frame site.now made.old (named (kind_number meaning) ident ∷ [])
        → ident.name ≢ 0 → ident.name < length a.frame.setting.texts.names
        → IsNewMeaning a.frame site.now (next_ordinal made.old) meaning
        → Declares a a made.old made.new site.now (known_of result) (named (kind_number meaning) ident ∷ []) IsBehind
        (λ c. spec_named c ident.name ident.at meaning) }
    ensures place { IfOk result (λ place. place ≡ at_place site.now.around.now.scope (next_ordinal made.old)) }
    ensures count { IfOk result (λ _. next_ordinal made.new ≡ next_ordinal made.old + 1) }
{
    make_named(site, made, ident.name, ident.at, meaning)
}
