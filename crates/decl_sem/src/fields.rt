//! The fields of a record, and the tag of a variant part.
ghost use Rattle.std.specs.Prelude.{◌≡◌, ◌∷◌, ◌++◌, [], ◌+◌, ◌<◌, ◌≤◌, ◌^◌, if◌then◌else◌, map, IfOk};
ghost use Rattle.m2_base.specs.Gives.{gives};
ghost use Rattle.m2_base.specs.Lists.{IsPrefixOf};
ghost use Rattle.m2_base.specs.Rows.{field_kind};
ghost use Rattle.m2_base.specs.Standard.{broken};
ghost use Rattle.m2_base.specs.States.{State};
ghost use Rattle.m2_base.specs.Statics.Cells.{most_cells};
ghost use Rattle.m2_base.specs.Statics.Contexts.{refuse as refuses};
ghost use Rattle.m2_base.specs.Statics.Diagnostics.{declared_twice, wrong_operands};
ghost use Rattle.m2_base.specs.Statics.Fields.{field_row, plain_rows, tag_rows, tag_type};
ghost use Rattle.m2_base.specs.Statics.Makes.{only_gives};
ghost use Rattle.m2_base.specs.Statics.ReadTrees.{AreReadNames, IsReadName, IsReadOption, IsReadQual};
ghost use Rattle.m2_base.specs.Statics.Shapes.{nameless, tag_shapes};
ghost use Rattle.decl_sem.specs.FieldNotes.{sized_fields};
ghost use Rattle.decl_sem.specs.Making.{diag_in, next_ordinal};
ghost use Rattle.decl_sem.specs.Pieces.{Declares, IsBehind, IsMaking, item_end, known_of};
ghost use Rattle.decl_sem.specs.Records.{IsOffset, IsOwner, IsTagType};
ghost use Rattle.decl_sem.specs.Stood.{is_no_tag as spec_is_no_tag};

use crate::cells::capped;
use crate::making::Made;
use crate::names::{refuse, small_place, type_of_qual};
use crate::putting::plain_row;
use crate::standing::stand_in;
use crate::variables::cells_of;
use m2_base::{Ask, Diagnostic, Ident, Memory, Notes, Place, Qual, RowMeaning, Scopes, Site};
use type_rules::{BROKEN, range_by};

/// Notes a second field of a name.
fn note_second(site: &Site, at: u32, second: bool, notes: &mut Notes) -> Result<(), Memory>
    ensures noted { IfOk result (λ _. notes.new.diags.items
        ≡ notes.old.diags.items ++ (if second then diag_in site.now.around.now.text at declared_twice ∷ [] else [])) }
    ensures diags { IsPrefixOf notes.old.diags.items notes.new.diags.items }
    ensures answers { notes.new.answers.items ≡ notes.old.answers.items }
{
    if second {
        put!(refuse(site, at, Diagnostic::DeclaredTwice, notes));
    }
    Ok(())
}

/// A field, of the record whose row has this ordinal. The second of a name in a record is refused.
fn put_field<S: Scopes>(
    scopes: &S,
    site: &Site,
    made: &mut Made,
    own: u32,
    name: Ident,
    of: Place,
    offset: u32,
) -> Result<Place, Memory>
    requires making { IsMaking (S.state scopes.now).frame site.now made.old (nameless field_kind name.at ∷ []) }
    requires of { IsBehind (S.state scopes.now).frame (next_ordinal made.old) of }
    requires read { IsReadName site.now.texts.now.names name }
    requires behind { made.old.first ≤ own }
    requires within { own < item_end site.now }
    requires offset { offset ≤ most_cells + 1 }
    ensures { Declares (S.state scopes.now) (S.state scopes.now) made.old made.new site.now (known_of result)
        (nameless field_kind name.at ∷ []) IsBehind (λ c. field_row c own name of offset) }
{
    let second = made.rows.has_field(own, name.name);
    put!(note_second(site, name.at, second, &mut made.notes));
    let meaning = RowMeaning::Field(of, offset, own, name.name);
    plain_row(scopes, site, made, name.at, meaning)
}

/// Fields of a type of this size, from this offset on. The value is the offset behind them.
fn put_sized<S: Scopes>(
    scopes: &S,
    site: &Site,
    made: &mut Made,
    own: u32,
    of: Place,
    size: u64,
    offset: u32,
    names: &[Ident],
) -> Result<u32, Memory>
    requires making { IsMaking (S.state scopes.now).frame site.now made.old
        (map (λ i. nameless field_kind i.at) names.now) }
    requires of { IsBehind (S.state scopes.now).frame (next_ordinal made.old) of }
    requires read { AreReadNames site.now.texts.now.names names.now }
    requires owner { IsOwner site.now made.old (map (λ i. nameless field_kind i.at) names.now) own }
    requires size { size < 2 ^ 32 }
    requires offset { offset ≤ most_cells + 1 }
    ensures { Declares (S.state scopes.now) (S.state scopes.now) made.old made.new site.now (known_of result)
        (map (λ i. nameless field_kind i.at) names.now) IsOffset (λ c. sized_fields c own of size offset names.now) }
{
    let mut next = offset;
    for name in names {
        match put_field(scopes, site, made, own, *name, of, next) {
            Ok(_) => next = capped(next as u64 + size),
            Err(memory) => return Err(memory),
        }
    }
    Ok(next)
}

/// Fields of one type that is made, from this offset on, of the record whose row has this ordinal. The value is the
/// offset behind them.
pub(crate) fn put_fields<S: Scopes>(
    scopes: &mut S,
    site: &Site,
    made: &mut Made,
    own: u32,
    of: Place,
    offset: u32,
    names: &[Ident],
) -> Result<Ask<u32>, Memory>
    requires making { IsMaking (S.state scopes.old).frame site.now made.old
        (map (λ i. nameless field_kind i.at) names.now) }
    requires of { IsBehind (S.state scopes.old).frame (next_ordinal made.old) of }
    requires read { AreReadNames site.now.texts.now.names names.now }
    requires owner { IsOwner site.now made.old (map (λ i. nameless field_kind i.at) names.now) own }
    requires offset { offset ≤ most_cells + 1 }
    ensures { Declares (S.state scopes.old) (S.state scopes.new) made.old made.new site.now result
        (map (λ i. nameless field_kind i.at) names.now) IsOffset (λ c. plain_rows c own of offset names.now) }
{
    match cells_of(scopes, site, made, of) {
        Ask::Known(size) => match put_sized(scopes, site, made, own, of, size, offset, names) {
            Ok(next) => Ok(Ask::Known(next)),
            Err(memory) => Err(memory),
        },
        Ask::DontKnowYet(head) => Ok(Ask::DontKnowYet(head)),
    }
}

/// Whether a type is that of no tag: it is neither ordinal nor in error.
fn is_no_tag(stood: (Place, RowMeaning)) -> bool
    ensures { result ≡ spec_is_no_tag stood }
{
    let ordinal = range_by(stood.1).is_some();
    stood.0 != BROKEN && !ordinal
}

/// A tag's type that is kept, or refused and then in error.
fn keep_tag(site: &Site, at: u32, wrong: bool, of: Place, made: &mut Made) -> Result<Place, Memory>
    ensures { (a : State) → IsMaking a.frame site.now made.old [] → IsTagType a.frame (next_ordinal made.old) of
        → Declares a a made.old made.new site.now (known_of result) [] IsTagType
        (λ c. only_gives (if wrong then refuses c at wrong_operands broken else gives of)) }
{
    if wrong {
        put!(refuse(site, at, Diagnostic::WrongOperands, &mut made.notes));
        return Ok(BROKEN);
    }
    Ok(of)
}

/// The type of a variant part's tag. One that isn't ordinal is refused, and in error.
pub(crate) fn tag_in<S: Scopes>(
    scopes: &mut S,
    site: &Site,
    qual: Qual,
    made: &mut Made,
) -> Result<Ask<Place>, Memory>
    requires making { IsMaking (S.state scopes.old).frame site.now made.old [] }
    requires read { IsReadQual site.now.texts.now.names qual }
    ensures { Declares (S.state scopes.old) (S.state scopes.new) made.old made.new site.now result [] IsTagType
        (λ c. only_gives (tag_type c qual)) }
{
    let named = analysed!(type_of_qual(scopes, site, qual, &mut made.notes));
    let of = small_place(named);
    let stood = asked!(stand_in(scopes, site, made, of));
    let wrong = is_no_tag(stood);
    let tag = put!(keep_tag(site, qual.first.at, wrong, of, made));
    Ok(Ask::Known(tag))
}

/// The tag of a variant part, where it has a name, at this offset, of the record whose row has this ordinal. The value
/// is the offset behind it.
pub(crate) fn put_tag<S: Scopes>(
    scopes: &S,
    site: &Site,
    made: &mut Made,
    own: u32,
    of: Place,
    offset: u32,
    tag: Option<Ident>,
) -> Result<u32, Memory>
    requires making { IsMaking (S.state scopes.now).frame site.now made.old (tag_shapes tag) }
    requires of { IsBehind (S.state scopes.now).frame (next_ordinal made.old) of }
    requires read { IsReadOption site.now.texts.now.names tag }
    requires owner { IsOwner site.now made.old (tag_shapes tag) own }
    requires offset { offset ≤ most_cells + 1 }
    ensures { Declares (S.state scopes.now) (S.state scopes.now) made.old made.new site.now (known_of result)
        (tag_shapes tag) IsOffset (λ c. tag_rows c own offset of tag) }
{
    let Some(name) = tag else {
        return Ok(offset);
    };
    match put_field(scopes, site, made, own, name, of, offset) {
        Ok(_) => Ok(capped(offset as u64 + 1)),
        Err(memory) => Err(memory),
    }
}
