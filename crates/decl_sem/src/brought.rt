//! The constants of an enumeration whose type an import names: which of them are new in the block?
ghost use Rattle.std.specs.HashSet.{contains};
ghost use Rattle.std.specs.List.{list_any};
ghost use Rattle.std.specs.Option.{IfSome};
ghost use Rattle.std.specs.Prelude.{◌≡◌, ◌<◌, ◌≤◌, ◌+◌, ◌++◌, ◌∷◌, ◌||◌, ◌^◌, ℕ, List, [], length, map, nat_eq};
ghost use Rattle.std.specs.Prelude.{nat_lt, option_map, true, false, cond, not, ◌≢◌, Some, IfOk};
ghost use Rattle.m2_base.specs.Asks.{IfKnown, IfWaits};
ghost use Rattle.m2_base.specs.Rows.{Fits, HasSmallNumbers, at_place, is_same_place, row_meaning};
ghost use Rattle.m2_base.specs.Standard.{is_standard as spec_is_standard};
ghost use Rattle.m2_base.specs.States.{Frame, Waits};
ghost use Rattle.m2_base.specs.declared.sites.Around.{Around as Surroundings};
ghost use Rattle.m2_base.specs.Statics.Contexts.{Context, Scene, row_at};
ghost use Rattle.m2_base.specs.Statics.ImportedConstants.{Member as PlainMember, leads_elsewhere, members_of};
ghost use Rattle.m2_base.specs.Statics.ImportedConstants.{members_of_row};
ghost use Rattle.m2_base.specs.Statics.Lookup.{entry_at, entry_in};
ghost use Rattle.m2_base.specs.Statics.Uses.{followed};
ghost use Rattle.m2_base.specs.Tables.{rows_at};
ghost use Rattle.m2_base.specs.declared.limits.TheConstants as limits;
ghost use Rattle.type_rules.specs.Asks.{Reads, WhereKnown, WhereWaiting};
ghost use Rattle.type_rules.specs.Scenes.{IsRowOf, IsThere, Suits, WhereTold, rows_of, scene_of};
ghost use Rattle.type_rules.specs.Sites.{SuitsSite};
ghost use Rattle.decl_sem.specs.FoundConstants.{AreFound, AreSeen, IsMember, constant_by, constants_left};
ghost use Rattle.decl_sem.specs.FoundConstants.{constants_of, member_view, members_of_named, with_member};
ghost use Rattle.decl_sem.specs.Making.{next_ordinal};
ghost use Rattle.decl_sem.specs.NewNames.{earlier_row};
ghost use Rattle.decl_sem.specs.Pieces.{IsMaking, WhereMaking};

use crate::making::{Made, is_standard, next_row};
use crate::names::small_place;
use crate::standing::meaning_in;
use m2_base::{Ask, MOST_BROUGHT, Memory, Place, Row, RowMeaning, Scopes, Site, read_row};
use std::alloc::Global;
use std::collections::HashSet;
use type_rules::{meaning_at, row_before};

/// A row with its place.
type Entry = (Place, Row);

/// A constant of an enumeration: its name, and the place of its row.
#[derive(Clone, Copy)]
pub(crate) struct Member {
    pub(crate) name: u32,
    pub(crate) place: Place,
}

/// What is found so far among the constants of an enumeration: those that are new in the block, an index of their
/// names, and whether one of the others is hidden behind another row of the block.
#[derive(Drop)]
pub(crate) struct Found {
    pub(crate) members: Vec<Member>,
    pub(crate) names: HashSet<u32>,
    pub(crate) hidden: bool,
}

impl Found {
    /// Nothing yet.
    fn new(alloc: Global) -> Found
        ensures members { result.members.items ≡ [] }
        ensures names { (n : ℕ) → contains nat_eq result.names n ≡ false }
        ensures hidden { result.hidden ≡ false }
    {
        Found {
            members: Vec::new(alloc),
            names: HashSet::new(alloc),
            hidden: false,
        }
    }

    /// One more constant, unless its name is a standard one or that of a new one.
    fn add(&mut self, member: Member) -> Result<(), Memory>
        ensures given { IfOk result (λ _. (spec_is_standard member.name
            || contains nat_eq self.old.names member.name) ≡ true → self.new ≡ self.old) }
        ensures items { IfOk result (λ _. (spec_is_standard member.name || contains nat_eq self.old.names member.name)
            ≡ false → self.new.members.items ≡ self.old.members.items ++ member ∷ []) }
        ensures names { IfOk result
            (λ _. (spec_is_standard member.name || contains nat_eq self.old.names member.name) ≡ false → (n : ℕ)
            → contains nat_eq self.new.names n ≡ cond (nat_eq member.name n) true (contains nat_eq self.old.names n)) }
        ensures hidden { IfOk result (λ _. self.new.hidden ≡ self.old.hidden) }
    {
        if is_standard(member.name) || self.names.contains(&member.name) {
            return Ok(());
        }
        self.names.insert(member.name)?;
        self.members.push(member)?;
        Ok(())
    }

    /// One more constant that the block has: it may be hidden.
    fn hide(&mut self, hidden: bool)
        ensures members { self.new.members ≡ self.old.members }
        ensures names { self.new.names ≡ self.old.names }
        ensures hidden { self.new.hidden ≡ (self.old.hidden || hidden) }
    {
        self.hidden = self.hidden || hidden;
    }
}

/// The ordinal of the block's row of this name, if one is made so far.
fn earlier(site: &Site, made: &Made, name: u32) -> Option<u32>
    requires { next_ordinal made.now < 2 ^ 32 }
    ensures { result ≡ earlier_row site.now.layout.now (next_ordinal made.now) name }
{
    if is_standard(name) {
        return None;
    }
    let named = site.layout.first(name)?;
    if named.ordinal < next_row(made) {
        Some(named.ordinal)
    } else {
        None
    }
}

/// The place to which the row with this ordinal of the block's scope leads.
fn leads_to<S: Scopes>(scopes: &mut S, site: &Site, made: &Made, ordinal: u32) -> Ask<Place>
    requires making { IsMaking (S.state scopes.old).frame site.now made.now [] }
    requires within { ordinal < next_ordinal made.now }
    ensures reads { Reads (S.state scopes.old) (S.state scopes.new) }
    ensures waits { WhereWaiting result (λ head. Waits (S.state scopes.old) (S.state scopes.new) head) }
    ensures told { WhereMaking (S.state scopes.old).frame made.now (λ hand.
        WhereKnown result (λ place. let scene = scene_of (S.state scopes.old).frame hand site.now.around.now in
        place ≡ (followed scene (entry_at scene (at_place site.now.around.now.scope ordinal))).0)) }
{
    let scope = site.around.scope;
    let own = Place { scope, ordinal };
    match known!(meaning_in(scopes, site, made, own)) {
        RowMeaning::Alias(target) => Ask::Known(target),
        _ => Ask::Known(own),
    }
}

/// Whether two places differ.
pub(crate) fn differ(one: Place, other: Place) -> bool
    ensures { result ≡ not (is_same_place one other) }
{
    one.scope != other.scope || one.ordinal != other.ordinal
}

/// Whether the block has another row under this name than the one at this place.
pub(crate) fn is_hidden<S: Scopes>(
    scopes: &mut S,
    site: &Site,
    made: &Made,
    name: u32,
    place: Place,
) -> Ask<bool>
    requires making { IsMaking (S.state scopes.old).frame site.now made.now [] }
    requires named { name ≢ 0 }
    ensures reads { Reads (S.state scopes.old) (S.state scopes.new) }
    ensures waits { WhereWaiting result (λ head. Waits (S.state scopes.old) (S.state scopes.new) head) }
    ensures told { WhereMaking (S.state scopes.old).frame made.now (λ hand.
        WhereKnown result (λ hidden. let scene = scene_of (S.state scopes.old).frame hand site.now.around.now in
        hidden ≡ leads_elsewhere scene place (entry_in scene.tables scene.block.scope name))) }
{
    let Some(ordinal) = earlier(site, made, name) else {
        return Ask::Known(false);
    };
    let target = known!(leads_to(scopes, site, made, ordinal));
    Ask::Known(differ(target, place))
}

/// One more constant of an enumeration: it is new, or the block hides it, or neither.
fn take_member<S: Scopes>(
    scopes: &mut S,
    site: &Site,
    made: &Made,
    member: Member,
    found: &mut Found,
) -> Result<Ask<()>, Memory>
    requires making { IsMaking (S.state scopes.old).frame site.now made.now [] }
    requires member { IsMember (S.state scopes.old).frame member }
    ensures reads { Reads (S.state scopes.old) (S.state scopes.new) }
    ensures waits { IfWaits result (λ head. Waits (S.state scopes.old) (S.state scopes.new) head) }
    ensures found { IfKnown result (λ _. (all rest : Context → List PlainMember)
        → AreFound (S.state scopes.old).frame site.now made.now all (λ c. member_view member ∷ rest c) found.old
        → AreFound (S.state scopes.old).frame site.now made.now all rest found.new) }
{
    let Some(ordinal) = earlier(site, made, member.name) else {
        put!(found.add(member));
        return Ok(Ask::Known(()));
    };
    let target = asked!(leads_to(scopes, site, made, ordinal));
    found.hide(differ(target, member.place));
    Ok(Ask::Known(()))
}

/// The constant in a row, if it has a name.
fn constant_in(row: &Row, place: Place) -> Option<Member>
    requires { HasSmallNumbers (row_meaning row.now) }
    ensures { option_map member_view result ≡ constant_by place row.now }
{
    match read_row(row) {
        RowMeaning::Const(..) if row.name != 0 => Some(Member {
            name: row.name,
            place,
        }),
        _ => None,
    }
}

/// The constant at a place of a scope before, if it has a name; none past the scope's end.
fn constant_at<S: Scopes>(scopes: &mut S, site: &Site, place: Place) -> Ask<Option<Member>>
    requires suits { SuitsSite (S.state scopes.old).frame site.now }
    requires before { place.scope < (S.state scopes.old).frame.setting.fills }
    ensures reads { Reads (S.state scopes.old) (S.state scopes.new) }
    ensures waits { WhereWaiting result (λ head. Waits (S.state scopes.old) (S.state scopes.new) head) }
    ensures told { WhereTold (S.state scopes.old).frame (λ made.
        WhereKnown result (λ member.
        option_map member_view member ≡ constant_by place (row_at (rows_of (S.state scopes.old).frame made) place))) }
    ensures member { WhereKnown result (λ member. IfSome member (λ m. IsMember (S.state scopes.old).frame m)) }
{
    match known!(row_before(scopes, site.around, place)) {
        Some(row) => Ask::Known(constant_in(&row, small_place(place))),
        None => Ask::Known(None),
    }
}

/// The constant at a place of a scope before, if there is one.
fn take_place<S: Scopes>(
    scopes: &mut S,
    site: &Site,
    made: &Made,
    place: Place,
    found: &mut Found,
) -> Result<Ask<()>, Memory>
    requires making { IsMaking (S.state scopes.old).frame site.now made.now [] }
    requires before { place.scope < (S.state scopes.old).frame.setting.fills }
    ensures reads { Reads (S.state scopes.old) (S.state scopes.new) }
    ensures waits { IfWaits result (λ head. Waits (S.state scopes.old) (S.state scopes.new) head) }
    ensures found { IfKnown result (λ _. (all rest : Context → List PlainMember) → AreFound (S.state scopes.old).frame
        site.now made.now all (λ c. with_member (constant_by place (row_at c.scene.tables place)) (rest c)) found.old
        → AreFound (S.state scopes.old).frame site.now made.now all rest found.new) }
{
    let Some(member) = asked!(constant_at(scopes, site, place)) else {
        return Ok(Ask::Known(()));
    };
    take_member(scopes, site, made, member, found)
}

/// Whether the block's imports would bring too many with these.
pub(crate) fn is_full(site: &Site, found: &Found) -> bool
    ensures { result
        ≡ nat_lt limits.MOST_BROUGHT (length site.now.layout.now.brought + length found.now.members.items) }
{
    MOST_BROUGHT
        < site
            .layout
            .count_brought()
            .saturating_add(found.members.len())
}

/// The constants of an enumeration at this place of a scope before that has so many,
/// or so many of them that they are too many.
fn constants_in<S: Scopes>(
    alloc: Global,
    scopes: &mut S,
    site: &Site,
    made: &Made,
    of: Place,
    count: u32,
) -> Result<Ask<Found>, Memory>
    requires making { IsMaking (S.state scopes.old).frame site.now made.now [] }
    requires before { of.scope < (S.state scopes.old).frame.setting.fills }
    ensures reads { Reads (S.state scopes.old) (S.state scopes.new) }
    ensures waits { IfWaits result (λ head. Waits (S.state scopes.old) (S.state scopes.new) head) }
    ensures seen { IfKnown result (λ found.
        AreSeen (S.state scopes.old).frame site.now made.now (λ c. constants_of c.scene (Some (of, count))) found) }
{
    let mut found = Found::new(alloc);
    let (first, end) = ordinals_of(of, count);
    for ordinal in first..end {
        let scope = of.scope;
        let place = Place { scope, ordinal };
        analysed!(take_place(scopes, site, made, place, &mut found));
        if is_full(site, &found) {
            return Ok(Ask::Known(found));
        }
    }
    Ok(Ask::Known(found))
}

/// The ordinals of an enumeration's constants: the first, and that behind the last.
/// No row stands behind the greatest ordinal.
fn ordinals_of(of: Place, count: u32) -> (u32, u32)
    ensures { (c : Context) → length (rows_at c.scene.tables of.scope) < 2 ^ 32
        → constants_of c.scene (Some (of, count)) ≡ constants_left of.scope result.0 result.1 c }
{
    let first = of.ordinal.saturating_add(1);
    let end = first.saturating_add(count);
    (first, end)
}

/// The type to which the name of a type leads, unless it is one of the standard scope.
fn named_type(row: &Row, place: Place) -> Option<Place>
    requires small { HasSmallNumbers (row_meaning row.now) }
    ensures told { (scene : Scene) → members_of_row scene (row_meaning row.now) ≡ members_of_named scene result }
    ensures there { (f : Frame) (a : Surroundings) (n : ℕ) → Suits f a → IsThere f place
        → Fits n place (row_meaning row.now) → IfSome result (λ t. IsThere f t) }
    ensures upto { (n : ℕ) → Fits n place (row_meaning row.now) → IfSome result (λ t. t.scope ≤ place.scope) }
{
    let _place = small_place(place);
    match read_row(row) {
        RowMeaning::TypeName(of) if of.scope != 0 => Some(of),
        _ => None,
    }
}

/// The enumeration to whose name an entry of a scope before leads: its place, and the number of its constants. The
/// standard scope's brings nothing.
fn enumeration_of<S: Scopes>(
    scopes: &mut S,
    site: &Site,
    entry: Option<Entry>,
) -> Ask<Option<(Place, u32)>>
    requires suits { SuitsSite (S.state scopes.old).frame site.now }
    requires row { IfSome entry (λ e. IsRowOf (S.state scopes.old).frame e.0 e.1) }
    requires before { IfSome entry (λ e. e.0.scope < (S.state scopes.old).frame.setting.fills) }
    ensures reads { Reads (S.state scopes.old) (S.state scopes.new) }
    ensures waits { WhereWaiting result (λ head. Waits (S.state scopes.old) (S.state scopes.new) head) }
    ensures before { WhereKnown result (λ of. IfSome of (λ e. e.0.scope < (S.state scopes.old).frame.setting.fills)) }
    ensures told { WhereTold (S.state scopes.old).frame (λ made.
        WhereKnown result (λ of. let scene = scene_of (S.state scopes.old).frame made site.now.around.now in
        members_of scene entry ≡ constants_of scene of)) }
{
    let Some((place, row)) = entry else {
        return Ask::Known(None);
    };
    let Some(of) = named_type(&row, place) else {
        return Ask::Known(None);
    };
    match known!(meaning_at(scopes, site.around, of)) {
        RowMeaning::Enum(count) => Ask::Known(Some((of, count))),
        _ => Ask::Known(None),
    }
}

/// What the constants are to which an import leads that names this entry.
pub(crate) fn members_in<S: Scopes>(
    alloc: Global,
    scopes: &mut S,
    site: &Site,
    entry: Option<Entry>,
    made: &Made,
) -> Result<Ask<Found>, Memory>
    requires making { IsMaking (S.state scopes.old).frame site.now made.now [] }
    requires row { IfSome entry (λ e. IsRowOf (S.state scopes.old).frame e.0 e.1) }
    requires before { IfSome entry (λ e. e.0.scope < (S.state scopes.old).frame.setting.fills) }
    ensures reads { Reads (S.state scopes.old) (S.state scopes.new) }
    ensures waits { IfWaits result (λ head. Waits (S.state scopes.old) (S.state scopes.new) head) }
    ensures seen { IfKnown result
        (λ found. AreSeen (S.state scopes.old).frame site.now made.now (λ c. members_of c.scene entry) found) }
{
    let Some((of, count)) = asked!(enumeration_of(scopes, site, entry)) else {
        return Ok(Ask::Known(Found::new(alloc)));
    };
    constants_in(alloc, scopes, site, made, of, count)
}
