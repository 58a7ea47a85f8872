//! Variables of one type, each with the cells of that type.
ghost use Rattle.std.specs.Prelude.{◌≡◌, ◌++◌, [], ◌-◌, ◌<◌, ◌≤◌, ◌^◌, List, None, map, slice_get, Some, IfSome, ◌+◌};
ghost use Rattle.m2_base.specs.Lists.{Each};
ghost use Rattle.m2_base.specs.Rows.{HasSmallNumbers, row_meaning, var_kind};
ghost use Rattle.m2_base.specs.States.{Waits};
ghost use Rattle.m2_base.specs.Statics.Cells.{most_cells};
ghost use Rattle.m2_base.specs.Statics.NameRows.{vars_rows as spec_all};
ghost use Rattle.m2_base.specs.Statics.Shapes.{named, type_shapes};
ghost use Rattle.m2_base.specs.Statics.Types.{size_by as spec_size_by, size_of as spec_size};
ghost use Rattle.m2_base.specs.Views.{type_view};
ghost use Rattle.m2_base.specs.declared.rows.Row.{Row as PlainRow};
ghost use Rattle.type_rules.specs.Asks.{Reads, WhereKnown, WhereWaiting};
ghost use Rattle.type_rules.specs.Scenes.{NamesNoType};
ghost use Rattle.type_rules.specs.Sites.{context_of};
ghost use Rattle.decl_sem.specs.Making.{next_ordinal};
ghost use Rattle.decl_sem.specs.Pieces.{Declares, IsBehind, IsMaking, WhereMaking, holding, known_of};
ghost use Rattle.m2_base.specs.Statics.ReadTrees.{AreReadNames, IsReadType};
ghost use Rattle.decl_sem.specs.Variables.{IsCell, sized_rows};

use crate::cells::capped;
use crate::making::Made;
use crate::putting::name_row;
use crate::types::type_in;
use m2_base::{Ask, Ident, Memory, Mode, Place, Row, RowMeaning, Scopes, Site, TypeExpr, read_row};
use std::alloc::Global;
use type_rules::size_of;

/// The row of a type, where it is in hand.
fn row_in_hand(site: &Site, made: &Made, of: Place) -> Option<Row>
    ensures own { IfSome result (λ row. of.scope ≡ site.now.around.now.scope) }
    ensures found { IfSome result (λ row.
        (made.now.first ≤ of.ordinal) × (slice_get made.now.rows.items (of.ordinal - made.now.first) ≡ Some row)) }
    ensures before { result ≡ None → of.scope ≡ site.now.around.now.scope → of.ordinal < next_ordinal made.now
        → of.ordinal < made.now.first }
{
    if of.scope != site.around.scope || of.ordinal < made.first {
        return None;
    }
    let rows = made.rows.list();
    rows.get((of.ordinal - made.first) as usize).copied()
}

/// The cells of a type by its row.
pub(crate) fn cells_in(row: &Row) -> u64
    requires { HasSmallNumbers (row_meaning row.now) }
    ensures is { result ≡ spec_size_by (row_meaning row.now) }
    ensures small { result < 2 ^ 32 }
{
    match read_row(row) {
        RowMeaning::Array(_, _, size) | RowMeaning::Record(_, size) => size as u64,
        _ => 1,
    }
}

/// The cells of a type whose row may be in hand, now and when more rows are made.
pub(crate) fn cells_of<S: Scopes>(scopes: &mut S, site: &Site, made: &Made, of: Place) -> Ask<u64>
    requires making { IsMaking (S.state scopes.old).frame site.now made.now [] }
    requires of { IsBehind (S.state scopes.old).frame (next_ordinal made.now) of }
    ensures reads { Reads (S.state scopes.old) (S.state scopes.new) }
    ensures waits { WhereWaiting result (λ head. Waits (S.state scopes.old) (S.state scopes.new) head) }
    ensures told { WhereMaking (S.state scopes.old).frame made.now (λ hand.
        WhereKnown result (λ size. (more : List PlainRow) → Each (λ r. NamesNoType (row_meaning r)) more
        → size ≡ spec_size (context_of (S.state scopes.old).frame (holding hand more) site.now).scene of)) }
    ensures small { WhereKnown result (λ size. size < 2 ^ 32) }
{
    match row_in_hand(site, made, of) {
        Some(row) => Ask::Known(cells_in(&row)),
        None => size_of(scopes, site.around, of),
    }
}

/// Variables of a type of this size, from this cell on. The value is the next free cell.
fn put_variables<S: Scopes>(
    scopes: &S,
    site: &Site,
    made: &mut Made,
    of: Place,
    size: u64,
    cell: u32,
    names: &[Ident],
) -> Result<u32, Memory>
    requires making { IsMaking (S.state scopes.now).frame site.now made.old (map (named var_kind) names.now) }
    requires of { IsBehind (S.state scopes.now).frame (next_ordinal made.old) of }
    requires read { AreReadNames site.now.texts.now.names names.now }
    requires size { size < 2 ^ 32 }
    requires cell { cell ≤ most_cells + 1 }
    ensures { Declares (S.state scopes.now) (S.state scopes.now) made.old made.new site.now (known_of result)
        (map (named var_kind) names.now) IsCell (λ c. sized_rows c of size cell names.now) }
{
    let mut next = cell;
    for name in names {
        let meaning = RowMeaning::Var(of, Mode::Plain, next);
        match name_row(scopes, site, made, *name, meaning) {
            Ok(_) => next = capped(next as u64 + size),
            Err(memory) => return Err(memory),
        }
    }
    Ok(next)
}

/// The rows of a type, and the variables of it, from this cell on. The value is the next free cell.
pub(crate) fn vars_rows<S: Scopes>(
    alloc: Global,
    scopes: &mut S,
    site: &Site,
    names: &[Ident],
    typ: &TypeExpr,
    cell: u32,
    made: &mut Made,
) -> Result<Ask<u32>, Memory>
    requires making { IsMaking (S.state scopes.old).frame site.now made.old
        (type_shapes (type_view typ.now) ++ map (named var_kind) names.now) }
    requires read { IsReadType site.now.texts.now.names (type_view typ.now) }
    requires named { AreReadNames site.now.texts.now.names names.now }
    requires cell { cell ≤ most_cells + 1 }
    ensures { Declares (S.state scopes.old) (S.state scopes.new) made.old made.new site.now result
        (type_shapes (type_view typ.now) ++ map (named var_kind) names.now) IsCell
        (λ c. spec_all c names.now (type_view typ.now) cell) }
{
    let of = analysed!(type_in(alloc, scopes, site, typ, made));
    let size = asked!(cells_of(scopes, site, made, of));
    let next = put!(put_variables(scopes, site, made, of, size, cell, names));
    Ok(Ask::Known(next))
}
