//! The rows of an item, and what it gives beside them.
ghost use Rattle.std.specs.Prelude.{◌≡◌, ◌≤◌, [], filter, length, ◌+◌};
ghost use Rattle.m2_base.specs.Statics.Cells.{most_cells};
ghost use Rattle.m2_base.specs.Statics.Declarations.{declare as spec_declare};
ghost use Rattle.m2_base.specs.Statics.Items.{decl_item, import_item as spec_import};
ghost use Rattle.m2_base.specs.Statics.ProcedureRows.{is_proc};
ghost use Rattle.m2_base.specs.Statics.Shapes.{item_shapes};
ghost use Rattle.m2_base.specs.Views.{decl_view};
ghost use Rattle.type_rules.specs.Sites.{source_of};
ghost use Rattle.decl_sem.specs.ImportedModules.{IsFromBefore};
ghost use Rattle.decl_sem.specs.Brought.{DeclaresWith};
ghost use Rattle.decl_sem.specs.Items.{IsEffectOf, IsLoneEffect, item_view};
ghost use Rattle.decl_sem.specs.Pieces.{Declares, IsMaking};
ghost use Rattle.m2_base.specs.Statics.ReadTrees.{IsReadItem};

use crate::const_items::const_rows;
use crate::effects::{Effect, bringing, noted, only_cell};
use crate::imports::import_rows;
use crate::making::Made;
use crate::own_headings::heading_rows;
use crate::procedures::proc_rows;
use crate::type_items::type_name_rows;
use crate::variables::vars_rows;
use m2_base::{Ask, Decl, Heading, Ident, Memory, Scopes, Site, StreamKind};
use std::alloc::Global;

/// What declares in a block.
#[derive(Drop)]
pub enum Item<'a> {
    /// The heading of the block itself.
    Heading(&'a Heading),
    /// A name of an import, and the module after its FROM.
    Import(&'a Option<Ident>, Ident),
    Declaration(&'a Decl),
}

/// What the items before give: the next free cell, and the number of their procedures.
#[derive(Clone, Copy)]
pub struct Before {
    pub cell: u32,
    pub procedures: u32,
}

/// A name of an import.
fn import_item<S: Scopes>(
    alloc: Global,
    scopes: &mut S,
    site: &Site,
    _kind: StreamKind,
    from: &Option<Ident>,
    name: Ident,
    cell: u32,
    made: &mut Made,
) -> Result<Ask<Effect>, Memory>
    requires making { IsMaking (S.state scopes.old).frame site.now made.old (item_shapes (spec_import from.now name)) }
    requires read { IsReadItem site.now.texts.now.names (spec_import from.now name) }
    requires before { IsFromBefore (source_of site.now.texts.now) (S.state scopes.old).frame.setting.fills
        (spec_import from.now name) }
    requires cell { cell ≤ most_cells + 1 }
    ensures { DeclaresWith (S.state scopes.old) (S.state scopes.new) made.old made.new site.now result
        (item_shapes (spec_import from.now name)) (λ e. e.brought) (IsEffectOf (spec_import from.now name))
        (λ c. spec_declare c _kind (spec_import from.now name) cell) }
{
    match import_rows(alloc, scopes, site, from, name, made) {
        Ok(Ask::Known(brought)) => Ok(Ask::Known(bringing(alloc, cell, brought))),
        Ok(Ask::DontKnowYet(head)) => Ok(Ask::DontKnowYet(head)),
        Err(memory) => Err(memory),
    }
}

/// A declaration.
fn declaration<S: Scopes>(
    alloc: Global,
    scopes: &mut S,
    site: &Site,
    kind: StreamKind,
    declaration: &Decl,
    before: Before,
    made: &mut Made,
) -> Result<Ask<Effect>, Memory>
    requires making { IsMaking (S.state scopes.old).frame site.now made.old
        (item_shapes (decl_item (decl_view declaration.now))) }
    requires begun { made.old.rows.items ≡ [] }
    requires read { IsReadItem site.now.texts.now.names (decl_item (decl_view declaration.now)) }
    requires cell { before.cell ≤ most_cells + 1 }
    requires number { before.procedures ≡ length (filter is_proc (S.state scopes.old).frame.entered) }
    ensures { Declares (S.state scopes.old) (S.state scopes.new) made.old made.new site.now result
        (item_shapes (decl_item (decl_view declaration.now))) IsLoneEffect
        (λ c. spec_declare c kind (decl_item (decl_view declaration.now)) before.cell) }
{
    let cell = before.cell;
    match declaration {
        Decl::Const { name, value } => {
            analysed!(const_rows(scopes, site, *name, value, made));
            Ok(Ask::Known(only_cell(alloc, cell)))
        }
        Decl::Types { name, typ } => {
            analysed!(type_name_rows(alloc, scopes, site, *name, typ, made));
            Ok(Ask::Known(only_cell(alloc, cell)))
        }
        Decl::Vars { names, typ } => {
            let next = analysed!(vars_rows(alloc, scopes, site, names, typ, cell, made));
            Ok(Ask::Known(only_cell(alloc, next)))
        }
        Decl::Proc { heading, stream } => {
            let procedures = before.procedures;
            let note = analysed!(proc_rows(
                scopes, site, kind, heading, *stream, procedures, made,
            ));
            Ok(Ask::Known(noted(alloc, cell, note)))
        }
    }
}

/// An item, whatever it is.
pub(crate) fn item_rows<S: Scopes>(
    alloc: Global,
    scopes: &mut S,
    site: &Site,
    kind: StreamKind,
    item: &Item,
    before: Before,
    made: &mut Made,
) -> Result<Ask<Effect>, Memory>
    requires making { IsMaking (S.state scopes.old).frame site.now made.old (item_shapes (item_view item.now)) }
    requires begun { made.old.rows.items ≡ [] }
    requires read { IsReadItem site.now.texts.now.names (item_view item.now) }
    requires before { IsFromBefore (source_of site.now.texts.now) (S.state scopes.old).frame.setting.fills
        (item_view item.now) }
    requires cell { before.cell ≤ most_cells + 1 }
    requires number { before.procedures ≡ length (filter is_proc (S.state scopes.old).frame.entered) }
    ensures { DeclaresWith (S.state scopes.old) (S.state scopes.new) made.old made.new site.now result
        (item_shapes (item_view item.now)) (λ e. e.brought) (IsEffectOf (item_view item.now))
        (λ c. spec_declare c kind (item_view item.now) before.cell) }
{
    match item {
        Item::Heading(heading) => heading_rows(alloc, scopes, site, heading, made),
        Item::Import(from, name) => {
            import_item(alloc, scopes, site, kind, from, *name, before.cell, made)
        }
        Item::Declaration(decl) => declaration(alloc, scopes, site, kind, decl, before, made),
    }
}
