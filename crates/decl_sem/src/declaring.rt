//! What an item declares.
ghost use Rattle.std.specs.Prelude.{◌≡◌};
ghost use Rattle.m2_base.specs.Statics.Declarations.{declare as spec_declare};
ghost use Rattle.m2_base.specs.Statics.Shapes.{item_shapes};
ghost use Rattle.m2_base.specs.Views.{stream_view};
ghost use Rattle.decl_sem.specs.DeclaredItems.{DeclaresItem};
ghost use Rattle.decl_sem.specs.Items.{IsAtItem, item_view};
ghost use Rattle.decl_sem.specs.Pieces.{first_by};

use crate::effects::Effect;
use crate::items::{Before, Item, item_rows};
use crate::made_rows::MadeRows;
use crate::making::Made;
use m2_base::{Ask, Memory, Notes, Row, Scopes, Site, Stream};
use std::alloc::Global;

/// The rows of an item, what was noted, and what it gives beside them.
#[derive(Drop)]
pub struct Declared {
    pub rows: Vec<Row>,
    pub notes: Notes,
    pub effect: Effect,
}

/// The ordinal of the first row of the site's item.
fn first_ordinal(site: &Site) -> Option<u32>
    ensures { result ≡ first_by site.now.layout.now site.now.item }
{
    let item = site.item?;
    site.layout.first_row(item)
}

/// What an item of a block declares. The answer is the definition's, or that it isn't known yet.
pub fn declare<S: Scopes>(
    alloc: Global,
    scopes: &mut S,
    site: &Site,
    stream: &Stream,
    item: &Item,
    before: Before,
) -> Result<Ask<Declared>, Memory>
    requires { IsAtItem (S.state scopes.old).frame site.now (stream_view stream.now)
        (item_view item.now) before.cell before.procedures }
    ensures { DeclaresItem (S.state scopes.old) (S.state scopes.new) site.now (stream_view stream.now) result
        (item_shapes (item_view item.now)) (λ c. spec_declare c stream.now.kind (item_view item.now) before.cell) }
{
    let Some(first) = first_ordinal(site) else {
        unreachable!()
    };
    let rows = MadeRows::new(alloc);
    let notes = Notes::new(alloc);
    let mut made = Made { first, rows, notes };
    match item_rows(alloc, scopes, site, stream.kind, item, before, &mut made) {
        Ok(Ask::Known(effect)) => {
            let Made { rows, notes, .. } = made;
            let declared = Declared {
                rows: rows.into_list(),
                notes,
                effect,
            };
            Ok(Ask::Known(declared))
        }
        Ok(Ask::DontKnowYet(head)) => Ok(Ask::DontKnowYet(head)),
        Err(memory) => Err(memory),
    }
}
