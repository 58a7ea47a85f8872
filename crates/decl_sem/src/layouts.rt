//! The layout of a block: each name that it declares, with the ordinal, kind, token and item of its row. It follows
//! from the syntax alone.
ghost use Rattle.std.specs.Prelude.{◌≡◌, ◌∷◌, ◌++◌, [], ◌+◌, ◌<◌, ◌≤◌, flat_map, map, option_map, IfOk, IfSome, OnOk};
ghost use Rattle.m2_base.specs.Lists.{Each};
ghost use Rattle.m2_base.specs.Statics.Items.{heading_items, import_item, import_items, decl_item};
ghost use Rattle.m2_base.specs.Statics.Layouts.{layout_of};
ghost use Rattle.m2_base.specs.Views.{decl_view, heading_view, import_view, stream_view};
ghost use Rattle.decl_sem.specs.Progress.{Progress as PlainProgress, at_start, with_item, with_items};

use crate::shapes::{Shapes, put_declaration, put_heading, put_import};
use m2_base::{Decl, Heading, Ident, Import, Layout, MOST_ROWS, Memory, Named, Stream};
use std::alloc::Global;
use std::marker::Model;

/// The layout of the items so far.
#[derive(Drop)]
struct Progress {
    names: Vec<Named>,
    firsts: Vec<u32>,
    /// The number of rows.
    rows: u32,
}

impl Model for Progress {
    ghost use Rattle.decl_sem.specs.Progress.{Progress as PlainProgress};

    ghost Value = { PlainProgress };

    ghost view = { λ p. record { names = p.names.items; firsts = p.firsts.items; rows = p.rows } };
}

impl Progress {
    /// Of no item.
    fn new(alloc: Global) -> Progress
        ensures { result ≡ at_start }
    {
        Progress {
            names: Vec::new(alloc),
            firsts: Vec::new(alloc),
            rows: 0,
        }
    }

    /// One more item, whose rows have these shapes. A layout of more items or rows than numbers finds no memory.
    fn add(&mut self, shapes: &Shapes) -> Result<(), Memory>
        ensures { OnOk result (self.new ≡ with_item self.old shapes.now) }
    {
        let Ok(item) = u32::try_from(self.firsts.len()) else {
            return Err(Memory);
        };
        let Some(rows) = sum(self.rows, shapes.count()) else {
            return Err(Memory);
        };
        shapes.name_in(&mut self.names, item, self.rows)?;
        self.firsts.push(self.rows)?;
        self.rows = rows;
        Ok(())
    }

    /// The heading of a procedure's block is its first item.
    fn add_heading(&mut self, alloc: Global, heading: &Option<Heading>) -> Result<(), Memory>
        ensures { OnOk result (self.new ≡ with_items self.old (heading_items (option_map heading_view heading.now))) }
    {
        let Some(heading) = heading else {
            return Ok(());
        };
        let mut shapes = Shapes::new(alloc);
        put_heading(&mut shapes, heading)?;
        self.add(&shapes)
    }

    /// Each name of an import, with what stands after its FROM, is an item.
    fn add_names(
        &mut self,
        alloc: Global,
        from: &Option<Ident>,
        names: &[Ident],
    ) -> Result<(), Memory>
        ensures { OnOk result (self.new ≡ with_items self.old (map (import_item from.now) names.now)) }
    {
        for name in names {
            let mut shapes = Shapes::new(alloc);
            put_import(&mut shapes, from, name)?;
            self.add(&shapes)?;
        }
        Ok(())
    }

    /// The names of an import.
    fn add_import(&mut self, alloc: Global, import: &Import) -> Result<(), Memory>
        ensures { OnOk result (self.new ≡ with_items self.old (import_items (import_view import.now))) }
    {
        self.add_names(alloc, &import.from, &import.names)
    }

    /// The names of all imports.
    fn add_imports(&mut self, alloc: Global, imports: &[Import]) -> Result<(), Memory>
        ensures { OnOk result (self.new ≡ with_items self.old (flat_map import_items (map import_view imports.now))) }
    {
        for import in imports {
            self.add_import(alloc, import)?;
        }
        Ok(())
    }

    /// Each declaration is an item.
    fn add_declarations(&mut self, alloc: Global, declarations: &[Decl]) -> Result<(), Memory>
        ensures { OnOk result (self.new ≡ with_items self.old (map decl_item (map decl_view declarations.now))) }
    {
        for declaration in declarations {
            let mut shapes = Shapes::new(alloc);
            put_declaration(&mut shapes, declaration)?;
            self.add(&shapes)?;
        }
        Ok(())
    }

    /// The layout, where these are all items. One of more than 2^31 rows finds no memory.
    fn finish(self, alloc: Global) -> Result<Layout, Memory>
        requires names { Each (λ n. n.ordinal < self.rows) self.names }
        requires firsts { Each (λ o. o ≤ self.rows) self.firsts }
        ensures names { IfOk result (λ layout. layout.names ≡ self.names) }
        ensures firsts { IfOk result (λ layout. layout.firsts ≡ self.firsts ++ self.rows ∷ []) }
        ensures brought { IfOk result (λ layout. layout.brought ≡ []) }
    {
        let Progress {
            names,
            mut firsts,
            rows,
        } = self;
        if rows > MOST_ROWS {
            return Err(Memory);
        }
        firsts.push(rows)?;
        Layout::new(alloc, names, firsts)
    }
}

/// The sum, where it is a number of 32 bits.
fn sum(rows: u32, more: usize) -> Option<u32>
    ensures { IfSome result (λ sum. sum ≡ rows + more) }
{
    rows.checked_add(u32::try_from(more).ok()?)
}

/// The layout of a block by its syntax: the name of each row that has one, and the first ordinal of each item with the
/// number of all rows last.
pub fn layout(alloc: Global, stream: &Stream) -> Result<Layout, Memory>
    ensures { IfOk result (λ layout. layout ≡ layout_of (stream_view stream.now)) }
{
    let mut progress = Progress::new(alloc);
    progress.add_heading(alloc, &stream.heading)?;
    progress.add_imports(alloc, &stream.imports)?;
    progress.add_declarations(alloc, &stream.decls)?;
    progress.finish(alloc)
}
