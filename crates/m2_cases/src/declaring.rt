//! The rows that the declarations of a sample make, entered into its scope.
ghost use Rattle.std.specs.Prelude.{◌≡◌, ◌+◌, ◌≤◌, ◌^◌, Some, IfOk, OnOk, filter, length, slice_get};
ghost use Rattle.m2_base.specs.Scopes.{CanEnter, Entered};
ghost use Rattle.m2_base.specs.Statics.Cells.{most_cells};
ghost use Rattle.m2_base.specs.Statics.Layouts.{layout_of as spec_layout};
ghost use Rattle.m2_base.specs.Statics.ProcedureRows.{is_proc};
ghost use Rattle.m2_base.specs.Trees.{Stream};
ghost use Rattle.m2_base.specs.Views.{stream_view};
ghost use Rattle.m2_base.specs.declared.limits.TheConstants.{MOST_BROUGHT};
ghost use Rattle.scope_core.specs.PlainScopes.{state_of};
ghost use Rattle.m2_cases.specs.Filled.{HasDeclared, IsBlock, IsFull, row_count as spec_count, the_around};
ghost use Rattle.m2_cases.specs.Samples.{IsSample};

use crate::reading::Sample;
use decl_sem::{Before, Declared, Item, close_check, declare, layout};
use m2_base::{
    Around, Ask, Chain, Decl, Layout, Memory, Notes, Row, STANDARD_ROWS, Scopes, Site,
    TOO_MANY_CELLS,
};
use scope_core::PlainScopes;
use std::alloc::Global;

/// A block has at most so many rows, so that there is room for those of the names that imports bring.
const MOST_ROWS: u32 = m2_base::MOST_ROWS - m2_base::MOST_BROUGHT as u32;

/// The kind of the rows of procedures.
const PROCEDURE: u8 = 4;

/// What the analysis of a sample makes: the rows of its declarations, their next free cell, and all that is noted.
#[derive(Drop)]
pub struct Made {
    pub rows: Vec<Row>,
    pub cell: u32,
    pub notes: Notes,
}

/// The block of a sample.
#[derive(Drop)]
struct Block<'a> {
    sample: &'a Sample,
    around: &'a Around,
    layout: &'a Layout,
}

impl<'a> Block<'a> {
    /// A place in it: in an item, or in statements.
    fn site(&self, item: Option<u32>) -> Site<'a>
        ensures texts { result.texts.now ≡ self.now.sample.now.texts }
        ensures around { result.around.now ≡ self.now.around.now }
        ensures layout { result.layout.now ≡ self.now.layout.now }
        ensures item { result.item ≡ item }
    {
        Site {
            texts: &self.sample.texts,
            around: self.around,
            layout: self.layout,
            item,
        }
    }
}

/// What surrounds the block of a module.
fn around(alloc: Global) -> Result<Around, Memory>
    ensures { IfOk result (λ around. around ≡ the_around) }
{
    Ok(Around {
        scope: 1,
        text: 0,
        level: 0,
        module: 1,
        own: None,
        chain: Chain {
            scopes: vec![in alloc; 1]?,
        },
    })
}

/// The number of rows of a block.
fn row_count(layout: &Layout) -> Result<u32, Memory>
    ensures few { IfOk result (λ count. count + MOST_BROUGHT ≤ 2 ^ 31) }
    ensures count { IfOk result (λ count. (tree : Stream) → layout.now ≡ spec_layout tree → count ≡ spec_count tree) }
{
    match layout.firsts().last() {
        Some(count) if *count <= MOST_ROWS => Ok(*count),
        _ => Err(Memory),
    }
}

/// Whether a row is a procedure's, by its kind.
#[tactic(auto, using(crate::proofs::ProcedureRows::kind_tells))]
fn is_procedure(row: &Row) -> bool
    ensures { result ≡ is_proc row.now }
{
    row.kind == PROCEDURE
}

/// How many rows are those of procedures.
fn count_procedures(rows: &[Row]) -> usize
    ensures { result ≡ length (filter is_proc rows.now) }
{
    rows.iter().filter(|row| is_procedure(row)).count()
}

/// Enters the rows of a declaration, and keeps what it makes. A procedure finds no memory.
fn enter(scopes: &mut PlainScopes, declared: &Declared, made: &mut Made) -> Result<(), Memory>
    requires { CanEnter (state_of scopes.old) declared.now.rows.items }
    ensures few { OnOk result (made.new.cell ≤ most_cells + 1) }
    ensures entered { OnOk result (Entered (state_of scopes.old) (state_of scopes.new) declared.now.rows.items) }
    ensures none { OnOk result (length (filter is_proc declared.now.rows.items) ≡ 0) }
{
    let Declared {
        rows,
        notes,
        effect,
    } = declared;
    scopes.enter(rows);
    made.rows.extend_from_slice(rows)?;
    made.notes.diags.extend_from_slice(&notes.diags)?;
    made.notes.answers.extend_from_slice(&notes.answers)?;
    if effect.cell > TOO_MANY_CELLS || count_procedures(rows) > 0 {
        return Err(Memory);
    }
    made.cell = effect.cell;
    Ok(())
}

/// Analyses a declaration after those before.
fn declare_item(
    scopes: &mut PlainScopes,
    block: &Block,
    number: u32,
    declaration: &Decl,
    made: &mut Made,
) -> Result<(), Memory>
    requires block { IsBlock block.now.sample.now.texts (stream_view block.now.sample.now.tree) block.now.around.now
        block.now.layout.now }
    requires few { spec_count (stream_view block.now.sample.now.tree) + MOST_BROUGHT ≤ 2 ^ 31 }
    requires here { slice_get block.now.sample.now.tree.decls.items number ≡ Some declaration.now }
    requires declared { HasDeclared (state_of scopes.old).frame block.now.sample.now.texts
        (stream_view block.now.sample.now.tree) number made.old.cell }
    ensures { OnOk result (HasDeclared (state_of scopes.new).frame block.now.sample.now.texts
        (stream_view block.now.sample.now.tree) (number + 1) made.new.cell) }
{
    let alloc = *made.rows.allocator();
    let site = block.site(Some(number));
    let item = Item::Declaration(declaration);
    let before = Before {
        cell: made.cell,
        procedures: 0,
    };
    match declare(alloc, scopes, &site, &block.sample.tree, &item, before) {
        Ok(Ask::Known(declared)) => enter(scopes, &declared, made),
        _ => Err(Memory),
    }
}

/// Analyses all declarations, one after another.
fn declare_items(scopes: &mut PlainScopes, block: &Block, made: &mut Made) -> Result<(), Memory>
    requires block { IsBlock block.now.sample.now.texts (stream_view block.now.sample.now.tree) block.now.around.now
        block.now.layout.now }
    requires few { spec_count (stream_view block.now.sample.now.tree) + MOST_BROUGHT ≤ 2 ^ 31 }
    requires begun { HasDeclared (state_of scopes.old).frame block.now.sample.now.texts
        (stream_view block.now.sample.now.tree) 0 made.old.cell }
    ensures { OnOk result (HasDeclared (state_of scopes.new).frame block.now.sample.now.texts
        (stream_view block.now.sample.now.tree) (length block.now.sample.now.tree.decls.items) made.new.cell) }
{
    for (index, declaration) in block.sample.tree.decls.iter().enumerate() {
        let Ok(number) = u32::try_from(index) else {
            return Err(Memory);
        };
        declare_item(scopes, block, number, declaration, made)?;
    }
    Ok(())
}

/// Notes what the end of a block is refused for.
fn close(scopes: &mut PlainScopes, block: &Block, made: &mut Made) -> Result<(), Memory>
    requires block { IsBlock block.now.sample.now.texts (stream_view block.now.sample.now.tree) block.now.around.now
        block.now.layout.now }
    requires full { IsFull (state_of scopes.old).frame block.now.sample.now.texts }
{
    let alloc = *made.rows.allocator();
    let site = block.site(None);
    match close_check(alloc, scopes, &site, &block.sample.tree)? {
        Ask::Known(notes) => made.notes.diags.extend_from_slice(&notes.diags)?,
        Ask::DontKnowYet(_) => return Err(Memory),
    }
    Ok(())
}

/// What the analysis of a sample makes.
pub fn analysed(alloc: Global, sample: &Sample) -> Result<Made, Memory>
    requires { IsSample sample.now.texts (stream_view sample.now.tree) }
{
    let around = around(alloc)?;
    let layout = layout(alloc, &sample.tree)?;
    let rows = row_count(&layout)?;
    let mut scopes = PlainScopes::new(alloc, &sample.texts, &[STANDARD_ROWS as u32, rows])?;
    let block = Block {
        sample,
        around: &around,
        layout: &layout,
    };
    let mut made = Made {
        rows: Vec::new(alloc),
        cell: 0,
        notes: Notes::new(alloc),
    };
    declare_items(&mut scopes, &block, &mut made)?;
    scopes.complete();
    close(&mut scopes, &block, &mut made)?;
    Ok(made)
}
