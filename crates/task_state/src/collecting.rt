//! What the items of a block have given so far.
ghost use Rattle.std.specs.Prelude.{◌≡◌, ◌+◌, ◌++◌, ◌≤◌, OnErr, OnOk, IfOk, filter, length};
ghost use Rattle.m2_base.specs.Lists.{Each, IsPrefixOf};
ghost use Rattle.m2_base.specs.Statics.Effects.{heading_list};
ghost use Rattle.m2_base.specs.Statics.Layouts.{extended};
ghost use Rattle.m2_base.specs.Statics.ProcedureRows.{is_proc};
ghost use Rattle.m2_base.specs.declared.limits.TheConstants.{MOST_BROUGHT};
ghost use Rattle.task_state.specs.Collecting.{CanAdd, none_from, placed_from, with_item};

use decl_sem::{Before, Declared};
use m2_base::{HeadingNote, Layout, Memory, Named, Notes, ParamCopy, Place, Row};
use std::alloc::Global;
use std::marker::Model;

/// The kind of the rows of procedures.
const PROCEDURE: u8 = 4;

/// Whether a row is a procedure's, by its kind.
#[tactic(auto, using(crate::proofs::ProcedureRows::kind_tells))]
fn is_procedure(row: &Row) -> bool
    ensures { result ≡ is_proc row.now }
{
    row.kind == PROCEDURE
}

/// How many rows are those of procedures.
fn count_procedures(rows: &[Row]) -> usize
    ensures { result ≡ length (filter is_proc rows.now) }
{
    rows.iter().filter(|row| is_procedure(row)).count()
}

/// With the procedures among these rows. More of them than numbers find no memory.
fn add_procedures(procedures: u32, rows: &[Row]) -> Result<u32, Memory>
    ensures { IfOk result (λ sum. sum ≡ procedures + length (filter is_proc rows.now)) }
{
    let Ok(more) = u32::try_from(count_procedures(rows)) else {
        return Err(Memory);
    };
    match procedures.checked_add(more) {
        Some(sum) => Ok(sum),
        None => Err(Memory),
    }
}

/// Puts names behind those that a layout has from imports, as the next item brings them, and copies behind copies:
/// both, or neither.
fn extend_both(
    layout: &mut Layout,
    item: u32,
    brought: &[Named],
    copies: &mut Vec<ParamCopy>,
    more: &[ParamCopy],
) -> Result<(), Memory>
    requires item { Each (λ b. b.item ≡ item) brought.now }
    requires order { Each (λ b. b.item ≤ item) layout.old.brought }
    requires few { length layout.old.brought + length brought.now ≤ MOST_BROUGHT }
    ensures layout { OnOk result (layout.new ≡ extended layout.old brought.now) }
    ensures copies { OnOk result (copies.new.items ≡ copies.old.items ++ more.now) }
    ensures same_layout { OnErr result (layout.new ≡ layout.old) }
    ensures same_copies { OnErr result (copies.new.items ≡ copies.old.items) }
{
    let before = copies.len();
    copies.extend_from_slice(more)?;
    let extended = layout.extend(item, brought);
    if extended.is_err() {
        copies.truncate(before);
    }
    extended
}

/// What the items so far have given: the layout with the names that they have brought, how many they are, the next
/// free cell and the number of their procedures, the type of the result that the block's own heading binds, what the
/// body copies first, the notes of headings, and what was noted.
#[derive(Drop)]
pub(crate) struct Collected {
    pub layout: Layout,
    pub count: u32,
    pub before: Before,
    pub returns: Option<Place>,
    pub copies: Vec<ParamCopy>,
    pub headings: Vec<HeadingNote>,
    pub notes: Notes,
}

impl Model for Collected {
    ghost use Rattle.std.specs.Prelude.{map};
    ghost use Rattle.m2_base.specs.Copies.{copy_view};
    ghost use Rattle.task_state.specs.Collecting.{Collected as PlainCollected};

    ghost Value = { PlainCollected };

    ghost view = { λ m. record {
      layout = m.layout;
      count = m.count;
      cell = m.before.cell;
      procedures = m.before.procedures;
      returns = m.returns;
      copies = map copy_view m.copies.items;
      headings = m.headings.items;
      diags = m.notes.diags.items;
      answers = m.notes.answers.items;
    } };
}

impl Collected {
    /// Of no item: the layout is the block's by its syntax.
    pub(crate) fn new(alloc: Global, layout: Layout) -> Collected
        ensures { result ≡ none_from layout 0 }
    {
        Collected {
            layout,
            count: 0,
            before: Before {
                cell: 0,
                procedures: 0,
            },
            returns: None,
            copies: Vec::new(alloc),
            headings: Vec::new(alloc),
            notes: Notes::new(alloc),
        }
    }

    /// Variables are placed from this cell on.
    pub(crate) fn place(&mut self, cell: u32)
        ensures { self.new ≡ placed_from cell self.old }
    {
        self.before.cell = cell;
    }

    /// Puts behind what an item gives, or a part of it.
    fn append_some(&mut self, more: &Declared) -> Result<(), Memory>
        requires { CanAdd self.old more.now }
        ensures layout { OnOk result (self.new.layout ≡ extended self.old.layout more.now.effect.brought) }
        ensures copies { OnOk result (self.new.copies ≡ self.old.copies ++ more.now.effect.prologue) }
        ensures headings { OnOk result
            (self.new.headings ≡ self.old.headings ++ heading_list more.now.effect.heading) }
        ensures diags { OnOk result (self.new.diags ≡ self.old.diags ++ more.now.notes.diags.items) }
        ensures answers { OnOk result (self.new.answers ≡ self.old.answers ++ more.now.notes.answers.items) }
        ensures same_layout { OnErr result (self.new.layout ≡ self.old.layout) }
        ensures same_copies { OnErr result (self.new.copies ≡ self.old.copies) }
        ensures first_headings { IsPrefixOf self.old.headings self.new.headings }
        ensures first_diags { IsPrefixOf self.old.diags self.new.diags }
        ensures first_answers { IsPrefixOf self.old.answers self.new.answers }
        ensures count { self.new.count ≡ self.old.count }
        ensures cell { self.new.cell ≡ self.old.cell }
        ensures procedures { self.new.procedures ≡ self.old.procedures }
        ensures returns { self.new.returns ≡ self.old.returns }
    {
        if let Some(note) = more.effect.heading {
            self.headings.push(note)?;
        }
        self.notes.diags.extend_from_slice(&more.notes.diags)?;
        self.notes.answers.extend_from_slice(&more.notes.answers)?;
        extend_both(
            &mut self.layout,
            self.count,
            &more.effect.brought,
            &mut self.copies,
            &more.effect.prologue,
        )
    }

    /// Puts behind what an item gives: all of it, or nothing.
    fn append(&mut self, more: &Declared) -> Result<(), Memory>
        requires { CanAdd self.old more.now }
        ensures layout { OnOk result (self.new.layout ≡ extended self.old.layout more.now.effect.brought) }
        ensures copies { OnOk result (self.new.copies ≡ self.old.copies ++ more.now.effect.prologue) }
        ensures headings { OnOk result
            (self.new.headings ≡ self.old.headings ++ heading_list more.now.effect.heading) }
        ensures diags { OnOk result (self.new.diags ≡ self.old.diags ++ more.now.notes.diags.items) }
        ensures answers { OnOk result (self.new.answers ≡ self.old.answers ++ more.now.notes.answers.items) }
        ensures same_layout { OnErr result (self.new.layout ≡ self.old.layout) }
        ensures same_copies { OnErr result (self.new.copies ≡ self.old.copies) }
        ensures same_headings { OnErr result (self.new.headings ≡ self.old.headings) }
        ensures same_diags { OnErr result (self.new.diags ≡ self.old.diags) }
        ensures same_answers { OnErr result (self.new.answers ≡ self.old.answers) }
        ensures count { self.new.count ≡ self.old.count }
        ensures cell { self.new.cell ≡ self.old.cell }
        ensures procedures { self.new.procedures ≡ self.old.procedures }
        ensures returns { self.new.returns ≡ self.old.returns }
    {
        let headings = self.headings.len();
        let (diags, answers) = (self.notes.diags.len(), self.notes.answers.len());
        let appended = self.append_some(more);
        if appended.is_err() {
            self.headings.truncate(headings);
            self.notes.diags.truncate(diags);
            self.notes.answers.truncate(answers);
        }
        appended
    }

    /// Adds what the next item gives: all of it, or nothing. More items than numbers find no memory.
    pub(crate) fn add(&mut self, more: &Declared) -> Result<(), Memory>
        requires { CanAdd self.old more.now }
        ensures added { OnOk result (self.new ≡ with_item self.old more.now) }
        ensures same { OnErr result (self.new ≡ self.old) }
    {
        let Some(count) = self.count.checked_add(1) else {
            return Err(Memory);
        };
        let procedures = add_procedures(self.before.procedures, &more.rows)?;
        self.append(more)?;
        if self.count == 0 {
            self.returns = more.effect.result;
        }
        self.count = count;
        self.before = Before {
            cell: more.effect.cell,
            procedures,
        };
        Ok(())
    }
}
