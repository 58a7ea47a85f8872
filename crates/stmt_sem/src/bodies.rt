//! The code of a block in the making: it is begun with what the body copies first, takes one statement after another,
//! and ends.
ghost use Rattle.std.specs.Prelude.{◌≡◌, ◌<◌, ◌++◌, [], None, IfOk, OnErr, OnOk, length, map};
ghost use Rattle.std.specs.Option.{IfSome};
ghost use Rattle.m2_base.specs.Lists.{IsPrefixOf};
ghost use Rattle.m2_base.specs.Statics.Blocks.{BlockTree};
ghost use Rattle.m2_base.specs.Statics.Closing.{block_name as spec_block_name};
ghost use Rattle.m2_base.specs.Statics.Contexts.{Context};
ghost use Rattle.m2_base.specs.Statics.Effects.{BlockEffects};
ghost use Rattle.m2_base.specs.Statics.ReadStatements.{AreReadStatements};
ghost use Rattle.m2_base.specs.Views.{stream_view};
ghost use Rattle.m2_base.specs.Copies.{copy_view};
ghost use Rattle.type_rules.specs.Scenes.{IsThere};
ghost use Rattle.type_rules.specs.Sites.{SuitsSite};
ghost use Rattle.expr_sem.specs.Fragments.{AreSound};
ghost use Rattle.expr_sem.specs.Pieces.{Appended, IsAsBefore};
ghost use Rattle.block_code.specs.BlockCode.{size_by, size_diags};
ghost use Rattle.stmt_sem.specs.Bodies.{Adding, IsBuilt, IsWhole};
ghost use Rattle.stmt_sem.specs.FlowTrees.{IsOver, flow_in};
ghost use Rattle.block_code.specs.Flows.{Run, part_at};
ghost use Rattle.stmt_sem.specs.Stating.{Returns};

use crate::block_pieces::{append_ending, begun};
use crate::flow_appending::append_flow;
use crate::flows::Flow;
use crate::top_statements::{Stated, TopStatement, top_statement};
use expr_sem::{Fragments, Piece, capped_sum};
use m2_base::{
    Around, Ask, Diagnostic, Ident, MOST_CELLS, Memory, Notes, ParamCopy, Place, Scopes, Site,
    Stream, StreamKind,
};
use std::alloc::Global;
use std::marker::Model;

/// Puts the notes of a statement behind others, and appends its code. Without memory the piece is as it was, and the
/// notes have what they had, and perhaps more.
fn append_noted(
    flow: &Flow,
    fragments: &Fragments,
    more: &Notes,
    piece: &mut Piece,
    notes: &mut Notes,
) -> Result<(), Memory>
    requires sound { AreSound fragments.now.nodes.items }
    requires there { IsOver fragments.now.nodes.items flow.now }
    ensures code { OnOk result (Appended piece.old piece.new []
        (part_at 0 (flow_in fragments.now.nodes.items flow.now 0))) }
    ensures diags { OnOk result (notes.new.diags.items ≡ notes.old.diags.items ++ more.now.diags.items) }
    ensures answers { OnOk result (notes.new.answers.items ≡ notes.old.answers.items ++ more.now.answers.items) }
    ensures same { OnErr result (IsAsBefore piece.old piece.new) }
    ensures before { IsPrefixOf notes.old.diags.items notes.new.diags.items }
    ensures first { IsPrefixOf notes.old.answers.items notes.new.answers.items }
{
    notes.diags.extend_from_slice(&more.diags)?;
    notes.answers.extend_from_slice(&more.answers)?;
    append_flow(flow, fragments, piece)
}

/// Puts the notes of a statement behind others, and appends its code. Without memory both are as they were.
fn append_stated(
    flow: &Flow,
    fragments: &Fragments,
    more: &Notes,
    piece: &mut Piece,
    notes: &mut Notes,
) -> Result<(), Memory>
    requires sound { AreSound fragments.now.nodes.items }
    requires there { IsOver fragments.now.nodes.items flow.now }
    ensures code { OnOk result (Appended piece.old piece.new []
        (part_at 0 (flow_in fragments.now.nodes.items flow.now 0))) }
    ensures diags { OnOk result (notes.new.diags.items ≡ notes.old.diags.items ++ more.now.diags.items) }
    ensures answers { OnOk result (notes.new.answers.items ≡ notes.old.answers.items ++ more.now.answers.items) }
    ensures same { OnErr result (IsAsBefore piece.old piece.new) }
    ensures same_diags { OnErr result (notes.new.diags.items ≡ notes.old.diags.items) }
    ensures same_answers { OnErr result (notes.new.answers.items ≡ notes.old.answers.items) }
{
    let (diags, answers) = (notes.diags.len(), notes.answers.len());
    let appended = append_noted(flow, fragments, more, piece, notes);
    if appended.is_err() {
        notes.diags.truncate(diags);
        notes.answers.truncate(answers);
    }
    appended
}

/// The name of a block: its procedure's, or its module's.
fn block_name(stream: &Stream) -> Option<Ident>
    ensures { result ≡ spec_block_name (stream_view stream.now) }
{
    match &stream.heading {
        Some(heading) => Some(heading.name),
        None => stream.name,
    }
}

/// How many cells a block has whose variables have so many, with its temporary ones, and how many bytes of data. A
/// definition has no code.
fn size_of(kind: StreamKind, own: u32, piece: &Piece) -> (u32, u32)
    ensures { (c : Context) (b : BlockTree) (e : BlockEffects) (r : Run) → e.cell ≡ own
        → r.next.cell ≡ piece.now.cell → r.next.byte ≡ piece.now.byte
        → size_diags c b kind e r ≡ size_by c b result.0 result.1 }
{
    match kind {
        StreamKind::Definition => (own, 0),
        StreamKind::Main => (capped_sum(own, piece.cell as usize), piece.byte),
        StreamKind::Procedure => (piece.cell, piece.byte),
    }
}

/// Notes at a block's name that it has too many cells or bytes, where it has.
fn note_size(
    text: u32,
    name: Option<Ident>,
    size: (u32, u32),
    notes: &mut Notes,
) -> Result<(), Memory>
    ensures diags { OnOk result ((c : Context) (b : BlockTree) → c.scene.block.text ≡ text
        → spec_block_name b.tree ≡ name → notes.new.diags.items ≡ notes.old.diags.items ++ size_by c b size.0 size.1) }
    ensures answers { notes.new.answers.items ≡ notes.old.answers.items }
{
    let Some(name) = name else {
        return Ok(());
    };
    let (cells, bytes) = size;
    if cells > MOST_CELLS || bytes > MOST_CELLS {
        notes.refuse(text, name.at, Diagnostic::TooManyCells)?;
    }
    Ok(())
}

/// The code of a block in the making, with the notes of its statements.
#[derive(Drop)]
pub struct Body {
    piece: Piece,
    notes: Notes,
    /// The cells of the block's variables.
    cells: u32,
    /// How many statements it has.
    count: usize,
}

impl Model for Body {
    ghost use Rattle.stmt_sem.specs.Bodies.{Built};
    ghost use Rattle.stmt_sem.specs.Stating.{made_in};

    ghost Value = { Built };

    ghost view = { λ b. record {
      made = made_in b.piece;
      diags = b.notes.diags.items;
      answers = b.notes.answers.items;
      cells = b.cells;
      count = b.count;
    } };
}

impl Body {
    /// The body of a block whose declarations left it so many cells, and which copies these parameters first. It has
    /// no statement yet.
    pub fn begin(
        alloc: Global,
        stream: &Stream,
        cells: u32,
        copies: &[ParamCopy],
    ) -> Result<Body, Memory>
        ensures none { IfOk result (λ body. body.count ≡ 0) }
        ensures begun { IfOk result (λ body. (c : Context) (e : BlockEffects) → e.cell ≡ cells
            → e.prologue ≡ map copy_view copies.now → IsBuilt c (stream_view stream.now) e body) }
    {
        let piece = begun(alloc, stream.kind, cells, copies)?;
        let notes = Notes::new(alloc);
        Ok(Body {
            piece,
            notes,
            cells,
            count: 0,
        })
    }

    /// How many statements it has; so this is the number of the next one.
    pub fn count(&self) -> usize
        ensures { result ≡ self.now.count }
    {
        self.count
    }

    /// Adds the next statement of the stream, whose procedure has this result. Where that isn't known yet, or memory
    /// is wanted, it is as it was, and has no notes of the statement.
    pub fn add<S: Scopes>(
        &mut self,
        scopes: &mut S,
        site: &Site,
        stream: &Stream,
        returns: Option<Place>,
    ) -> Result<Ask<()>, Memory>
        requires suits { SuitsSite (S.state scopes.old).frame site.now }
        requires item { site.now.item ≡ None }
        requires more { self.old.count < length stream.now.body.items }
        requires read { AreReadStatements site.now.texts.now.names (stream_view stream.now).body }
        requires returns { Returns (S.state scopes.old).frame site.now (stream_view stream.now) returns }
        requires there { IfSome returns (λ t. IsThere (S.state scopes.old).frame t) }
        ensures { Adding (S.state scopes.old) (S.state scopes.new) self.old self.new site.now
            (stream_view stream.now) result }
    {
        let alloc = *self.piece.steps.allocator();
        let mut fragments = Fragments::new(alloc);
        let mut notes = Notes::new(alloc);
        let of = &stream.body[self.count];
        let top = TopStatement {
            of,
            result: returns,
        };
        let flow = analysed!(top_statement(scopes, site, &top, &mut fragments, &mut notes));
        append_stated(&flow, &fragments, &notes, &mut self.piece, &mut self.notes)?;
        self.count += 1;
        Ok(Ask::Known(()))
    }

    /// The whole of a block, all of whose statements it has: its code with the end, and the notes of its statements
    /// and of its size.
    pub fn end(self, around: &Around, stream: &Stream) -> Result<Stated, Memory>
        requires { self.count ≡ length stream.now.body.items }
        ensures whole { IfOk result (λ whole. (c : Context) (e : BlockEffects) → c.scene.block.text ≡ around.now.text
            → IsBuilt c (stream_view stream.now) e self → IsWhole c (stream_view stream.now) e whole) }
        ensures answers { IfOk result (λ whole. whole.notes.answers.items ≡ self.answers) }
    {
        let Body {
            mut piece,
            mut notes,
            cells,
            ..
        } = self;
        append_ending(&stream.heading, &mut piece)?;
        let size = size_of(stream.kind, cells, &piece);
        note_size(around.text, block_name(stream), size, &mut notes)?;
        Ok(Stated { piece, notes })
    }
}
