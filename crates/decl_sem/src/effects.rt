//! What an item gives beside its rows.
ghost use Rattle.std.specs.Prelude.{◌≡◌, [], None};
ghost use Rattle.m2_base.specs.Statics.Effects.{bringing as spec_bringing, only_cell as spec_only};

use m2_base::{HeadingNote, Named, ParamCopy, Place};
use std::alloc::Global;
use std::marker::Model;

/// The next free cell, what the procedure's body copies first, the type of the result that the block's own heading
/// binds, a note of the heading of a procedure that the block declares, and the names that an import brings.
#[derive(Drop)]
pub struct Effect {
    pub cell: u32,
    pub prologue: Vec<ParamCopy>,
    pub result: Option<Place>,
    pub heading: Option<HeadingNote>,
    pub brought: Vec<Named>,
}

impl Model for Effect {
    ghost use Rattle.std.specs.Prelude.{map};
    ghost use Rattle.m2_base.specs.Statics.Effects.{Effect as PlainEffect};
    ghost use Rattle.m2_base.specs.Copies.{copy_view};

    ghost Value = { PlainEffect };

    ghost view = { λ e. record {
      cell = e.cell;
      prologue = map copy_view e.prologue.items;
      result = e.result;
      heading = e.heading;
      brought = e.brought.items;
    } };
}

/// The next free cell, and nothing else.
pub(crate) fn only_cell(alloc: Global, cell: u32) -> Effect
    ensures { result ≡ spec_only cell }
{
    Effect {
        cell,
        prologue: Vec::new(alloc),
        result: None,
        heading: None,
        brought: Vec::new(alloc),
    }
}

/// The next free cell, and a note of a heading.
pub(crate) fn noted(alloc: Global, cell: u32, heading: Option<HeadingNote>) -> Effect
    ensures { result ≡ record { cell = cell; prologue = []; result = None; heading = heading; brought = [] } }
{
    Effect {
        cell,
        prologue: Vec::new(alloc),
        result: None,
        heading,
        brought: Vec::new(alloc),
    }
}

/// The next free cell, and the names that an import brings.
pub(crate) fn bringing(alloc: Global, cell: u32, brought: Vec<Named>) -> Effect
    ensures { result ≡ spec_bringing cell brought.items }
{
    Effect {
        cell,
        prologue: Vec::new(alloc),
        result: None,
        heading: None,
        brought,
    }
}
