//! Where the parameters of a procedure are, one after another.
ghost use Rattle.std.specs.Prelude.{◌≡◌, [], IfOk, None};
ghost use Rattle.m2_base.specs.Statics.HeadingRows.{placing as spec_placing};
ghost use Rattle.decl_sem.specs.OwnParameters.{after_cells as spec_cells, after_open as spec_open};
ghost use Rattle.decl_sem.specs.OwnParameters.{after_own as spec_own};

use crate::cells::capped;
use crate::effects::Effect;
use m2_base::{Memory, ParamCopy, Place};
use std::alloc::Global;
use std::marker::Model;

/// The cell in which the next parameter arrives, the next free cell behind all of them,
/// and what the body copies first.
#[derive(Drop)]
pub(crate) struct Placing {
    cell: u32,
    own: u32,
    copies: Vec<ParamCopy>,
}

impl Model for Placing {
    ghost use Rattle.std.specs.Prelude.{map};
    ghost use Rattle.m2_base.specs.Statics.HeadingRows.{Placing as PlainPlacing, placing as spec_placing};
    ghost use Rattle.m2_base.specs.Copies.{copy_view};

    ghost Value = { PlainPlacing };

    ghost view = { λ p. spec_placing p.cell p.own (map copy_view p.copies.items) };
}

impl Placing {
    /// Before the first parameter, where the cells behind all of them begin here.
    pub(crate) fn new(alloc: Global, own: u32) -> Placing
        ensures { result ≡ spec_placing 0 own [] }
    {
        Placing {
            cell: 0,
            own,
            copies: Vec::new(alloc),
        }
    }

    /// The cell in which the next parameter arrives.
    pub(crate) fn cell(&self) -> u32
        ensures { result ≡ self.now.cell }
    {
        self.cell
    }

    /// The next free cell behind all parameters.
    pub(crate) fn own(&self) -> u32
        ensures { result ≡ self.now.own }
    {
        self.own
    }

    /// Behind a parameter that arrives in so many cells.
    pub(crate) fn after_cells(self, count: u32) -> Placing
        ensures { result ≡ spec_cells count self }
    {
        Placing {
            cell: capped(self.cell as u64 + count as u64),
            own: self.own,
            copies: self.copies,
        }
    }

    /// Behind an open array by value, whose elements have this size.
    pub(crate) fn after_open(self, size: u32) -> Result<Placing, Memory>
        ensures { IfOk result (λ next. next ≡ spec_open size self) }
    {
        let cell = self.cell;
        let own = self.own;
        let mut copies = self.copies;
        copies.push(ParamCopy::Open(cell, size))?;
        let cell = capped(cell as u64 + 2);
        Ok(Placing { cell, own, copies })
    }

    /// Behind a structured value of this size.
    pub(crate) fn after_own(self, size: u32) -> Result<Placing, Memory>
        ensures { IfOk result (λ next. next ≡ spec_own size self) }
    {
        let cell = self.cell;
        let own = self.own;
        let mut copies = self.copies;
        copies.push(ParamCopy::Own(own, cell, size))?;
        let cell = capped(cell as u64 + 1);
        let own = capped(own as u64 + size as u64);
        Ok(Placing { cell, own, copies })
    }

    /// What the heading gives, behind all parameters, with this result.
    pub(crate) fn into_effect(self, alloc: Global, of: Option<Place>) -> Effect
        ensures { result
            ≡ record { cell = self.own; prologue = self.copies; result = of; heading = None; brought = [] } }
    {
        Effect {
            cell: self.own,
            prologue: self.copies,
            result: of,
            heading: None,
            brought: Vec::new(alloc),
        }
    }
}
