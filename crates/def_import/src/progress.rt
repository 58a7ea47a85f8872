//! How far the texts of a unit are read.
ghost use Rattle.std.specs.Prelude.{◌≡◌, ◌<◌, IfOk, length, map};
ghost use Rattle.m2_base.specs.Units.{IsUnit, unit_of};
ghost use Rattle.def_import.specs.Closure.{next_module as spec_next_module, text_of_module as spec_text_of_module};

use crate::found::Found;
use indexmap::IndexSet;
use m2_base::{Memory, Names, Text, Texts};
use std::alloc::Global;
use std::marker::Model;

/// The texts of what was read.
fn texts_of(alloc: Global, found: Vec<Found>) -> Result<Vec<Text>, Memory>
    ensures { IfOk result (λ texts. texts.items ≡ map (λ f. f.text) found.items) }
{
    let mut texts = Vec::new(alloc);
    for one in found {
        texts.push(one.text)?;
    }
    Ok(texts)
}

/// What is kept of the texts that are read so far.
pub struct Parts {
    pub names: Names,
    /// The texts in the order in which they were found.
    pub found: Vec<Found>,
    /// The definition modules that they name, each once.
    pub modules: IndexSet<u32>,
    /// For each of these that was asked for, the number of its text, if there is one.
    pub asked: Vec<Option<u32>>,
    /// How many tokens the texts have.
    pub tokens: usize,
}

// (derived, each `?` beside a progress would drop it field by field)
impl Drop for Parts {
    fn drop(self) {
        let Parts {
            names: _,
            found: _,
            modules: _,
            asked: _,
            tokens: _,
        } = self;
    }
}

impl Parts {
    /// The unit of these texts, in this order.
    pub fn into_unit(
        self,
        alloc: Global,
        order: Vec<u32>,
        own: Option<u32>,
    ) -> Result<Texts, Memory>
        requires { IsUnit (unit_of self.names (map (λ f. f.text) self.found.items) order.items own) }
        ensures { IfOk result
            (λ texts. texts ≡ unit_of self.names (map (λ f. f.text) self.found.items) order.items own) }
    {
        let Parts {
            names,
            found,
            modules: _,
            asked: _,
            tokens: _,
        } = self;
        let list = texts_of(alloc, found)?;
        Ok(Texts::new(names, list, order, own))
    }
}

/// How far the texts of a unit are read.
#[derive(Drop)]
pub struct Progress {
    pub parts: Parts,
}

impl Model for Progress {
    ghost use Rattle.def_import.specs.Closure as closure;
    ghost use Rattle.def_import.specs.Closure.{IsKept, progress_of};

    ghost Value = { closure.Progress };

    ghost view = { λ p. progress_of p.parts.names p.parts.found.items p.parts.asked.items };

    ghost invariant = { λ p. IsKept (progress_of p.parts.names p.parts.found.items p.parts.asked.items)
        p.parts.modules.keys p.parts.tokens };
}

impl Progress {
    /// The texts, in the order in which they were found.
    pub fn texts(&self) -> &[Found]
        ensures texts { result.now ≡ self.now.found }
        ensures few { length result.now < 258 }
    {
        &self.parts.found
    }

    /// The module that is asked for next.
    pub fn next_module(&self) -> Option<u32>
        ensures { result ≡ spec_next_module self.now }
    {
        self.parts
            .modules
            .get_index(self.parts.asked.len())
            .copied()
    }

    /// The number of that module's text, if it was asked for and is there.
    pub fn text_of_module(&self, name: u32) -> Option<u32>
        ensures { result ≡ spec_text_of_module self.now name }
    {
        let place = self.parts.modules.get_index_of(&name)?;
        self.parts.asked.get(place).copied().flatten()
    }
}
