//! What the analysis of a text notes.
ghost use Rattle.std.specs.Prelude.{◌≡◌, [], IfOk, OnErr};
ghost use Rattle.m2_base.specs.Diagnostics.{code_of};
ghost use Rattle.m2_base.specs.Noting.{IsRefused};

use crate::diagnostic::Diagnostic;
use crate::memory::Memory;
use crate::rows::{Place, Row};
use std::alloc::Global;

/// A diagnostic at a token of a text. They are ordered by text, token and code.
#[derive(Clone, Copy, Debug, PartialEq, Eq, PartialOrd, Ord)]
pub struct Diag {
    pub text: u32,
    pub at: u32,
    pub code: u8,
}

/// What the name at a token was found to stand for.
#[derive(Clone, Copy, Debug, PartialEq, Eq)]
pub struct Answer {
    pub at: u32,
    pub name: u32,
    pub place: Place,
    pub row: Row,
}

/// The diagnostics and answers so far, in text order.
#[derive(Drop)]
pub struct Notes {
    pub diags: Vec<Diag>,
    pub answers: Vec<Answer>,
}

impl Notes {
    /// None yet.
    pub fn new(alloc: Global) -> Notes
        ensures diags { result.diags.items ≡ [] }
        ensures answers { result.answers.items ≡ [] }
    {
        Notes {
            diags: Vec::new(alloc),
            answers: Vec::new(alloc),
        }
    }

    /// Notes that this is wrong at a token of a text.
    pub fn refuse(&mut self, text: u32, at: u32, diagnostic: Diagnostic) -> Result<(), Memory>
        ensures noted { IfOk result (λ _. IsRefused self.old self.new text at (code_of diagnostic)) }
        ensures kept { OnErr result (self.new.diags.items ≡ self.old.diags.items) }
        ensures answers { self.new.answers.items ≡ self.old.answers.items }
    {
        self.diags.push(Diag {
            text,
            at,
            code: diagnostic.code(),
        })?;
        Ok(())
    }
}
