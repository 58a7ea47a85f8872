//! A text that was read.
ghost use Rattle.std.specs.Prelude.{◌≡◌, length};
ghost use Rattle.m2_parse.specs.FrontViews.{front_view};
ghost use Rattle.def_import.specs.Closure.{own_name as spec_own_name};

use m2_base::{Ident, Text};
use m2_parse::Front;
use std::marker::Model;

/// A text that was read, with its front.
#[derive(Drop)]
pub struct Found {
    pub text: Text,
    pub front: Front,
}

impl Model for Found {
    ghost use Rattle.m2_parse.specs.FrontViews.{front_view};
    ghost use Rattle.def_import.specs.Closure as closure;

    ghost Value = { closure.Found };

    ghost view = { λ f. record { text = f.text; front = front_view f.front } };
}

impl Found {
    /// How many tokens it has.
    pub fn count(&self) -> usize
        ensures { result ≡ length self.now.text.tokens }
    {
        self.text.tokens.len()
    }

    /// The name of its file.
    pub fn file(&self) -> u32
        ensures { result ≡ self.now.text.name }
    {
        self.text.name
    }

    /// The name of its module, if it tells one.
    pub fn name(&self) -> Option<Ident>
        ensures { result ≡ self.now.front.name }
    {
        self.front.name
    }

    /// The modules that it imports.
    pub fn imports(&self) -> &[Ident]
        ensures { result.now ≡ self.now.front.imports }
    {
        &self.front.imports
    }

    /// The name of an implementation's own definition, if it tells one.
    pub fn own_name(&self) -> Option<Ident>
        ensures { result ≡ spec_own_name self.now.front }
    {
        own_name(&self.front)
    }
}

/// The name of an implementation's own definition, if it tells one.
pub fn own_name(front: &Front) -> Option<Ident>
    ensures { result ≡ spec_own_name (front_view front.now) }
{
    if front.implementation {
        front.name
    } else {
        None
    }
}
