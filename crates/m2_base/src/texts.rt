//! The texts of a unit: the main text and the definition modules that it rests on.
ghost use Rattle.std.specs.Prelude.{◌≡◌, slice_get, Some};
ghost use Rattle.m2_base.specs.Units.{IsUnit};

use crate::names::Names;
use crate::token::Token;
use std::marker::Model;

/// A text with its tokens.
#[derive(Drop)]
pub struct Text {
    /// The name of its file.
    pub name: u32,
    /// Whether it is a definition module's.
    pub definition: bool,
    pub tokens: Vec<Token>,
}

impl Model for Text {
    ghost use Rattle.m2_base.specs.Units.{TextOf};

    ghost Value = { TextOf };

    ghost view = { λ t. record { name = t.name; definition = t.definition; tokens = t.tokens.items } };
}

/// The texts of a unit. Text 0 is the main text.
#[derive(Drop)]
pub struct Texts {
    pub names: Names,
    pub list: Vec<Text>,
    /// The definition texts in dependency order.
    pub order: Vec<u32>,
    /// The definition text of an implementation module.
    pub own: Option<u32>,
}

impl Model for Texts {
    ghost use Rattle.m2_base.specs.Units.{UnitTexts, IsUnit};

    ghost Value = { UnitTexts };

    ghost view = { λ t. record { names = t.names; list = t.list.items; order = t.order.items; own = t.own } };

    ghost invariant = { λ t.
        IsUnit (record { names = t.names; list = t.list.items; order = t.order.items; own = t.own }) };
}

impl Texts {
    /// The unit of these texts.
    pub fn new(names: Names, list: Vec<Text>, order: Vec<u32>, own: Option<u32>) -> Texts
        requires { IsUnit (record { names = names; list = list.items; order = order.items; own = own }) }
        ensures { result ≡ record { names = names; list = list.items; order = order.items; own = own } }
    {
        Texts {
            names,
            list,
            order,
            own,
        }
    }

    /// The text of the main module.
    pub fn main(&self) -> &Text
        ensures unit { IsUnit self.now }
        ensures text { slice_get self.now.list 0 ≡ Some result.now }
    {
        &self.list[0]
    }
}
