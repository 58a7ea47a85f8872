//! The arguments of a call, as far as functions of constants look at them.
ghost use Rattle.std.specs.Prelude.{◌≡◌, ◌++◌, ◌∷◌, [], List};
ghost use Rattle.m2_base.specs.States.{Frame};
ghost use Rattle.const_eval.specs.Calls.{IsSummary, instead_of};
ghost use Rattle.const_eval.specs.Parts.{with_more};
ghost use Rattle.const_eval.specs.Sites.{AreArguments, IsOperand};

use crate::operands::Argument;
use m2_base::Operand;

/// How many arguments there are, and up to two of them.
#[derive(Clone, Copy)]
pub enum Shape {
    Empty,
    One(Argument),
    Two(Argument, Argument),
    More,
}

/// The arguments of a call.
#[derive(Clone, Copy)]
pub struct Arguments {
    pub shape: Shape,
    /// Whether one of them is in error.
    pub spoilt: bool,
}

impl Arguments {
    /// No arguments.
    pub fn new() -> Arguments
        ensures summary { IsSummary result [] }
        ensures there { (f : Frame) → AreArguments f result }
    {
        Arguments {
            shape: Shape::Empty,
            spoilt: false,
        }
    }

    /// These arguments and a further one.
    pub fn with(self, arg: Argument) -> Arguments
        ensures summary { (list : List Argument) → IsSummary self list → IsSummary result (list ++ arg ∷ []) }
        ensures added { result ≡ with_more self arg }
        ensures there { (f : Frame) → AreArguments f self → IsOperand f arg.operand → AreArguments f result }
    {
        let spoilt = self.spoilt || matches!(arg.operand, Operand::InError);
        let shape = match self.shape {
            Shape::Empty => Shape::One(arg),
            Shape::One(first) => Shape::Two(first, arg),
            _ => Shape::More,
        };
        Arguments { shape, spoilt }
    }

    /// No constant, but in error where an argument is.
    pub fn no_constant(self) -> Operand
        ensures told { result ≡ instead_of self.spoilt }
        ensures there { (f : Frame) → IsOperand f result }
    {
        if self.spoilt {
            Operand::InError
        } else {
            Operand::NotConstant
        }
    }
}
