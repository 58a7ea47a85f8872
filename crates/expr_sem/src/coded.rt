//! What an expression or a designator stands for, with its code.
ghost use Rattle.std.specs.Prelude.{◌≡◌, List};
ghost use Rattle.m2_base.specs.States.{Frame};
ghost use Rattle.block_code.specs.Coded.{bare, coded, in_error, taken as spec_taken};
ghost use Rattle.expr_sem.specs.Codings.{IsCoded, coded_in};
ghost use Rattle.expr_sem.specs.Fragments.{IsIn, part};
ghost use Rattle.expr_sem.specs.declared.fragments.Node.{Node};
ghost use Rattle.const_eval.specs.Sites.{IsOperand};

use crate::fragments::Fragment;
use m2_base::Operand;

/// An operand, and its code: that of a variable gives its address, that of a computed value gives it. `high` is of an
/// open array alone: the code of the number of its elements less 1.
#[derive(Clone, Copy)]
pub struct Coded {
    pub operand: Operand,
    pub code: Fragment,
    pub high: Option<Fragment>,
}

/// An operand with its code, and its first token.
#[derive(Clone, Copy)]
pub struct Placed {
    pub at: u32,
    pub coded: Coded,
}

impl Coded {
    /// An operand that is no open array, with its code.
    pub fn new(operand: Operand, code: Fragment) -> Coded
        ensures told { (nodes : List Node) → coded_in nodes result ≡ coded operand (part nodes code) }
        ensures there { (f : Frame) (nodes : List Node) → IsOperand f operand → IsIn nodes code
            → IsCoded f nodes result }
    {
        Coded {
            operand,
            code,
            high: None,
        }
    }

    /// What needs no code of its own.
    pub fn bare(operand: Operand) -> Coded
        ensures told { (nodes : List Node) → coded_in nodes result ≡ bare operand }
        ensures there { (f : Frame) (nodes : List Node) → IsOperand f operand → IsCoded f nodes result }
    {
        Coded::new(operand, Fragment::Nothing)
    }

    /// What is in error.
    pub fn in_error() -> Coded
        ensures told { (nodes : List Node) → coded_in nodes result ≡ in_error }
        ensures there { (f : Frame) (nodes : List Node) → IsCoded f nodes result }
    {
        Coded::bare(Operand::InError)
    }

    /// The same code for an operand as another rule takes it.
    pub fn taken(self, operand: Operand) -> Coded
        ensures told { (nodes : List Node) → coded_in nodes result ≡ spec_taken operand (coded_in nodes self) }
        ensures there { (f : Frame) (nodes : List Node) → IsOperand f operand → IsCoded f nodes self
            → IsCoded f nodes result }
    {
        Coded { operand, ..self }
    }
}
