//! What is made is known.
ghost use Rattle.std.specs.Prelude.{◌≡◌, List, Some};
ghost use Rattle.m2_base.specs.Gives.{gives};
ghost use Rattle.m2_base.specs.States.{State};
ghost use Rattle.m2_base.specs.declared.notes.Notes.{Notes};
ghost use Rattle.m2_base.specs.declared.sites.Site.{Site};
ghost use Rattle.const_eval.specs.Sites.{IsOperand};
ghost use Rattle.expr_sem.specs.ArgumentCodes.{IsArgument, argument_in};
ghost use Rattle.block_code.specs.Coded.{coded};
ghost use Rattle.expr_sem.specs.Codings.{Coding, IsCoded, coded_in};
ghost use Rattle.expr_sem.specs.Fragments.{IsMade};
ghost use Rattle.expr_sem.specs.MadeAnswers.{answer_of};
ghost use Rattle.block_code.specs.Parts.{Part};
ghost use Rattle.expr_sem.specs.declared.fragments.Node.{Node};

use crate::coded::Coded;
use crate::fragments::Fragment;
use m2_base::{Ask, Memory, Operand};

/// The answer of a rule that has asked all it had to ask, and has now made this fragment: it is known, and never
/// waits. Where memory was wanted for the fragment it still is.
pub fn answered(made: Result<Fragment, Memory>) -> Result<Ask<Fragment>, Memory>
    ensures { result ≡ answer_of made }
{
    match made {
        Ok(fragment) => Ok(Ask::Known(fragment)),
        Err(memory) => Err(memory),
    }
}

/// The answer of a rule whose result is this operand, with the code that is now made.
pub(crate) fn answered_as(
    operand: Operand,
    made: Result<Fragment, Memory>,
) -> Result<Ask<Coded>, Memory>
    ensures { (state : State) (notes : Notes) (s : Site) (from to : List Node) (p : Part)
        → IsOperand state.frame operand → IsMade from to made p
        → Coding state state notes notes from to s result IsCoded coded_in (λ c. gives (coded operand p)) }
{
    match made {
        Ok(code) => Ok(Ask::Known(Coded {
            operand,
            code,
            high: None,
        })),
        Err(memory) => Err(memory),
    }
}

/// The answer where the code of an argument is now made.
pub(crate) fn passed_as(made: Result<Fragment, Memory>) -> Result<Ask<Option<Fragment>>, Memory>
    ensures { (state : State) (notes : Notes) (s : Site) (from to : List Node) (p : Part) → IsMade from to made p
        → Coding state state notes notes from to s result IsArgument argument_in (λ c. gives (Some p)) }
{
    match made {
        Ok(code) => Ok(Ask::Known(Some(code))),
        Err(memory) => Err(memory),
    }
}
