//! The code of the arguments of a call, one behind another.
ghost use Rattle.std.specs.Prelude.{◌≡◌, List, map};
ghost use Rattle.m2_base.specs.Gives.{gives};
ghost use Rattle.m2_base.specs.States.{Frame, State};
ghost use Rattle.m2_base.specs.declared.notes.Notes.{Notes as NotesOf};
ghost use Rattle.m2_base.specs.declared.sites.Site.{Site as SiteOf};
ghost use Rattle.expr_sem.specs.ArgumentCodes.{IsArgument, argument_in, parameter_view};
ghost use Rattle.block_code.specs.Arguments.{after_argument};
ghost use Rattle.expr_sem.specs.Codings.{Coding};
ghost use Rattle.expr_sem.specs.ExpressionParts.{all_passed as spec_all, behind_first as spec_behind};
ghost use Rattle.expr_sem.specs.declared.fragments.Node.{Node};

use crate::answers::passed_as;
use crate::arguments::Parameter;
use crate::fragments::{Fragment, Fragments};
use m2_base::{Ask, Memory};

/// The parameters behind the first.
pub(crate) fn behind_first(params: &[Parameter]) -> &[Parameter]
    ensures { result.now ≡ spec_behind params.now }
{
    match params {
        [_, rest @ ..] => rest,
        [] => params,
    }
}

/// The code of the arguments, where none is missing for these parameters.
pub(crate) fn all_passed(params: &[Parameter], code: Option<Fragment>) -> Option<Fragment>
    ensures told { (nodes : List Node)
        → argument_in nodes result ≡ spec_all (map parameter_view params.now) (argument_in nodes code) }
    ensures there { (f : Frame) (nodes : List Node) → IsArgument f nodes code → IsArgument f nodes result }
{
    match params {
        [] => code,
        [_, ..] => None,
    }
}

/// The code of the arguments so far, and that of a further one behind it.
pub(crate) fn joined(
    code: Option<Fragment>,
    argument: Option<Fragment>,
    fragments: &mut Fragments,
) -> Result<Ask<Option<Fragment>>, Memory>
    ensures { (state : State) (notes : NotesOf) (site : SiteOf)
        → Coding state state notes notes fragments.old.nodes.items fragments.new.nodes.items site result
        IsArgument argument_in (λ c. gives (after_argument (argument_in fragments.old.nodes.items code)
        (argument_in fragments.old.nodes.items argument))) }
{
    let Some(first) = code else {
        return Ok(Ask::Known(None));
    };
    let Some(last) = argument else {
        return Ok(Ask::Known(None));
    };
    passed_as(fragments.then(first, last))
}
