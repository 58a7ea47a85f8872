//! Instructions one after another, and behind fragments.
ghost use Rattle.std.specs.Prelude.{◌∷◌, []};
ghost use Rattle.expr_sem.specs.Fragments.{IsIn, IsMade, part};
ghost use Rattle.block_code.specs.Parts.{plain, ◌⨟◌};

use crate::fragments::{Fragment, Fragments};
use code_form::Instr;
use m2_base::Memory;

/// Makes a fragment of an earlier one and an instruction behind it, which takes what is on the stack then, as `Load`
/// takes an address. The instruction is no call and no return. This never waits.
pub fn instr_behind(
    first: Fragment,
    instr: Instr,
    fragments: &mut Fragments,
) -> Result<Fragment, Memory>
    requires { IsIn fragments.old.nodes.items first }
    ensures { IsMade fragments.old.nodes.items fragments.new.nodes.items result
        (part fragments.old.nodes.items first ⨟ plain (instr ∷ [])) }
{
    let last = fragments.one(instr)?;
    fragments.then(first, last)
}

/// Makes a fragment of two instructions, neither a call nor a return: the address of a cell and `Load`, say, or `Bit`
/// and `Union`. This never waits.
pub fn pair(first: Instr, second: Instr, fragments: &mut Fragments) -> Result<Fragment, Memory>
    ensures { IsMade fragments.old.nodes.items fragments.new.nodes.items result (plain (first ∷ second ∷ [])) }
{
    let first = fragments.one(first)?;
    instr_behind(first, second, fragments)
}

/// Two fragments, and then what takes their values.
pub fn after_both(
    fragments: &mut Fragments,
    x: Fragment,
    y: Fragment,
    last: Fragment,
) -> Result<Fragment, Memory>
    requires x { IsIn fragments.old.nodes.items x }
    requires y { IsIn fragments.old.nodes.items y }
    requires last { IsIn fragments.old.nodes.items last }
    ensures { IsMade fragments.old.nodes.items fragments.new.nodes.items result
        (part fragments.old.nodes.items x ⨟ part fragments.old.nodes.items y ⨟ part fragments.old.nodes.items last) }
{
    let rest = fragments.then(y, last)?;
    fragments.then(x, rest)
}

/// Two fragments, and then an instruction that takes their values.
pub fn applied(
    fragments: &mut Fragments,
    x: Fragment,
    y: Fragment,
    instr: Instr,
) -> Result<Fragment, Memory>
    requires x { IsIn fragments.old.nodes.items x }
    requires y { IsIn fragments.old.nodes.items y }
    ensures { IsMade fragments.old.nodes.items fragments.new.nodes.items result
        (part fragments.old.nodes.items x ⨟ part fragments.old.nodes.items y ⨟ plain (instr ∷ [])) }
{
    let last = fragments.one(instr)?;
    after_both(fragments, x, y, last)
}
