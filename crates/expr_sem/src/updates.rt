//! Variables that a standard procedure changes: the change of INC and DEC, and that of INCL and EXCL.
ghost use Rattle.std.specs.Prelude.{◌≡◌, ◌||◌};
ghost use Rattle.m2_base.specs.Gives.{gives};
ghost use Rattle.m2_base.specs.States.{Waits};
ghost use Rattle.m2_base.specs.Statics.Operands.{is_bad as spec_bad};
ghost use Rattle.m2_base.specs.Statics.Ranges.{range};
ghost use Rattle.expr_sem.specs.Coders.{Codes, Keeps, SuitsPlace, frame_of, nodes_of};
ghost use Rattle.expr_sem.specs.Codings.{IsCoded, coded_in};
ghost use Rattle.expr_sem.specs.Fragments.{IsIn, IsMade, part};
ghost use Rattle.block_code.specs.Parts.{plain};
ghost use Rattle.block_code.specs.StandardProcedures.{counting_range as spec_counting};
ghost use Rattle.block_code.specs.StandardProcedures.{step_instrs as spec_step_instrs, stepped as spec_stepped};
ghost use Rattle.expr_sem.specs.Updates.{instrs_of, updated_by};
ghost use Rattle.type_rules.specs.Asks.{Reads, WhereKnown, WhereWaiting};
ghost use Rattle.type_rules.specs.Scenes.{IsThere, WhereTold};
ghost use Rattle.type_rules.specs.Sites.{SuitsSite, context_of};

use crate::answers::answered_as;
use crate::chains::{instr_behind, pair};
use crate::coded::Coded;
use crate::coder::Coder;
use crate::fitting::range_check;
use crate::fragments::{Fragment, Fragments};
use crate::operators::side_of;
use crate::values::value_code;
use code_form::Instr;
use const_eval::is_bad;
use m2_base::{
    Ask, Builtin, GREATEST_CARDINAL, GREATEST_INTEGER, LEAST_INTEGER, Memory, Operand, Place,
    Scopes, Site,
};
use type_rules::{BROKEN, operand_type, range_of};

/// What the call of a proper procedure stands for.
pub const NO_VALUE: Operand = Operand::Computed(BROKEN);

/// One or two instructions that change a value by what stands on top of it.
#[derive(Clone, Copy)]
pub struct Change {
    pub first: Instr,
    pub second: Option<Instr>,
}

impl Change {
    /// Its code.
    fn code(self, fragments: &mut Fragments) -> Result<Fragment, Memory>
        ensures { IsMade fragments.old.nodes.items fragments.new.nodes.items result (plain (instrs_of self)) }
    {
        match self.second {
            Some(second) => pair(self.first, second, fragments),
            None => fragments.one(self.first),
        }
    }
}

/// A variable changed by a number: its address twice, then the value that is there, the number and the change, and
/// `Store`.
pub fn updated(
    variable: Fragment,
    number: Fragment,
    change: Change,
    fragments: &mut Fragments,
) -> Result<Fragment, Memory>
    requires variable { IsIn fragments.old.nodes.items variable }
    requires number { IsIn fragments.old.nodes.items number }
    ensures { IsMade fragments.old.nodes.items fragments.new.nodes.items result
        (updated_by (part fragments.old.nodes.items variable) (part fragments.old.nodes.items number)
        (instrs_of change)) }
{
    let change = change.code(fragments)?;
    let stored = instr_behind(change, Instr::Store, fragments)?;
    let loaded = pair(Instr::Dup, Instr::Load, fragments)?;
    let changed = fragments.then(number, stored)?;
    let rest = fragments.then(loaded, changed)?;
    fragments.then(variable, rest)
}

/// The least and the greatest of what a number of this side can be.
fn counting_range(side: u8) -> (i64, i64)
    ensures { range result.0 result.1 ≡ spec_counting side }
{
    if side == 0 {
        (LEAST_INTEGER, GREATEST_INTEGER)
    } else {
        (0, GREATEST_CARDINAL)
    }
}

/// The change of INC and DEC to a variable of this type.
#[tactic(auto, using(type_rules::proofs::Reading::reading))]
fn step_change<S: Scopes>(scopes: &mut S, site: &Site, f: Builtin, of: Place) -> Ask<Change>
    requires suits { SuitsSite (S.state scopes.old).frame site.now }
    requires of { IsThere (S.state scopes.old).frame of }
    ensures reads { Reads (S.state scopes.old) (S.state scopes.new) }
    ensures waits { WhereWaiting result (λ head. Waits (S.state scopes.old) (S.state scopes.new) head) }
    ensures told { WhereTold (S.state scopes.old).frame (λ made.
        WhereKnown result (λ change.
        instrs_of change ≡ spec_step_instrs (context_of (S.state scopes.old).frame made site.now).scene f of)) }
{
    let side = known!(side_of(scopes, site, of));
    let ends = known!(range_of(scopes, site.around, of));
    let second = range_check(Some(counting_range(side)), ends);
    match f {
        Builtin::Inc => Ask::Known(Change {
            first: Instr::Add(side),
            second,
        }),
        _ => Ask::Known(Change {
            first: Instr::Sub(side),
            second,
        }),
    }
}

/// Whether one of two operands takes part in no further check.
pub fn either_bad(x: Operand, n: Operand) -> bool
    ensures { result ≡ (spec_bad x || spec_bad n) }
{
    is_bad(x) || is_bad(n)
}

impl<S: Scopes> Coder<'_, '_, S> {
    /// INC or DEC of a variable by a number, unless one of them is in error.
    pub(crate) fn stepped(&mut self, f: Builtin, x: Coded, n: Coded) -> Result<Ask<Coded>, Memory>
        requires suits { SuitsPlace S.state self.old }
        requires x { IsCoded (frame_of S.state self.old) (nodes_of self.old) x }
        requires n { IsCoded (frame_of S.state self.old) (nodes_of self.old) n }
        ensures keeps { Keeps self.old self.new }
        ensures codes { Codes S.state self.old self.new result IsCoded coded_in
            (λ c. gives (spec_stepped c f (coded_in (nodes_of self.old) x) (coded_in (nodes_of self.old) n))) }
    {
        if either_bad(x.operand, n.operand) {
            return Ok(Ask::Known(Coded::in_error()));
        }
        let number = analysed!(value_code(self.scopes, self.site, n, self.fragments));
        let of = operand_type(&x.operand);
        let change = asked!(step_change(self.scopes, self.site, f, of));
        answered_as(NO_VALUE, updated(x.code, number, change, self.fragments))
    }
}
