//! The element of INCL or EXCL, and how it changes a set.
ghost use Rattle.std.specs.Prelude.{List};
ghost use Rattle.m2_base.specs.Gives.{and_then, gives};
ghost use Rattle.const_eval.specs.Sites.{IsOperand};
ghost use Rattle.expr_sem.specs.Coders.{Codes, Keeps, SuitsPlace, frame_of, nodes_of};
ghost use Rattle.expr_sem.specs.Codings.{Coding, IsCoded, coded_in};
ghost use Rattle.block_code.specs.StandardProcedures.{included as spec_included};
ghost use Rattle.block_code.specs.StandardProcedures.{set_member as spec_member};
ghost use Rattle.expr_sem.specs.declared.fragments.Node.{Node};
ghost use Rattle.type_rules.specs.Sites.{SuitsSite};

use crate::answers::answered_as;
use crate::coded::{Coded, Placed};
use crate::coder::Coder;
use crate::fitting::fitted_code;
use crate::refusals::refused;
use crate::updates::{Change, NO_VALUE, either_bad, updated};
use crate::values::{as_value, in_range};
use code_form::Instr;
use const_eval::{compatible_pair, is_broken, set_base};
use m2_base::{Ask, Builtin, Diagnostic, Memory, Notes, Operand, Scopes, Site};
use type_rules::operand_type;

/// The element by which a set is changed: compatible with the set's base, and a constant in its range.
fn set_member<S: Scopes>(
    scopes: &mut S,
    site: &Site,
    x: Coded,
    e: Placed,
    notes: &mut Notes,
) -> Result<Ask<Coded>, Memory>
    requires suits { SuitsSite (S.state scopes.old).frame site.now }
    requires x { IsOperand (S.state scopes.old).frame x.operand }
    requires e { (nodes : List Node) × IsCoded (S.state scopes.old).frame nodes e.coded }
    ensures { (nodes : List Node) → IsCoded (S.state scopes.old).frame nodes e.coded
        → Coding (S.state scopes.old) (S.state scopes.new) notes.old notes.new nodes nodes site.now result IsCoded
        coded_in (λ c. spec_member c (coded_in nodes x) e.at (coded_in nodes e.coded)) }
{
    let v = analysed!(as_value(site, e.at, e.coded, notes));
    if either_bad(x.operand, v.operand) {
        return Ok(Ask::Known(Coded::in_error()));
    }
    let base = asked!(set_base(scopes, site, operand_type(&x.operand)));
    if asked!(is_broken(scopes, site.around, base)) {
        return Ok(Ask::Known(Coded::in_error()));
    }
    match asked!(compatible_pair(scopes, site, v.operand, Operand::Computed(base))) {
        Some((operand, _)) => {
            let coded = v.taken(operand);
            in_range(scopes, site, base, Placed { at: e.at, coded }, notes)
        }
        None => refused(site, e.at, Diagnostic::WrongArgument, notes),
    }
}

impl<S: Scopes> Coder<'_, '_, S> {
    /// INCL or EXCL of a set and an element, unless one of them is in error.
    pub(crate) fn included(&mut self, f: Builtin, x: Coded, e: Placed) -> Result<Ask<Coded>, Memory>
        requires suits { SuitsPlace S.state self.old }
        requires x { IsCoded (frame_of S.state self.old) (nodes_of self.old) x }
        requires e { IsCoded (frame_of S.state self.old) (nodes_of self.old) e.coded }
        ensures keeps { Keeps self.old self.new }
        ensures codes { Codes S.state self.old self.new result IsCoded coded_in
            (λ c. and_then (spec_member c (coded_in (nodes_of self.old) x) e.at (coded_in (nodes_of self.old) e.coded))
            (λ v. gives (spec_included c f (coded_in (nodes_of self.old) x) v))) }
    {
        let v = analysed!(set_member(self.scopes, self.site, x, e, self.notes));
        if either_bad(x.operand, v.operand) {
            return Ok(Ask::Known(Coded::in_error()));
        }
        let base = asked!(set_base(self.scopes, self.site, operand_type(&x.operand)));
        let element = analysed!(fitted_code(self.scopes, self.site, base, v, self.fragments));
        let second = match f {
            Builtin::Incl => Instr::Union,
            _ => Instr::Diff,
        };
        let change = Change {
            first: Instr::Bit,
            second: Some(second),
        };
        answered_as(NO_VALUE, updated(x.code, element, change, self.fragments))
    }
}
