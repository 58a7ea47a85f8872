//! RETURN, with a value or without.
ghost use Rattle.m2_base.specs.Gives.{gives};
ghost use Rattle.m2_base.specs.States.{State};
ghost use Rattle.m2_base.specs.declared.notes.Notes.{Notes as NotesOf};
ghost use Rattle.code_form.specs.declared.instr.Instr.TheVariants as instrs;
ghost use Rattle.expr_sem.specs.Codings.{Coding, IsCoded, IsFragment, coded_in};
ghost use Rattle.expr_sem.specs.Fragments.{part};
ghost use Rattle.type_rules.specs.Scenes.{IsThere};
ghost use Rattle.type_rules.specs.Sites.{SuitsSite};
ghost use Rattle.block_code.specs.Returns.{return_alone as spec_alone};
ghost use Rattle.block_code.specs.Returns.{return_value as spec_value, returned as spec_returned};
ghost use Rattle.stmt_sem.specs.Stands.{IsStand};
ghost use Rattle.stmt_sem.specs.Walkers.{Codes, Keeps, frame_of, nodes_of};

use crate::refusals::refused_code;
use crate::stands::Stand;
use crate::walker::Walker;
use code_form::Instr;
use const_eval::is_bad;
use expr_sem::{Coded, Fragment, Fragments, Placed, Step, answered, fitted_code};
use m2_base::{Ask, Diagnostic, Memory, Notes, Place, Scopes, Site};

/// The end of a function with this value, unless it is in error.
fn returned<S: Scopes>(
    scopes: &mut S,
    site: &Site,
    of: Place,
    x: Coded,
    fragments: &mut Fragments,
) -> Result<Ask<Fragment>, Memory>
    requires suits { SuitsSite (S.state scopes.old).frame site.now }
    requires of { IsThere (S.state scopes.old).frame of }
    requires x { IsCoded (S.state scopes.old).frame fragments.old.nodes.items x }
    ensures { (notes : NotesOf) → Coding (S.state scopes.old) (S.state scopes.new) notes notes
        fragments.old.nodes.items fragments.new.nodes.items site.now result IsFragment part
        (λ c. gives (spec_returned c of (coded_in fragments.old.nodes.items x))) }
{
    if is_bad(x.operand) {
        return Ok(Ask::Known(Fragment::Nothing));
    }
    let value = analysed!(fitted_code(scopes, site, of, x, fragments));
    let last = fragments.step(Step {
        instr: Instr::Return,
        takes: 1,
        leaves: 0,
    })?;
    answered(fragments.then(value, last))
}

/// RETURN without a value, in a procedure with this result.
pub fn return_alone(
    site: &Site,
    at: u32,
    of: Option<Place>,
    fragments: &mut Fragments,
    notes: &mut Notes,
) -> Result<Ask<Fragment>, Memory>
    ensures { (state : State) → Coding state state notes.old notes.new fragments.old.nodes.items
        fragments.new.nodes.items site.now result IsFragment part (λ c. spec_alone c at of) }
{
    match of {
        None => answered(fragments.step(Step {
            instr: Instr::Return,
            takes: 0,
            leaves: 0,
        })),
        Some(_) => refused_code(site, at, Diagnostic::WrongReturn, notes),
    }
}

impl<S: Scopes> Walker<'_, S> {
    /// RETURN with a value.
    pub(crate) fn return_value(
        &mut self,
        stand: &Stand,
        at: u32,
        x: Placed,
    ) -> Result<Ask<Fragment>, Memory>
        requires stand { IsStand (frame_of S.state self.old) stand.now }
        requires x { IsCoded (frame_of S.state self.old) (nodes_of self.old) x.coded }
        ensures keeps { Keeps self.old self.new }
        ensures codes { Codes S.state self.old self.new stand.now result IsFragment part
            (λ s. spec_value s.context at s.result x.at (coded_in (nodes_of self.old) x.coded)) }
    {
        let Some(of) = stand.result else {
            return refused_code(stand.site, at, Diagnostic::WrongReturn, self.notes);
        };
        let value = analysed!(self.assigned_to(stand, of, Diagnostic::NotAssignable, x));
        returned(self.scopes, stand.site, of, value, self.fragments)
    }
}
