//! Assignments, and calls as statements.
ghost use Rattle.std.specs.Prelude.{◌≡◌, ◌+◌, ◌<◌, ◌^◌, ◌∷◌, [], List, length, min};
ghost use Rattle.m2_base.specs.Gives.{gives};
ghost use Rattle.m2_base.specs.Statics.Operands.{operand_type as spec_type};
ghost use Rattle.m2_base.specs.declared.notes.Notes.{Notes as NotesOf};
ghost use Rattle.block_code.specs.Coded.{characters as spec_characters};
ghost use Rattle.expr_sem.specs.Codings.{Coding, IsCoded, IsFragment, coded_in};
ghost use Rattle.expr_sem.specs.Fragments.{IsIn, IsMade, part};
ghost use Rattle.block_code.specs.Parts.{plain, ◌⨟◌};
ghost use Rattle.expr_sem.specs.declared.fragments.Node.{Node};
ghost use Rattle.type_rules.specs.Sites.{SuitsSite};
ghost use Rattle.block_code.specs.Assignments.{assignment as spec_assignment, code_unless_bad as spec_unless_bad};
ghost use Rattle.block_code.specs.Assignments.{store_code as spec_store, store_text as spec_store_text};
ghost use Rattle.block_code.specs.Assignments.{store_value as spec_store_value};
ghost use Rattle.stmt_sem.specs.Stands.{IsStand};
ghost use Rattle.stmt_sem.specs.Walkers.{Codes, Keeps, frame_of, nodes_of};

use crate::stands::Stand;
use crate::walker::Walker;
use code_form::Instr;
use const_eval::is_bad;
use expr_sem::{
    Coded, Fragment, Fragments, Placed, answered, cells_of, characters, fitted_code, instr_behind,
    is_structured, value_code,
};
use m2_base::{Ask, Diagnostic, Memory, Operand, Scopes, Site};
use type_rules::operand_type;

/// A value stored by this instruction behind the address of its variable.
fn stored(
    to: Fragment,
    value: Fragment,
    instr: Instr,
    fragments: &mut Fragments,
) -> Result<Fragment, Memory>
    requires to { IsIn fragments.old.nodes.items to }
    requires value { IsIn fragments.old.nodes.items value }
    ensures { IsMade fragments.old.nodes.items fragments.new.nodes.items result
        (part fragments.old.nodes.items to ⨟ part fragments.old.nodes.items value ⨟ plain (instr ∷ [])) }
{
    let rest = instr_behind(value, instr, fragments)?;
    fragments.then(to, rest)
}

/// How many cells of a string of so many characters an array of this size takes: the string has a 0 behind them.
fn cells_taken(length: usize, size: u32) -> u32
    ensures { result ≡ min (length + 1) size }
{
    if length < size as usize {
        length as u32 + 1
    } else {
        size
    }
}

/// A string to an array.
fn store_text<S: Scopes>(
    scopes: &mut S,
    site: &Site,
    to: Coded,
    name: u32,
    fragments: &mut Fragments,
) -> Result<Ask<Fragment>, Memory>
    requires suits { SuitsSite (S.state scopes.old).frame site.now }
    requires to { IsCoded (S.state scopes.old).frame fragments.old.nodes.items to }
    requires named { name < length site.now.texts.now.names }
    ensures { (notes : NotesOf)
        → Coding (S.state scopes.old) (S.state scopes.new) notes notes fragments.old.nodes.items
        fragments.new.nodes.items site.now result IsFragment part (λ c. gives (spec_store_text c (spec_type to.operand)
        (part fragments.old.nodes.items to.code) (spec_characters c.source name))) }
{
    let size = asked!(cells_of(scopes, site.around, operand_type(&to.operand)));
    let bytes = characters(site, name)?;
    let cells = cells_taken(bytes.len(), size);
    let string = fragments.text(bytes)?;
    answered(stored(to.code, string, Instr::Move(cells), fragments))
}

/// A value that is no string to a variable: of an array or a record all its cells, of anything else the value, fitted
/// to the variable's type.
fn store_value<S: Scopes>(
    scopes: &mut S,
    site: &Site,
    to: Coded,
    x: Coded,
    fragments: &mut Fragments,
) -> Result<Ask<Fragment>, Memory>
    requires suits { SuitsSite (S.state scopes.old).frame site.now }
    requires to { IsCoded (S.state scopes.old).frame fragments.old.nodes.items to }
    requires x { IsCoded (S.state scopes.old).frame fragments.old.nodes.items x }
    ensures { (notes : NotesOf)
        → Coding (S.state scopes.old) (S.state scopes.new) notes notes fragments.old.nodes.items
        fragments.new.nodes.items site.now result IsFragment part (λ c. gives (spec_store_value c
        (spec_type to.operand) (part fragments.old.nodes.items to.code) (coded_in fragments.old.nodes.items x))) }
{
    let of = operand_type(&to.operand);
    let structured = asked!(is_structured(scopes, site.around, of));
    if !structured {
        let value = analysed!(fitted_code(scopes, site, of, x, fragments));
        return answered(stored(to.code, value, Instr::Store, fragments));
    }
    let size = asked!(cells_of(scopes, site.around, of));
    let value = analysed!(value_code(scopes, site, x, fragments));
    answered(stored(to.code, value, Instr::Move(size), fragments))
}

/// A value to a variable. What is in error has no code.
pub fn store_code<S: Scopes>(
    scopes: &mut S,
    site: &Site,
    to: Coded,
    x: Coded,
    fragments: &mut Fragments,
) -> Result<Ask<Fragment>, Memory>
    requires suits { SuitsSite (S.state scopes.old).frame site.now }
    requires to { IsCoded (S.state scopes.old).frame fragments.old.nodes.items to }
    requires x { IsCoded (S.state scopes.old).frame fragments.old.nodes.items x }
    ensures { (notes : NotesOf) → Coding (S.state scopes.old) (S.state scopes.new) notes notes
        fragments.old.nodes.items fragments.new.nodes.items site.now result IsFragment part
        (λ c. gives (spec_store c (coded_in fragments.old.nodes.items to) (coded_in fragments.old.nodes.items x))) }
{
    match x.operand {
        Operand::InError => Ok(Ask::Known(Fragment::Nothing)),
        Operand::StringConstant(name, _) => store_text(scopes, site, to, name, fragments),
        _ => store_value(scopes, site, to, x, fragments),
    }
}

impl<S: Scopes> Walker<'_, S> {
    /// An assignment to a variable.
    pub(crate) fn assignment(
        &mut self,
        stand: &Stand,
        to: Coded,
        x: Placed,
    ) -> Result<Ask<Fragment>, Memory>
        requires stand { IsStand (frame_of S.state self.old) stand.now }
        requires to { IsCoded (frame_of S.state self.old) (nodes_of self.old) to }
        requires x { IsCoded (frame_of S.state self.old) (nodes_of self.old) x.coded }
        ensures keeps { Keeps self.old self.new }
        ensures codes { Codes S.state self.old self.new stand.now result IsFragment part (λ s.
            spec_assignment s.context (coded_in (nodes_of self.old) to) x.at (coded_in (nodes_of self.old) x.coded)) }
    {
        if is_bad(to.operand) {
            return Ok(Ask::Known(Fragment::Nothing));
        }
        let of = operand_type(&to.operand);
        let value = analysed!(self.assigned_to(stand, of, Diagnostic::NotAssignable, x));
        store_code(self.scopes, stand.site, to, value, self.fragments)
    }
}

/// A call as a statement, unless it is in error.
pub fn code_unless_bad(x: Coded) -> Fragment
    ensures told { (nodes : List Node) → part nodes result ≡ spec_unless_bad (coded_in nodes x) }
    ensures there { (nodes : List Node) → IsIn nodes x.code → IsIn nodes result }
{
    if is_bad(x.operand) {
        Fragment::Nothing
    } else {
        x.code
    }
}
