//! What stands where a value is wanted, the code of a value, and which value a variable of a type takes.
ghost use Rattle.std.specs.Prelude.{◌≡◌, ◌<◌, List, length, IfOk};
ghost use Rattle.m2_base.specs.Gives.{gives};
ghost use Rattle.m2_base.specs.States.{State, Waits};
ghost use Rattle.m2_base.specs.Statics.Contexts.{Source};
ghost use Rattle.m2_base.specs.declared.notes.Notes.{Notes as NotesOf};
ghost use Rattle.block_code.specs.Coded.{characters as spec_characters, is_structured as spec_structured};
ghost use Rattle.block_code.specs.Coded.{value_code as spec_value_code};
ghost use Rattle.expr_sem.specs.Coders.{Codes, Keeps, SuitsPlace, frame_of, nodes_of};
ghost use Rattle.expr_sem.specs.Codings.{Coding, IsCoded, IsFragment, coded_in};
ghost use Rattle.expr_sem.specs.Fragments.{IsMade, part};
ghost use Rattle.block_code.specs.Parts.{text as spec_text};
ghost use Rattle.m2_base.specs.Diagnostics.{code_of};
ghost use Rattle.block_code.specs.Values.{as_value as spec_as_value, assigned_to as spec_assigned_to};
ghost use Rattle.block_code.specs.Values.{in_range as spec_in_range};
ghost use Rattle.expr_sem.specs.declared.fragments.Node.{Node};
ghost use Rattle.type_rules.specs.Asks.{Reads, WhereKnown, WhereWaiting};
ghost use Rattle.type_rules.specs.Scenes.{IsThere, Suits, WhereTold, scene_of};
ghost use Rattle.type_rules.specs.Sites.{SuitsSite};

use crate::answers::answered;
use crate::chains::instr_behind;
use crate::coded::{Coded, Placed};
use crate::coder::Coder;
use crate::fragments::{Fragment, Fragments};
use crate::levels::level_of;
use crate::procedure_names::{Target, procedure_code};
use crate::refusals::refused;
use crate::takings::{Taking, taking_of};
use code_form::Instr;
use const_eval::is_within;
use m2_base::{
    Around, Ask, Diagnostic, Memory, Notes, Operand, Place, RowMeaning, Scopes, Site, Texts,
};
use type_rules::{range_of, stand};

/// A copy of the characters of the string that has this number among the unit's names, without a 0 behind them. The
/// empty string has one character, of code 0. Where it fails memory is wanted.
pub fn characters(site: &Site, name: u32) -> Result<Vec<u8>, Memory>
    requires named { name < length site.now.texts.now.names }
    ensures { IfOk result (λ bytes.
        (source : Source) → source.spellings ≡ site.now.texts.now.names → bytes.items ≡ spec_characters source name) }
{
    let texts = site.texts;
    let bytes = texts.names.bytes(name);
    if bytes.is_empty() {
        copied(texts, &[0])
    } else {
        copied(texts, bytes)
    }
}

/// A copy of bytes.
fn copied(texts: &Texts, bytes: &[u8]) -> Result<Vec<u8>, Memory>
    ensures { IfOk result (λ copy. copy.items ≡ bytes.now) }
{
    let mut copy = Vec::new(*texts.order.allocator());
    copy.extend_from_slice(bytes)?;
    Ok(copy)
}

/// Whether a type is an array, open or fixed, or a record. Then its value is its address, one cell on the stack, and
/// `Move` assigns the cells behind it. It waits for the row of what the type stands for.
#[tactic(auto, using(type_rules::proofs::Reading::reading))]
pub fn is_structured<S: Scopes>(scopes: &mut S, around: &Around, of: Place) -> Ask<bool>
    requires suits { Suits (S.state scopes.old).frame around.now }
    requires of { IsThere (S.state scopes.old).frame of }
    ensures reads { Reads (S.state scopes.old) (S.state scopes.new) }
    ensures waits { WhereWaiting result (λ head. Waits (S.state scopes.old) (S.state scopes.new) head) }
    ensures told { WhereTold (S.state scopes.old).frame (λ made.
        WhereKnown result
        (λ holds. holds ≡ spec_structured (scene_of (S.state scopes.old).frame made around.now) of)) }
{
    let (_, meaning) = known!(stand(scopes, around, of));
    Ask::Known(matches!(
        meaning,
        RowMeaning::Array(..) | RowMeaning::OpenArray(_) | RowMeaning::Record(..)
    ))
}

/// The code of a string.
pub fn string_value(site: &Site, name: u32, fragments: &mut Fragments) -> Result<Fragment, Memory>
    requires named { name < length site.now.texts.now.names }
    ensures { (source : Source) → source.spellings ≡ site.now.texts.now.names
        → IsMade fragments.old.nodes.items fragments.new.nodes.items result (spec_text (spec_characters source name)) }
{
    let bytes = characters(site, name)?;
    fragments.text(bytes)
}

/// The code that leaves an operand's value on the stack: `Push` of a constant, the address of a string's characters,
/// `Proc` of a procedure, a variable's address and `Load`, of an array or a record its address alone; what is computed
/// has it already. It waits for a variable's type, and for the module's procedure that its definition's heading means.
pub fn value_code<S: Scopes>(
    scopes: &mut S,
    site: &Site,
    x: Coded,
    fragments: &mut Fragments,
) -> Result<Ask<Fragment>, Memory>
    requires suits { SuitsSite (S.state scopes.old).frame site.now }
    requires x { IsCoded (S.state scopes.old).frame fragments.old.nodes.items x }
    ensures { (notes : NotesOf) → Coding (S.state scopes.old) (S.state scopes.new) notes notes
        fragments.old.nodes.items fragments.new.nodes.items site.now result IsFragment part
        (λ c. gives (spec_value_code c (coded_in fragments.old.nodes.items x))) }
{
    match x.operand {
        Operand::Constant(_, value) => answered(fragments.one(Instr::Push(value))),
        Operand::StringConstant(name, _) => answered(string_value(site, name, fragments)),
        Operand::Variable(of) => {
            if asked!(is_structured(scopes, site.around, of)) {
                Ok(Ask::Known(x.code))
            } else {
                answered(instr_behind(x.code, Instr::Load, fragments))
            }
        }
        Operand::Procedure(name, of, number, _) => {
            procedure_code(scopes, site, name, Target { of, number }, fragments)
        }
        _ => Ok(Ask::Known(x.code)),
    }
}

/// What stands where a value is wanted: no type and no module alone, and no procedure that is no value.
pub fn as_value(site: &Site, at: u32, x: Coded, notes: &mut Notes) -> Result<Ask<Coded>, Memory>
    ensures { (state : State) (nodes : List Node) → IsCoded state.frame nodes x → Coding state state notes.old
        notes.new nodes nodes site.now result IsCoded coded_in (λ c. spec_as_value c at (coded_in nodes x)) }
{
    match x.operand {
        Operand::NamedType(_) => refused(site, at, Diagnostic::NotAVariable, notes),
        Operand::ModuleName(_) => refused(site, at, Diagnostic::NotAVariable, notes),
        Operand::StandardProcedure(_) => refused(site, at, Diagnostic::NotAProcedureValue, notes),
        Operand::Procedure(_, of, _, _) => {
            if level_of(site.around, of.scope) == 0 {
                Ok(Ask::Known(x))
            } else {
                refused(site, at, Diagnostic::NotAProcedureValue, notes)
            }
        }
        _ => Ok(Ask::Known(x)),
    }
}

/// A value for a variable of a type: a constant lies in its range.
pub fn in_range<S: Scopes>(
    scopes: &mut S,
    site: &Site,
    to: Place,
    x: Placed,
    notes: &mut Notes,
) -> Result<Ask<Coded>, Memory>
    requires suits { SuitsSite (S.state scopes.old).frame site.now }
    requires to { IsThere (S.state scopes.old).frame to }
    ensures { (nodes : List Node) → IsCoded (S.state scopes.old).frame nodes x.coded
        → Coding (S.state scopes.old) (S.state scopes.new) notes.old notes.new nodes nodes site.now result IsCoded
        coded_in (λ c. spec_in_range c x.at to (coded_in nodes x.coded)) }
{
    let ends = asked!(range_of(scopes, site.around, to));
    match x.coded.operand {
        Operand::Constant(_, value) => {
            if is_within(ends, value) {
                Ok(Ask::Known(x.coded))
            } else {
                refused(site, x.at, Diagnostic::OutOfRange, notes)
            }
        }
        _ => Ok(Ask::Known(x.coded)),
    }
}

impl<S: Scopes> Coder<'_, '_, S> {
    /// A value that a variable of a type takes, as it is taken: it must be assignable, or else is refused with this
    /// diagnostic at its first token, and a constant must lie in the type's range. It makes no code, and waits for
    /// the rows of both types.
    pub fn assigned_to(
        &mut self,
        to: Place,
        refusal: Diagnostic,
        x: Placed,
    ) -> Result<Ask<Coded>, Memory>
        requires suits { SuitsPlace S.state self.old }
        requires to { IsThere (frame_of S.state self.old) to }
        requires x { IsCoded (frame_of S.state self.old) (nodes_of self.old) x.coded }
        ensures keeps { Keeps self.old self.new }
        ensures fragments { self.new.fragments.now ≡ self.old.fragments.now }
        ensures codes { Codes S.state self.old self.new result IsCoded coded_in
            (λ c. spec_assigned_to c to x.at (code_of refusal) (coded_in (nodes_of self.old) x.coded)) }
    {
        match taking_of(self.scopes, self.site, to, x.coded.operand) {
            Ask::Known(Taking::PassedOver) => Ok(Ask::Known(Coded::in_error())),
            Ask::Known(Taking::Refused) => refused(self.site, x.at, refusal, self.notes),
            Ask::Known(Taking::Taken(operand)) => {
                let coded = x.coded.taken(operand);
                let taken = Placed { at: x.at, coded };
                in_range(self.scopes, self.site, to, taken, self.notes)
            }
            Ask::DontKnowYet(head) => Ok(Ask::DontKnowYet(head)),
        }
    }
}
