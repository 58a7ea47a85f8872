//! The standard functions of values: the static rule, and the code that each makes of the value.
ghost use Rattle.std.specs.Prelude.{◌≡◌};
ghost use Rattle.std.specs.Option.{IfSome};
ghost use Rattle.m2_base.specs.Gives.{gives};
ghost use Rattle.m2_base.specs.Standard.{broken, cardinal, character};
ghost use Rattle.m2_base.specs.States.{Frame, Waits};
ghost use Rattle.m2_base.specs.declared.notes.Notes.{Notes as NotesOf};
ghost use Rattle.const_eval.specs.Analyses.{Analysed};
ghost use Rattle.const_eval.specs.Sites.{IsOperand};
ghost use Rattle.expr_sem.specs.Coders.{Codes, Keeps, SuitsPlace, frame_of, nodes_of};
ghost use Rattle.expr_sem.specs.Codings.{Coding, IsCoded, IsFragment, coded_in};
ghost use Rattle.expr_sem.specs.Fragments.{IsIn, IsMade, part};
ghost use Rattle.block_code.specs.Parts.{plain, ◌⨟◌};
ghost use Rattle.block_code.specs.StandardFunctions.{on_value as spec_on_value};
ghost use Rattle.expr_sem.specs.ValueFunctions.{IsRuleHere, code_of, ending as spec_ending, instrs_of, rule_of};
ghost use Rattle.expr_sem.specs.ValueFunctions.{target_of as spec_target};
ghost use Rattle.type_rules.specs.Asks.{Reads, WhereKnown, WhereWaiting};
ghost use Rattle.type_rules.specs.Scenes.{IsThere, WhereTold};
ghost use Rattle.type_rules.specs.Sites.{SuitsSite, context_of};

use crate::answers::answered;
use crate::chains::{instr_behind, pair};
use crate::coded::Coded;
use crate::coder::Coder;
use crate::fitting::fitted_code;
use crate::fragments::{Fragment, Fragments};
use crate::operators::{made, side_of};
use crate::values::{as_value, value_code};
use code_form::Instr;
use const_eval::{Argument, ValueFunction, of_value_noted, val_of_operand};
use m2_base::{Ask, Memory, Notes, Operand, Place, Scopes, Site};
use type_rules::{BROKEN, CARDINAL, CHARACTER, INTEGER, base_of, operand_type};

/// The rule for a value.
#[derive(Clone, Copy)]
pub enum Rule {
    Function(ValueFunction),
    /// VAL, with the argument that names its type.
    Val(Argument),
}

/// The type that the value becomes one of.
fn target_of(rule: Rule) -> Option<Place>
    ensures told { result ≡ spec_target rule }
    ensures there { (f : Frame) → IsThere f character → IsThere f cardinal → IsThere f broken → IsRuleHere f rule
        → IfSome result (λ of. IsThere f of) }
{
    match rule {
        Rule::Function(function) => match function {
            ValueFunction::Chr => Some(CHARACTER),
            ValueFunction::Ord => Some(CARDINAL),
            _ => None,
        },
        Rule::Val(of) => match of.operand {
            Operand::NamedType(of) => Some(of),
            _ => Some(BROKEN),
        },
    }
}

/// What a rule gives of a value; what is refused is noted.
fn rule_noted<S: Scopes>(
    scopes: &mut S,
    site: &Site,
    rule: Rule,
    x: Argument,
    notes: &mut Notes,
) -> Result<Ask<Operand>, Memory>
    requires suits { SuitsSite (S.state scopes.old).frame site.now }
    requires rule { IsRuleHere (S.state scopes.old).frame rule }
    requires x { IsOperand (S.state scopes.old).frame x.operand }
    ensures { Analysed (S.state scopes.old) (S.state scopes.new) notes.old notes.new site.now result IsOperand
        (λ c. rule_of c rule x.at x.operand) }
{
    match rule {
        Rule::Function(function) => of_value_noted(scopes, site, function, x, notes),
        Rule::Val(of) => val_of_operand(scopes, site, of, x, notes),
    }
}

/// What stands behind the value of an argument.
#[derive(Clone, Copy)]
pub enum Ending {
    Nothing,
    Magnitude,
    Capital,
    /// Whether the remainder by 2 is 1, on this side.
    Oddness(u8),
}

/// The ending of a rule; a value that is fitted has none.
#[tactic(auto, using(type_rules::proofs::Reading::reading))]
fn ending_of<S: Scopes>(scopes: &mut S, site: &Site, rule: Rule, of: Place) -> Ask<Ending>
    requires suits { SuitsSite (S.state scopes.old).frame site.now }
    requires of { IsThere (S.state scopes.old).frame of }
    ensures reads { Reads (S.state scopes.old) (S.state scopes.new) }
    ensures waits { WhereWaiting result (λ head. Waits (S.state scopes.old) (S.state scopes.new) head) }
    ensures told { WhereTold (S.state scopes.old).frame (λ made.
        WhereKnown result (λ ending.
        instrs_of ending ≡ spec_ending (context_of (S.state scopes.old).frame made site.now).scene of rule)) }
{
    match rule {
        Rule::Function(function) => match function {
            ValueFunction::Abs => {
                let base = known!(base_of(scopes, site.around, of));
                if base == INTEGER {
                    Ask::Known(Ending::Magnitude)
                } else {
                    Ask::Known(Ending::Nothing)
                }
            }
            ValueFunction::Cap => Ask::Known(Ending::Capital),
            ValueFunction::Odd => { Ask::Known(Ending::Oddness(known!(side_of(scopes, site, of)))) }
            _ => Ask::Known(Ending::Nothing),
        },
        Rule::Val(_) => Ask::Known(Ending::Nothing),
    }
}

/// A value with its ending.
fn with_ending(
    value: Fragment,
    ending: Ending,
    fragments: &mut Fragments,
) -> Result<Fragment, Memory>
    requires value { IsIn fragments.old.nodes.items value }
    ensures { IsMade fragments.old.nodes.items fragments.new.nodes.items result
        (part fragments.old.nodes.items value ⨟ plain (instrs_of ending)) }
{
    match ending {
        Ending::Nothing => fragments.then(value, Fragment::Nothing),
        Ending::Magnitude => instr_behind(value, Instr::Abs, fragments),
        Ending::Capital => instr_behind(value, Instr::Cap, fragments),
        Ending::Oddness(side) => {
            let remainder = pair(Instr::Push(2), Instr::Mod(side), fragments)?;
            let is_one = pair(Instr::Push(1), Instr::Eq, fragments)?;
            let test = fragments.then(remainder, is_one)?;
            fragments.then(value, test)
        }
    }
}

/// The code of a value under a rule.
fn rule_code<S: Scopes>(
    scopes: &mut S,
    site: &Site,
    rule: Rule,
    v: Coded,
    fragments: &mut Fragments,
) -> Result<Ask<Fragment>, Memory>
    requires suits { SuitsSite (S.state scopes.old).frame site.now }
    requires rule { IsRuleHere (S.state scopes.old).frame rule }
    requires v { IsCoded (S.state scopes.old).frame fragments.old.nodes.items v }
    ensures { (notes : NotesOf) → Coding (S.state scopes.old) (S.state scopes.new) notes notes
        fragments.old.nodes.items fragments.new.nodes.items site.now result IsFragment part
        (λ c. gives (code_of c rule (coded_in fragments.old.nodes.items v))) }
{
    match target_of(rule) {
        Some(to) => fitted_code(scopes, site, to, v, fragments),
        None => {
            let value = analysed!(value_code(scopes, site, v, fragments));
            let of = operand_type(&v.operand);
            let after = asked!(ending_of(scopes, site, rule, of));
            answered(with_ending(value, after, fragments))
        }
    }
}

impl<S: Scopes> Coder<'_, '_, S> {
    /// A rule on an argument, of which a value is wanted.
    pub(crate) fn on_value(&mut self, rule: Rule, at: u32, x: Coded) -> Result<Ask<Coded>, Memory>
        requires suits { SuitsPlace S.state self.old }
        requires rule { IsRuleHere (frame_of S.state self.old) rule }
        requires x { IsCoded (frame_of S.state self.old) (nodes_of self.old) x }
        ensures keeps { Keeps self.old self.new }
        ensures codes { Codes S.state self.old self.new result IsCoded coded_in
            (λ c. spec_on_value c at (coded_in (nodes_of self.old) x) (rule_of c rule at) (code_of c rule)) }
    {
        let v = analysed!(as_value(self.site, at, x, self.notes));
        let argument = Argument {
            at,
            operand: v.operand,
        };
        let given = analysed!(rule_noted(self.scopes, self.site, rule, argument, self.notes));
        let code = analysed!(rule_code(self.scopes, self.site, rule, v, self.fragments));
        Ok(Ask::Known(made(given, code)))
    }
}
