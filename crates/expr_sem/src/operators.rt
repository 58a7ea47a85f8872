//! The code of operators: the operands' values from left to right, and then the instruction.
ghost use Rattle.std.specs.Prelude.{◌≡◌, List};
ghost use Rattle.m2_base.specs.Gives.{gives};
ghost use Rattle.m2_base.specs.States.{Frame, Waits};
ghost use Rattle.m2_base.specs.Standard.{character};
ghost use Rattle.m2_base.specs.Statics.Operands.{operand_type as spec_type};
ghost use Rattle.m2_base.specs.declared.notes.Notes.{Notes as NotesOf};
ghost use Rattle.const_eval.specs.Sites.{IsOperand};
ghost use Rattle.expr_sem.specs.Coders.{Codes, Keeps, SuitsPlace, frame_of, nodes_of};
ghost use Rattle.block_code.specs.Coded.{value_code as spec_value, with_char as spec_char};
ghost use Rattle.expr_sem.specs.Codings.{Coding, IsCoded, IsFragment, coded_in};
ghost use Rattle.expr_sem.specs.Fragments.{IsIn, IsMade, jump_of, part};
ghost use Rattle.block_code.specs.Operators.{made as spec_made, one_coded as spec_one, one_instr};
ghost use Rattle.block_code.specs.Operators.{operation_code as spec_operation, scalar_instr, set_instr};
ghost use Rattle.block_code.specs.Operators.{side_of as spec_side, two_coded as spec_two, two_instr};
ghost use Rattle.block_code.specs.Parts.{plain, skip, ◌⨟◌};
ghost use Rattle.expr_sem.specs.declared.fragments.Node.{Node};
ghost use Rattle.type_rules.specs.Asks.{Reads, WhereKnown, WhereWaiting};
ghost use Rattle.type_rules.specs.Scenes.{IsThere, WhereTold};
ghost use Rattle.type_rules.specs.Sites.{SuitsSite, context_of};

use crate::answers::{answered, answered_as};
use crate::chains::{applied, instr_behind};
use crate::coded::{Coded, Placed};
use crate::coder::Coder;
use crate::fragments::{Connective, Fragment, Fragments};
use crate::values::value_code;
use code_form::Instr;
use const_eval::{Argument, PlacedOperator, applied_one, char_of_string, operated};
use m2_base::{Ask, Memory, Notes, Operand, Operator, Place, RowMeaning, Scopes, Site};
use type_rules::{INTEGER, base_of, operand_type, stand};

/// What a rule on operands has made: its result, as const_eval gave that, with the code that computes it. A constant
/// goes without the code, since it is pushed where it is wanted,
/// and what is neither computed nor constant is in error.
pub fn made(operand: Operand, code: Fragment) -> Coded
    ensures told { (nodes : List Node) → coded_in nodes result ≡ spec_made operand (part nodes code) }
    ensures there { (f : Frame) (nodes : List Node) → IsOperand f operand → IsIn nodes code → IsCoded f nodes result }
{
    match operand {
        Operand::Computed(_) => Coded::new(operand, code),
        Operand::Constant(..) => Coded::bare(operand),
        _ => Coded::in_error(),
    }
}

/// The instruction of an operator whose right operand is a set.
fn set_instruction(op: Operator) -> Instr
    ensures { result ≡ set_instr op }
{
    match op {
        Operator::Plus => Instr::Union,
        Operator::Minus => Instr::Diff,
        Operator::Times => Instr::Inter,
        Operator::Slash => Instr::SymDiff,
        Operator::LessEqual => Instr::Subset,
        Operator::GreaterEqual => Instr::Superset,
        Operator::Equal => Instr::Eq,
        Operator::Unequal => Instr::Ne,
        _ => Instr::In,
    }
}

/// The instruction of an operator on scalars. The side is 0 for INTEGER.
fn scalar_instruction(side: u8, op: Operator) -> Instr
    ensures { result ≡ scalar_instr side op }
{
    match op {
        Operator::Plus => Instr::Add(side),
        Operator::Minus => Instr::Sub(side),
        Operator::Times => Instr::Mul(side),
        Operator::Div => Instr::Div(side),
        Operator::Mod => Instr::Mod(side),
        Operator::Unequal => Instr::Ne,
        Operator::Less => Instr::Lt,
        Operator::LessEqual => Instr::Le,
        Operator::Greater => Instr::Gt,
        Operator::GreaterEqual => Instr::Ge,
        _ => Instr::Eq,
    }
}

/// The side of `Add`, `Sub`, `Mul`, `Div` and `Mod`, which is their operand, for values of a type: 0 where the base of
/// that is INTEGER, 1 for any other, as CARDINAL or CHAR. It waits for the type's row.
#[tactic(auto, using(type_rules::proofs::Reading::reading))]
pub fn side_of<S: Scopes>(scopes: &mut S, site: &Site, of: Place) -> Ask<u8>
    requires suits { SuitsSite (S.state scopes.old).frame site.now }
    requires of { IsThere (S.state scopes.old).frame of }
    ensures reads { Reads (S.state scopes.old) (S.state scopes.new) }
    ensures waits { WhereWaiting result (λ head. Waits (S.state scopes.old) (S.state scopes.new) head) }
    ensures told { WhereTold (S.state scopes.old).frame (λ made.
        WhereKnown result (λ side. let c = context_of (S.state scopes.old).frame made site.now in
        side ≡ spec_side c.scene of)) }
{
    let base = known!(base_of(scopes, site.around, of));
    Ask::Known(if base == INTEGER { 0 } else { 1 })
}

/// The instruction of an operator, by its result's type and its right operand's.
#[tactic(auto, using(type_rules::proofs::Reading::reading))]
fn instruction<S: Scopes>(
    scopes: &mut S,
    site: &Site,
    op: Operator,
    of: Place,
    right: Place,
) -> Ask<Instr>
    requires suits { SuitsSite (S.state scopes.old).frame site.now }
    requires of { IsThere (S.state scopes.old).frame of }
    requires right { IsThere (S.state scopes.old).frame right }
    ensures reads { Reads (S.state scopes.old) (S.state scopes.new) }
    ensures waits { WhereWaiting result (λ head. Waits (S.state scopes.old) (S.state scopes.new) head) }
    ensures told { WhereTold (S.state scopes.old).frame (λ made.
        WhereKnown result (λ instr. let c = context_of (S.state scopes.old).frame made site.now in
        instr ≡ two_instr c.scene op of right)) }
{
    let (_, meaning) = known!(stand(scopes, site.around, right));
    match meaning {
        RowMeaning::Set(_) => Ask::Known(set_instruction(op)),
        _ => {
            let side = known!(side_of(scopes, site, of));
            Ask::Known(scalar_instruction(side, op))
        }
    }
}

/// A value, and then the operator that stands before it; plus has no instruction.
fn signed(fragments: &mut Fragments, op: Operator, value: Fragment) -> Result<Fragment, Memory>
    requires { IsIn fragments.old.nodes.items value }
    ensures { IsMade fragments.old.nodes.items fragments.new.nodes.items result
        (part fragments.old.nodes.items value ⨟ plain (one_instr op)) }
{
    match op {
        Operator::Not => instr_behind(value, Instr::Not, fragments),
        Operator::Minus => instr_behind(value, Instr::Neg, fragments),
        _ => fragments.then(value, Fragment::Nothing),
    }
}

/// Two values, the right one skipped where the left one decides.
fn decide(
    fragments: &mut Fragments,
    connective: Connective,
    x: Fragment,
    y: Fragment,
) -> Result<Fragment, Memory>
    requires x { IsIn fragments.old.nodes.items x }
    requires y { IsIn fragments.old.nodes.items y }
    ensures { IsMade fragments.old.nodes.items fragments.new.nodes.items result
        (part fragments.old.nodes.items x ⨟ skip (jump_of connective) (part fragments.old.nodes.items y)) }
{
    let skipped = fragments.skip(connective, y)?;
    fragments.then(x, skipped)
}

impl<S: Scopes> Coder<'_, '_, S> {
    /// NOT, plus or minus, at the token `op_at`, before an operand: what const_eval's `applied_one` gives, and unless
    /// that is constant the operand's value and then `Not`, nothing, or `Neg`. It waits for the operand's type.
    pub(crate) fn one_coded(
        &mut self,
        op: Operator,
        op_at: u32,
        x: Coded,
    ) -> Result<Ask<Coded>, Memory>
        requires suits { SuitsPlace S.state self.old }
        requires x { IsCoded (frame_of S.state self.old) (nodes_of self.old) x }
        ensures keeps { Keeps self.old self.new }
        ensures codes { Codes S.state self.old self.new result IsCoded coded_in
            (λ c. spec_one c op op_at (coded_in (nodes_of self.old) x)) }
    {
        let operator = PlacedOperator {
            at: op_at,
            operator: op,
        };
        let given = analysed!(applied_one(self.scopes, self.site, operator, x.operand, self.notes));
        let Operand::Computed(_) = given else {
            return Ok(Ask::Known(made(given, Fragment::Nothing)));
        };
        let value = analysed!(value_code(self.scopes, self.site, x, self.fragments));
        answered_as(given, signed(self.fragments, op, value))
    }
}

/// The code of a value, where a string of one character is a CHAR.
#[tactic(auto, using(const_eval::proofs::TypesThere::there))]
fn char_value<S: Scopes>(
    scopes: &mut S,
    site: &Site,
    x: Coded,
    fragments: &mut Fragments,
) -> Result<Ask<Fragment>, Memory>
    requires suits { SuitsSite (S.state scopes.old).frame site.now }
    requires x { IsCoded (S.state scopes.old).frame fragments.old.nodes.items x }
    ensures { (notes : NotesOf) → Coding (S.state scopes.old) (S.state scopes.new) notes notes
        fragments.old.nodes.items fragments.new.nodes.items site.now result IsFragment part
        (λ c. gives (spec_value c (spec_char c (coded_in fragments.old.nodes.items x)))) }
{
    let operand = char_of_string(site, x.operand);
    value_code(scopes, site, x.taken(operand), fragments)
}

impl<S: Scopes> Coder<'_, '_, S> {
    /// The code of an operator between two operands, by its result's type.
    fn operation_code(
        &mut self,
        op: Operator,
        of: Place,
        x: Coded,
        y: Coded,
    ) -> Result<Ask<Fragment>, Memory>
        requires suits { SuitsPlace S.state self.old }
        requires of { IsThere (frame_of S.state self.old) of }
        requires x { IsCoded (frame_of S.state self.old) (nodes_of self.old) x }
        requires y { IsCoded (frame_of S.state self.old) (nodes_of self.old) y }
        ensures keeps { Keeps self.old self.new }
        ensures codes { Codes S.state self.old self.new result IsFragment part
            (λ c. gives (spec_operation c.scene op of (spec_type y.operand) (spec_value c (spec_char c
            (coded_in (nodes_of self.old) x))) (spec_value c (spec_char c (coded_in (nodes_of self.old) y))))) }
    {
        let left = analysed!(char_value(self.scopes, self.site, x, self.fragments));
        let right = analysed!(char_value(self.scopes, self.site, y, self.fragments));
        match op {
            Operator::And => answered(decide(self.fragments, Connective::And, left, right)),
            Operator::Or => answered(decide(self.fragments, Connective::Or, left, right)),
            _ => {
                let instr = asked!(instruction(
                    self.scopes,
                    self.site,
                    op,
                    of,
                    operand_type(&y.operand)
                ));
                answered(applied(self.fragments, left, right, instr))
            }
        }
    }

    /// An operator, at the token `op_at`, between two operands: what const_eval's `operated` gives, and unless that is
    /// constant the left value, the right one, and the instruction. By the report p OR q means "if p then TRUE,
    /// otherwise q": there, and with AND, a jump skips the right value where the left one decides.
    /// It waits for both types.
    pub(crate) fn two_coded(
        &mut self,
        op: Operator,
        op_at: u32,
        x: Placed,
        y: Placed,
    ) -> Result<Ask<Coded>, Memory>
        requires suits { SuitsPlace S.state self.old }
        requires x { IsCoded (frame_of S.state self.old) (nodes_of self.old) x.coded }
        requires y { IsCoded (frame_of S.state self.old) (nodes_of self.old) y.coded }
        ensures keeps { Keeps self.old self.new }
        ensures codes { Codes S.state self.old self.new result IsCoded coded_in (λ c. spec_two c op op_at x.at
            (coded_in (nodes_of self.old) x.coded) y.at (coded_in (nodes_of self.old) y.coded)) }
    {
        let left = Argument {
            at: x.at,
            operand: x.coded.operand,
        };
        let right = Argument {
            at: y.at,
            operand: y.coded.operand,
        };
        let operator = PlacedOperator {
            at: op_at,
            operator: op,
        };
        let sides = (left, right);
        let given = analysed!(operated(self.scopes, self.site, operator, sides, self.notes));
        let Operand::Computed(of) = given else {
            return Ok(Ask::Known(made(given, Fragment::Nothing)));
        };
        let code = analysed!(self.operation_code(op, of, x.coded, y.coded));
        Ok(Ask::Known(made(given, code)))
    }
}
