//! The code of the standard functions. What a function gives is the static rule's;
//! where that is constant there is no code.
ghost use Rattle.std.specs.Prelude.{◌≡◌, ◌<◌, ◌^◌, List, option_map};
ghost use Rattle.std.specs.Option.{IfSome};
ghost use Rattle.m2_base.specs.Gives.{and_then, gives};
ghost use Rattle.m2_base.specs.Rows.{IsValue};
ghost use Rattle.m2_base.specs.Standard.{cardinal};
ghost use Rattle.m2_base.specs.Statics.Ranges.{range};
ghost use Rattle.m2_base.specs.declared.notes.Notes.{Notes as NotesOf};
ghost use Rattle.m2_base.specs.declared.operands.Operand.TheVariants as operands;
ghost use Rattle.const_eval.specs.Calls.{of_type};
ghost use Rattle.const_eval.specs.Sites.{IsOperand};
ghost use Rattle.const_eval.specs.declared.calls.TypeFunction.TheVariants as functions;
ghost use Rattle.expr_sem.specs.Coders.{Codes, Keeps, SuitsPlace, frame_of, nodes_of};
ghost use Rattle.block_code.specs.Coded.{bare, coded};
ghost use Rattle.expr_sem.specs.Codings.{Coding, IsCoded, IsFragment, coded_in};
ghost use Rattle.expr_sem.specs.Fragments.{part};
ghost use Rattle.expr_sem.specs.Kinds.{IsKindHere};
ghost use Rattle.block_code.specs.Operators.{made as spec_made};
ghost use Rattle.block_code.specs.StandardFunctions.{as_variable as spec_variable, function_of_one as spec_one};
ghost use Rattle.block_code.specs.StandardFunctions.{high_code as spec_high};
ghost use Rattle.block_code.specs.StandardFunctions.{high_of_range as spec_range};
ghost use Rattle.block_code.specs.StandardFunctions.{high_of_variable as spec_high_variable};
ghost use Rattle.block_code.specs.StandardFunctions.{size_code as spec_size};
ghost use Rattle.expr_sem.specs.declared.fragments.Node.{Node};
ghost use Rattle.type_rules.specs.Sites.{SuitsSite};

use crate::answers::answered;
use crate::coded::{Coded, Placed};
use crate::coder::Coder;
use crate::elements::high_or_none;
use crate::fragments::{Fragment, Fragments};
use crate::operators::made;
use crate::refusals::refused;
use crate::value_functions::Rule;
use crate::variable_arguments::as_variable;
use code_form::Instr;
use const_eval::{Argument, TypeFunction, ValueFunction, is_bad, is_broken, of_type_noted};
use m2_base::{Ask, Builtin, Diagnostic, Memory, Notes, Operand, Place, RowMeaning, Scopes, Site};
use type_rules::{CARDINAL, operand_type, range_of, size_of, stand};

/// How far a range reaches above its low end.
fn high_of_range(ends: Option<(i64, i64)>) -> i64
    requires { IfSome ends (λ ends. IsValue ends.0 × IsValue ends.1) }
    ensures { result ≡ spec_range (option_map (λ ends. range ends.0 ends.1) ends) }
{
    match ends {
        Some((low, high)) => high - low,
        None => 0,
    }
}

/// The number of elements less 1 of an array variable, by the meaning of its type.
pub fn high_code<S: Scopes>(
    scopes: &mut S,
    site: &Site,
    x: Coded,
    kind: RowMeaning,
    fragments: &mut Fragments,
) -> Result<Ask<Fragment>, Memory>
    requires suits { SuitsSite (S.state scopes.old).frame site.now }
    requires x { IsCoded (S.state scopes.old).frame fragments.old.nodes.items x }
    requires kind { IsKindHere (S.state scopes.old).frame kind }
    ensures { (notes : NotesOf) → Coding (S.state scopes.old) (S.state scopes.new) notes notes
        fragments.old.nodes.items fragments.new.nodes.items site.now result IsFragment part
        (λ c. gives (spec_high c.scene (coded_in fragments.old.nodes.items x) kind)) }
{
    match kind {
        RowMeaning::Array(index, _, _) => {
            let ends = asked!(range_of(scopes, site.around, index));
            answered(fragments.one(Instr::Push(high_of_range(ends))))
        }
        _ => answered(high_or_none(x.high, fragments)),
    }
}

/// HIGH of a variable of this kind, as a CARDINAL.
fn high_computed<S: Scopes>(
    scopes: &mut S,
    site: &Site,
    x: Coded,
    kind: RowMeaning,
    fragments: &mut Fragments,
) -> Result<Ask<Coded>, Memory>
    requires suits { SuitsSite (S.state scopes.old).frame site.now }
    requires x { IsCoded (S.state scopes.old).frame fragments.old.nodes.items x }
    requires kind { IsKindHere (S.state scopes.old).frame kind }
    ensures { (notes : NotesOf) → Coding (S.state scopes.old) (S.state scopes.new) notes notes
        fragments.old.nodes.items fragments.new.nodes.items site.now result IsCoded coded_in (λ c.
        gives (coded (operands.Computed cardinal) (spec_high c.scene (coded_in fragments.old.nodes.items x) kind))) }
{
    let code = analysed!(high_code(scopes, site, x, kind, fragments));
    Ok(Ask::Known(Coded::new(Operand::Computed(CARDINAL), code)))
}

/// The ordinal of a place has 32 bits.
pub fn has_small_ordinal(place: Place)
    ensures { place.ordinal < 2 ^ 32 }
{}

/// HIGH of a variable, by the meaning of its type.
fn high_coded<S: Scopes>(
    scopes: &mut S,
    site: &Site,
    x: Placed,
    fragments: &mut Fragments,
    notes: &mut Notes,
) -> Result<Ask<Coded>, Memory>
    requires suits { SuitsSite (S.state scopes.old).frame site.now }
    requires x { IsCoded (S.state scopes.old).frame fragments.old.nodes.items x.coded }
    ensures { Coding (S.state scopes.old) (S.state scopes.new) notes.old notes.new fragments.old.nodes.items
        fragments.new.nodes.items site.now result IsCoded coded_in (λ c. and_then
        (spec_variable c x.at (coded_in fragments.old.nodes.items x.coded)) (spec_high_variable c x.at)) }
{
    let v = analysed!(as_variable(site, x.at, x.coded, notes));
    if is_bad(v.operand) {
        return Ok(Ask::Known(Coded::in_error()));
    }
    let (place, kind) = asked!(stand(scopes, site.around, operand_type(&v.operand)));
    has_small_ordinal(place);
    match kind {
        RowMeaning::Array(index, _, _) => {
            if asked!(is_broken(scopes, site.around, index)) {
                return Ok(Ask::Known(Coded::in_error()));
            }
            high_computed(scopes, site, v, kind, fragments)
        }
        RowMeaning::OpenArray(_) => high_computed(scopes, site, v, kind, fragments),
        _ => refused(site, x.at, Diagnostic::WrongArgument, notes),
    }
}

/// SIZE.
fn size_coded<S: Scopes>(
    scopes: &mut S,
    site: &Site,
    x: Placed,
    fragments: &mut Fragments,
    notes: &mut Notes,
) -> Result<Ask<Coded>, Memory>
    requires suits { SuitsSite (S.state scopes.old).frame site.now }
    requires x { IsCoded (S.state scopes.old).frame fragments.old.nodes.items x.coded }
    ensures { Coding (S.state scopes.old) (S.state scopes.new) notes.old notes.new fragments.old.nodes.items
        fragments.new.nodes.items site.now result IsCoded coded_in
        (λ c. and_then (of_type c functions.Size x.at x.coded.operand)
        (λ r. gives (spec_made r (spec_size c (coded_in fragments.old.nodes.items x.coded))))) }
{
    let argument = Argument {
        at: x.at,
        operand: x.coded.operand,
    };
    let given = analysed!(of_type_noted(scopes, site, TypeFunction::Size, argument, notes));
    let size = asked!(size_of(scopes, site.around, operand_type(&x.coded.operand)));
    let code = fragments.one(Instr::Push(size as i64))?;
    Ok(Ask::Known(made(given, code)))
}

impl<S: Scopes> Coder<'_, '_, S> {
    /// What MIN or MAX gives of a type, which needs no code.
    fn of_type_coded(
        &mut self,
        function: TypeFunction,
        at: u32,
        x: Coded,
    ) -> Result<Ask<Coded>, Memory>
        requires suits { SuitsPlace S.state self.old }
        requires x { IsCoded (frame_of S.state self.old) (nodes_of self.old) x }
        ensures keeps { Keeps self.old self.new }
        ensures codes { Codes S.state self.old self.new result IsCoded coded_in
            (λ c. and_then (of_type c function at x.operand) (λ r. gives (bare r))) }
    {
        let argument = Argument {
            at,
            operand: x.operand,
        };
        let given = analysed!(of_type_noted(
            self.scopes,
            self.site,
            function,
            argument,
            self.notes
        ));
        Ok(Ask::Known(Coded::bare(given)))
    }

    /// A function of one argument; of other standard procedures nobody asks.
    pub(crate) fn function_of_one(
        &mut self,
        f: Builtin,
        at: u32,
        x: Coded,
    ) -> Result<Ask<Coded>, Memory>
        requires suits { SuitsPlace S.state self.old }
        requires x { IsCoded (frame_of S.state self.old) (nodes_of self.old) x }
        ensures keeps { Keeps self.old self.new }
        ensures codes { Codes S.state self.old self.new result IsCoded coded_in
            (λ c. spec_one c f at (coded_in (nodes_of self.old) x)) }
    {
        match f {
            Builtin::Abs => self.on_value(Rule::Function(ValueFunction::Abs), at, x),
            Builtin::Cap => self.on_value(Rule::Function(ValueFunction::Cap), at, x),
            Builtin::Chr => self.on_value(Rule::Function(ValueFunction::Chr), at, x),
            Builtin::Odd => self.on_value(Rule::Function(ValueFunction::Odd), at, x),
            Builtin::Ord => self.on_value(Rule::Function(ValueFunction::Ord), at, x),
            Builtin::Min => self.of_type_coded(TypeFunction::Min, at, x),
            Builtin::Max => self.of_type_coded(TypeFunction::Max, at, x),
            Builtin::Size => size_coded(
                self.scopes,
                self.site,
                Placed { at, coded: x },
                self.fragments,
                self.notes,
            ),
            Builtin::High => high_coded(
                self.scopes,
                self.site,
                Placed { at, coded: x },
                self.fragments,
                self.notes,
            ),
            _ => Ok(Ask::Known(Coded::in_error())),
        }
    }
}
