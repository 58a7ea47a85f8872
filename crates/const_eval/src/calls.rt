//! Calls of standard functions in constants.
ghost use Rattle.std.specs.Prelude.{◌≡◌, List, map};
ghost use Rattle.m2_base.specs.Diagnostics.{code_of};
ghost use Rattle.m2_base.specs.States.{State};
ghost use Rattle.m2_base.specs.Statics.Constants.{call_of as spec_call, value_wanted as spec_value_wanted};
ghost use Rattle.m2_base.specs.Statics.Contexts.{refuse};
ghost use Rattle.m2_base.specs.Statics.Functions.{val_of as spec_val};
ghost use Rattle.m2_base.specs.declared.operands.Operand.TheVariants as operands;
ghost use Rattle.const_eval.specs.Analyses.{Analysed};
ghost use Rattle.const_eval.specs.Calls.{IsSummary, argument, call_kind as spec_kind, call_with as spec_call_with};
ghost use Rattle.const_eval.specs.Calls.{of_type as spec_of_type, of_value as spec_of_value};
ghost use Rattle.const_eval.specs.Sites.{AreArguments, IsOperand};
ghost use Rattle.const_eval.specs.declared.calls.Call.TheVariants as calls;
ghost use Rattle.type_rules.specs.Sites.{SuitsSite};

use crate::arguments::{Arguments, Shape};
use crate::extremes::{Extreme, extreme_of, size_value};
use crate::faults::Fault;
use crate::functions::{abs_of, cap_of, chr_of, odd_of, ord_of, ordinal_type_argument, val_of};
use crate::noting::{note, note_type};
use crate::operands::Argument;
use crate::values::value_wanted;
use m2_base::{Ask, Builtin, Diagnostic, Memory, Notes, Operand, Scopes, Site, standard_procedure};

/// A function of a value.
#[derive(Clone, Copy)]
pub enum ValueFunction {
    Abs,
    Cap,
    Chr,
    Odd,
    Ord,
}

/// A function of a type.
#[derive(Clone, Copy)]
pub enum TypeFunction {
    Min,
    Max,
    Size,
}

/// A call of a standard procedure, by what it takes.
#[derive(Clone, Copy)]
pub enum Call {
    OfValue(ValueFunction, Argument),
    OfType(TypeFunction, Argument),
    /// VAL.
    OfTypeAndValue(Argument, Argument),
    /// What is no function of constants.
    OfNone,
    /// A function with the wrong number of arguments.
    WrongCount,
}

/// A call by what it takes. Other standard procedures, and HIGH, give no constant.
fn call_kind(builtin: Builtin, shape: Shape) -> Call
    ensures { result ≡ spec_kind builtin shape }
{
    match (builtin, shape) {
        (Builtin::Abs, Shape::One(arg)) => Call::OfValue(ValueFunction::Abs, arg),
        (Builtin::Cap, Shape::One(arg)) => Call::OfValue(ValueFunction::Cap, arg),
        (Builtin::Chr, Shape::One(arg)) => Call::OfValue(ValueFunction::Chr, arg),
        (Builtin::Odd, Shape::One(arg)) => Call::OfValue(ValueFunction::Odd, arg),
        (Builtin::Ord, Shape::One(arg)) => Call::OfValue(ValueFunction::Ord, arg),
        (Builtin::Min, Shape::One(arg)) => Call::OfType(TypeFunction::Min, arg),
        (Builtin::Max, Shape::One(arg)) => Call::OfType(TypeFunction::Max, arg),
        (Builtin::Size, Shape::One(arg)) => Call::OfType(TypeFunction::Size, arg),
        (Builtin::Val, Shape::Two(of, arg)) => Call::OfTypeAndValue(of, arg),
        (
            Builtin::Abs
            | Builtin::Cap
            | Builtin::Chr
            | Builtin::Odd
            | Builtin::Ord
            | Builtin::Min
            | Builtin::Max
            | Builtin::Size
            | Builtin::Val,
            _,
        ) => Call::WrongCount,
        _ => Call::OfNone,
    }
}

/// An operand where a value is wanted; what is refused is noted.
pub(crate) fn value_noted(
    site: &Site,
    at: u32,
    operand: Operand,
    notes: &mut Notes,
) -> Result<Ask<Operand>, Memory>
    ensures { (now : State) → IsOperand now.frame operand
        → Analysed now now notes.old notes.new site.now result IsOperand (λ c. spec_value_wanted c at operand) }
{
    note(
        site.around.text,
        Ask::Known(value_wanted(at, operand)),
        notes,
    )
}

/// What ABS, CAP, CHR, ODD or ORD gives of the value `x`, as `abs_of` or one beside it judges. A fault is noted in the
/// site's text, and then the operand is in error. It waits for the value's type.
pub fn of_value_noted<S: Scopes>(
    scopes: &mut S,
    site: &Site,
    function: ValueFunction,
    x: Argument,
    notes: &mut Notes,
) -> Result<Ask<Operand>, Memory>
    requires suits { SuitsSite (S.state scopes.old).frame site.now }
    requires x { IsOperand (S.state scopes.old).frame x.operand }
    ensures { Analysed (S.state scopes.old) (S.state scopes.new) notes.old notes.new site.now result IsOperand
        (λ c. spec_of_value c function x.at x.operand) }
{
    let given = match function {
        ValueFunction::Abs => abs_of(scopes, site, x.at, x.operand),
        ValueFunction::Cap => cap_of(scopes, site, x.at, x.operand),
        ValueFunction::Chr => chr_of(scopes, site, x.at, x.operand),
        ValueFunction::Odd => odd_of(scopes, site, x.at, x.operand),
        ValueFunction::Ord => ord_of(scopes, site, x.at, x.operand),
    };
    note(site.around.text, given, notes)
}

/// What MIN, MAX or SIZE gives of the argument `x`, as `extreme_of` or `size_value` judges it. A fault is noted in
/// the site's text, and then the operand is in error. It waits for the argument's type.
pub fn of_type_noted<S: Scopes>(
    scopes: &mut S,
    site: &Site,
    function: TypeFunction,
    x: Argument,
    notes: &mut Notes,
) -> Result<Ask<Operand>, Memory>
    requires suits { SuitsSite (S.state scopes.old).frame site.now }
    requires x { IsOperand (S.state scopes.old).frame x.operand }
    ensures { Analysed (S.state scopes.old) (S.state scopes.new) notes.old notes.new site.now result IsOperand
        (λ c. spec_of_type c function x.at x.operand) }
{
    let given = match function {
        TypeFunction::Min => extreme_of(scopes, site, x.at, Extreme::Least, x.operand),
        TypeFunction::Max => extreme_of(scopes, site, x.at, Extreme::Greatest, x.operand),
        TypeFunction::Size => size_value(scopes, site, x.at, x.operand),
    };
    note(site.around.text, given, notes)
}

/// VAL(T, x): `of` is what is written for T, which must be an ordinal type, and `x` has passed
/// `value_wanted`. A fault of T, and then one that `val_of` finds, is noted. It waits for both types.
pub fn val_of_operand<S: Scopes>(
    scopes: &mut S,
    site: &Site,
    of: Argument,
    x: Argument,
    notes: &mut Notes,
) -> Result<Ask<Operand>, Memory>
    requires suits { SuitsSite (S.state scopes.old).frame site.now }
    requires of { IsOperand (S.state scopes.old).frame of.operand }
    requires x { IsOperand (S.state scopes.old).frame x.operand }
    ensures { Analysed (S.state scopes.old) (S.state scopes.new) notes.old notes.new site.now result IsOperand
        (λ c. spec_val c of.at of.operand x.at x.operand) }
{
    let asked = ordinal_type_argument(scopes, site, of.at, of.operand);
    let place = analysed!(note_type(site.around.text, asked, notes));
    let given = val_of(scopes, site, x.at, place, x.operand);
    note(site.around.text, given, notes)
}

/// A fault at a token is noted, and the operand is in error.
pub(crate) fn fault_noted(
    site: &Site,
    at: u32,
    kind: Diagnostic,
    notes: &mut Notes,
) -> Result<Ask<Operand>, Memory>
    ensures { (now : State) → Analysed now now notes.old notes.new site.now result IsOperand
        (λ c. refuse c at (code_of kind) operands.InError) }
{
    note(site.around.text, Ask::Known(Err(Fault { at, kind })), notes)
}

/// A call by its operand and its arguments; of anything but a standard function it is no constant.
pub(crate) fn call_with<S: Scopes>(
    scopes: &mut S,
    site: &Site,
    to: Argument,
    args: Arguments,
    notes: &mut Notes,
) -> Result<Ask<Operand>, Memory>
    requires suits { SuitsSite (S.state scopes.old).frame site.now }
    requires args { AreArguments (S.state scopes.old).frame args }
    ensures { Analysed (S.state scopes.old) (S.state scopes.new) notes.old notes.new site.now result IsOperand
        (λ c. spec_call_with c to.at to.operand args) }
{
    match to.operand {
        Operand::StandardProcedure(name) => match call_kind(standard_procedure(name), args.shape) {
            Call::OfValue(function, arg) => {
                let operand = analysed!(value_noted(site, arg.at, arg.operand, notes));
                let x = Argument {
                    at: arg.at,
                    operand,
                };
                of_value_noted(scopes, site, function, x, notes)
            }
            Call::OfType(function, arg) => of_type_noted(scopes, site, function, arg, notes),
            Call::OfTypeAndValue(of, arg) => {
                let operand = analysed!(value_noted(site, arg.at, arg.operand, notes));
                let x = Argument {
                    at: arg.at,
                    operand,
                };
                val_of_operand(scopes, site, of, x, notes)
            }
            Call::OfNone => Ok(Ask::Known(args.no_constant())),
            Call::WrongCount => fault_noted(site, to.at, Diagnostic::WrongCount, notes),
        },
        Operand::ModuleName(_) => fault_noted(site, to.at, Diagnostic::NotAVariable, notes),
        Operand::InError => Ok(Ask::Known(Operand::InError)),
        _ => Ok(Ask::Known(args.no_constant())),
    }
}

/// A call, in a constant, of the operand `to`: what a standard function gives of `args`, a fault noted; any other is
/// no constant, or in error where an argument is. It waits for the arguments' types.
pub fn call_of<S: Scopes>(
    scopes: &mut S,
    site: &Site,
    to: Argument,
    args: Arguments,
    notes: &mut Notes,
) -> Result<Ask<Operand>, Memory>
    requires suits { SuitsSite (S.state scopes.old).frame site.now }
    requires args { AreArguments (S.state scopes.old).frame args }
    ensures { (list : List Argument) → IsSummary args list → Analysed (S.state scopes.old) (S.state scopes.new)
        notes.old notes.new site.now result IsOperand (λ c. spec_call c to.at to.operand (map argument list)) }
{
    call_with(scopes, site, to, args, notes)
}
