//! MIN, MAX and SIZE: the standard functions of types.
ghost use Rattle.std.specs.Prelude.{◌≡◌, ◌<◌, IfOk, if◌then◌else◌};
ghost use Rattle.m2_base.specs.Gives.{and_then, gives};
ghost use Rattle.m2_base.specs.States.{Waits};
ghost use Rattle.m2_base.specs.Statics.Functions.{end_value as spec_end};
ghost use Rattle.m2_base.specs.Statics.Functions.{ordinal_type_argument as spec_ordinal_type_argument};
ghost use Rattle.m2_base.specs.Statics.Functions.{size_value as spec_size};
ghost use Rattle.m2_base.specs.Statics.Types.{range_of as spec_range};
ghost use Rattle.const_eval.specs.Judgements.{judged};
ghost use Rattle.const_eval.specs.Sites.{IsOperand};
ghost use Rattle.const_eval.specs.Extremes.{end_in};
ghost use Rattle.type_rules.specs.Asks.{Reads, WhereKnown, WhereWaiting};
ghost use Rattle.type_rules.specs.Scenes.{WhereTold};
ghost use Rattle.type_rules.specs.Sites.{SuitsSite, context_of};

use crate::faults::Fault;
use crate::functions::ordinal_type_argument;
use m2_base::{Ask, Diagnostic, Operand, Scopes, Site};
use type_rules::{CARDINAL, is_open_array, range_of, size_of};

/// An end of a range.
#[derive(Clone, Copy)]
pub enum Extreme {
    Least,
    Greatest,
}

/// Judges MIN(T), "the minimum value of type T", or MAX(T), the maximum: a constant of T. `x` stands for T, and `at`
/// is its first token, where a fault is if it is no ordinal type (`ordinal_type_argument`). It waits for T's row.
#[tactic(auto, using(type_rules::proofs::Reading::reading, crate::proofs::TypesThere::there))]
pub fn extreme_of<S: Scopes>(
    scopes: &mut S,
    site: &Site,
    at: u32,
    extreme: Extreme,
    x: Operand,
) -> Ask<Result<Operand, Fault>>
    requires suits { SuitsSite (S.state scopes.old).frame site.now }
    requires x { IsOperand (S.state scopes.old).frame x }
    ensures reads { Reads (S.state scopes.old) (S.state scopes.new) }
    ensures waits { WhereWaiting result (λ head. Waits (S.state scopes.old) (S.state scopes.new) head) }
    ensures told { WhereTold (S.state scopes.old).frame (λ made.
        WhereKnown result (λ given. let c = context_of (S.state scopes.old).frame made site.now in
        judged c given ≡ and_then (spec_ordinal_type_argument c at x)
        (λ of. gives (spec_end c of (end_in extreme) (spec_range c.scene of))))) }
    ensures there { WhereKnown result (λ given. IfOk given (λ operand. IsOperand (S.state scopes.old).frame operand)) }
{
    let of = match known!(ordinal_type_argument(scopes, site, at, x)) {
        Ok(of) => of,
        Err(fault) => return Ask::Known(Err(fault)),
    };
    match known!(range_of(scopes, site.around, of)) {
        Some((low, high)) => match extreme {
            Extreme::Least => Ask::Known(Ok(Operand::Constant(of, low))),
            Extreme::Greatest => Ask::Known(Ok(Operand::Constant(of, high))),
        },
        None => Ask::Known(Ok(Operand::InError)),
    }
}

/// Judges SIZE of `x`, whose first token is `at`: the number of its cells, a CARDINAL, which is constant for a type
/// but not for a variable. An open array, and what is neither type nor variable, is a fault.
/// It waits for the type's row.
#[tactic(auto, using(type_rules::proofs::Reading::reading, crate::proofs::TypesThere::there))]
pub fn size_value<S: Scopes>(
    scopes: &mut S,
    site: &Site,
    at: u32,
    x: Operand,
) -> Ask<Result<Operand, Fault>>
    requires suits { SuitsSite (S.state scopes.old).frame site.now }
    requires x { IsOperand (S.state scopes.old).frame x }
    ensures reads { Reads (S.state scopes.old) (S.state scopes.new) }
    ensures waits { WhereWaiting result (λ head. Waits (S.state scopes.old) (S.state scopes.new) head) }
    ensures told { WhereTold (S.state scopes.old).frame (λ made.
        WhereKnown result (λ given. let c = context_of (S.state scopes.old).frame made site.now in
        judged c given ≡ spec_size c at x)) }
    ensures there { WhereKnown result (λ given. IfOk given (λ operand. IsOperand (S.state scopes.old).frame operand)) }
{
    match x {
        Operand::NamedType(of) => {
            let size = known!(size_of(scopes, site.around, of));
            Ask::Known(Ok(Operand::Constant(CARDINAL, size as i64)))
        }
        Operand::Variable(of) => {
            if known!(is_open_array(scopes, site.around, of)) {
                Ask::Known(fault!(at, WrongArgument))
            } else {
                Ask::Known(Ok(Operand::Computed(CARDINAL)))
            }
        }
        Operand::InError | Operand::NotConstant => Ask::Known(Ok(x)),
        _ => Ask::Known(fault!(at, NotAVariable)),
    }
}
