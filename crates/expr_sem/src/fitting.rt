//! When a value is checked against the range of a type.
ghost use Rattle.std.specs.Prelude.{◌≡◌, option_map};
ghost use Rattle.m2_base.specs.Gives.{gives};
ghost use Rattle.m2_base.specs.Statics.Ranges.{range};
ghost use Rattle.m2_base.specs.declared.notes.Notes.{Notes};
ghost use Rattle.const_eval.specs.Sites.{IsOperand};
ghost use Rattle.expr_sem.specs.Codings.{Coding, IsCoded, IsFragment, coded_in};
ghost use Rattle.block_code.specs.Fitting.{check_of as spec_check_of, fit_check as spec_fit_check};
ghost use Rattle.block_code.specs.Fitting.{fit_of as spec_fit_of, fitted_code as spec_fitted};
ghost use Rattle.expr_sem.specs.Fragments.{part};
ghost use Rattle.expr_sem.specs.RangeChecks.{instrs_if};
ghost use Rattle.type_rules.specs.Scenes.{IsThere};
ghost use Rattle.type_rules.specs.Sites.{SuitsSite};

use crate::answers::answered;
use crate::coded::Coded;
use crate::fragments::{Fragment, Fragments};
use crate::values::value_code;
use code_form::Instr;
use m2_base::{Ask, Memory, Operand, Place, Scopes, Site};
use type_rules::range_of;

/// The check against the second range of a value of the first, where that isn't within it.
pub(crate) fn range_check(from: Option<(i64, i64)>, to: Option<(i64, i64)>) -> Option<Instr>
    ensures { instrs_if result
        ≡ spec_check_of (option_map (λ ends. range ends.0 ends.1) from) (option_map (λ ends. range ends.0 ends.1) to) }
{
    let (low, high) = to?;
    match from {
        Some((least, greatest)) if low <= least && greatest <= high => None,
        _ => Some(Instr::Check(low, high)),
    }
}

/// The check behind a value of one type that is to be of another.
fn fit_check<S: Scopes>(
    scopes: &mut S,
    site: &Site,
    from: Place,
    to: Place,
    fragments: &mut Fragments,
) -> Result<Ask<Fragment>, Memory>
    requires suits { SuitsSite (S.state scopes.old).frame site.now }
    requires from { IsThere (S.state scopes.old).frame from }
    requires to { IsThere (S.state scopes.old).frame to }
    ensures { (notes : Notes) → Coding (S.state scopes.old) (S.state scopes.new) notes notes fragments.old.nodes.items
        fragments.new.nodes.items site.now result IsFragment part (λ c. gives (spec_fit_check c.scene from to)) }
{
    let values = asked!(range_of(scopes, site.around, from));
    let wanted = asked!(range_of(scopes, site.around, to));
    match range_check(values, wanted) {
        Some(check) => answered(fragments.one(check)),
        None => Ok(Ask::Known(Fragment::Nothing)),
    }
}

/// The check behind an operand that is to be of a type. A constant was looked at already,
/// and a procedure has no range.
pub fn fit_of<S: Scopes>(
    scopes: &mut S,
    site: &Site,
    to: Place,
    operand: Operand,
    fragments: &mut Fragments,
) -> Result<Ask<Fragment>, Memory>
    requires suits { SuitsSite (S.state scopes.old).frame site.now }
    requires to { IsThere (S.state scopes.old).frame to }
    requires operand { IsOperand (S.state scopes.old).frame operand }
    ensures { (notes : Notes) → Coding (S.state scopes.old) (S.state scopes.new) notes notes fragments.old.nodes.items
        fragments.new.nodes.items site.now result IsFragment part (λ c. gives (spec_fit_of c.scene to operand)) }
{
    match operand {
        Operand::Variable(of) => fit_check(scopes, site, of, to, fragments),
        Operand::Computed(of) => fit_check(scopes, site, of, to, fragments),
        _ => Ok(Ask::Known(Fragment::Nothing)),
    }
}

/// The code that leaves a value which is to be of the type `to`, and behind it a `Check` of that type's range, unless
/// all values of its own type are in that; a constant, looked at before, has none. It waits for both types.
pub fn fitted_code<S: Scopes>(
    scopes: &mut S,
    site: &Site,
    to: Place,
    x: Coded,
    fragments: &mut Fragments,
) -> Result<Ask<Fragment>, Memory>
    requires suits { SuitsSite (S.state scopes.old).frame site.now }
    requires to { IsThere (S.state scopes.old).frame to }
    requires x { IsCoded (S.state scopes.old).frame fragments.old.nodes.items x }
    ensures { (notes : Notes) → Coding (S.state scopes.old) (S.state scopes.new) notes notes
        fragments.old.nodes.items fragments.new.nodes.items site.now result IsFragment part
        (λ c. gives (spec_fitted c to (coded_in fragments.old.nodes.items x))) }
{
    let value = analysed!(value_code(scopes, site, x, fragments));
    let fit = analysed!(fit_of(scopes, site, to, x.operand, fragments));
    answered(fragments.then(value, fit))
}
