//! The values that a label stands for.
ghost use Rattle.std.specs.Option.{IfSome};
ghost use Rattle.std.specs.Prelude.{◌≡◌};
ghost use Rattle.m2_base.specs.Gives.{and_then, gives};
ghost use Rattle.m2_base.specs.States.{Waits};
ghost use Rattle.m2_base.specs.Statics.ReadTrees.{IsReadLabel};
ghost use Rattle.m2_base.specs.Views.{label_view};
ghost use Rattle.const_eval.specs.Analyses.{Analysed};
ghost use Rattle.const_eval.specs.Sites.{IsOperand};
ghost use Rattle.case_labels.specs.Labels.{IsAny, ends_in as spec_ends, values_beside as spec_beside};
ghost use Rattle.case_labels.specs.Labels.{values_by as spec_by, values_in as spec_values};
ghost use Rattle.type_rules.specs.Asks.{Reads, WhereKnown, WhereWaiting};
ghost use Rattle.type_rules.specs.Scenes.{IsThere, WhereTold};
ghost use Rattle.type_rules.specs.Sites.{SuitsSite, context_of};

use const_eval::{compatible_pair, constant, is_broken};
use m2_base::{Ask, Label, Memory, Notes, Operand, Place, Scopes, Site};

/// The constants of a label: both ends of a range, or one value twice.
type Ends = (Option<Operand>, Option<Operand>);

/// What a label stands for.
#[derive(Clone, Copy)]
pub(crate) enum LabelValues {
    /// Nothing that counts, since a part or the type is in error.
    Nothing,
    /// The values from the first to the second.
    Values(i64, i64),
    /// It doesn't go with the type.
    Wrong,
}

/// The constants of a label.
fn ends_in<S: Scopes>(
    scopes: &mut S,
    site: &Site,
    label: &Label,
    notes: &mut Notes,
) -> Result<Ask<Ends>, Memory>
    requires suits { SuitsSite (S.state scopes.old).frame site.now }
    requires read { IsReadLabel site.now.texts.now.names (label_view label.now) }
    ensures { Analysed (S.state scopes.old) (S.state scopes.new) notes.old notes.new site.now result
        (λ f ends. IfSome ends.0 (λ x. IsOperand f x) × IfSome ends.1 (λ y. IsOperand f y))
        (λ c. spec_ends c (label_view label.now)) }
{
    let low = analysed!(constant(scopes, site, &label.low, notes));
    match &label.high {
        Some(high) => {
            let end = analysed!(constant(scopes, site, high, notes));
            Ok(Ask::Known((low, end)))
        }
        None => Ok(Ask::Known((low, low))),
    }
}

/// The values of a label, by its ends as they are taken beside the tag, where they are compatible with it.
fn values_by(low: Option<(Operand, Operand)>, high: Option<(Operand, Operand)>) -> LabelValues
    ensures { result ≡ spec_by low high }
{
    let (Some(low), Some(high)) = (low, high) else {
        return LabelValues::Wrong;
    };
    match (low.0, high.0) {
        (Operand::Constant(_, low), Operand::Constant(_, high)) => LabelValues::Values(low, high),
        _ => LabelValues::Nothing,
    }
}

/// The values of a label with constant ends beside a tag whose type isn't in error.
#[tactic(auto, using(type_rules::proofs::Reading::reading, const_eval::proofs::TypesThere::there))]
fn values_beside<S: Scopes>(
    scopes: &mut S,
    site: &Site,
    of: Place,
    x: Operand,
    y: Operand,
) -> Ask<LabelValues>
    requires suits { SuitsSite (S.state scopes.old).frame site.now }
    requires of { IsThere (S.state scopes.old).frame of }
    requires x { IsOperand (S.state scopes.old).frame x }
    requires y { IsOperand (S.state scopes.old).frame y }
    ensures reads { Reads (S.state scopes.old) (S.state scopes.new) }
    ensures waits { WhereWaiting result (λ head. Waits (S.state scopes.old) (S.state scopes.new) head) }
    ensures told { WhereTold (S.state scopes.old).frame (λ made.
        WhereKnown result
        (λ values. values ≡ spec_beside (context_of (S.state scopes.old).frame made site.now) of x y)) }
{
    let low = known!(compatible_pair(scopes, site, x, Operand::Computed(of)));
    let high = known!(compatible_pair(scopes, site, y, Operand::Computed(of)));
    Ask::Known(values_by(low, high))
}

/// The values of a label beside a tag of this type.
#[tactic(auto, using(type_rules::proofs::Reading::reading, const_eval::proofs::TypesThere::there))]
fn values_in<S: Scopes>(scopes: &mut S, site: &Site, of: Place, ends: Ends) -> Ask<LabelValues>
    requires suits { SuitsSite (S.state scopes.old).frame site.now }
    requires of { IsThere (S.state scopes.old).frame of }
    requires low { IfSome ends.0 (λ x. IsOperand (S.state scopes.old).frame x) }
    requires high { IfSome ends.1 (λ y. IsOperand (S.state scopes.old).frame y) }
    ensures reads { Reads (S.state scopes.old) (S.state scopes.new) }
    ensures waits { WhereWaiting result (λ head. Waits (S.state scopes.old) (S.state scopes.new) head) }
    ensures told { WhereTold (S.state scopes.old).frame (λ made.
        WhereKnown result
        (λ values. values ≡ spec_values (context_of (S.state scopes.old).frame made site.now) of ends)) }
{
    let Some(low) = ends.0 else {
        return Ask::Known(LabelValues::Nothing);
    };
    let Some(high) = ends.1 else {
        return Ask::Known(LabelValues::Nothing);
    };
    if known!(is_broken(scopes, site.around, of)) {
        return Ask::Known(LabelValues::Nothing);
    }
    values_beside(scopes, site, of, low, high)
}

/// The values of a label beside the type.
pub(crate) fn label_values<S: Scopes>(
    scopes: &mut S,
    site: &Site,
    of: Place,
    label: &Label,
    notes: &mut Notes,
) -> Result<Ask<LabelValues>, Memory>
    requires suits { SuitsSite (S.state scopes.old).frame site.now }
    requires of { IsThere (S.state scopes.old).frame of }
    requires read { IsReadLabel site.now.texts.now.names (label_view label.now) }
    ensures { Analysed (S.state scopes.old) (S.state scopes.new) notes.old notes.new site.now result IsAny
        (λ c. and_then (spec_ends c (label_view label.now)) (λ ends. gives (spec_values c of ends))) }
{
    let ends = analysed!(ends_in(scopes, site, label, notes));
    let values = asked!(values_in(scopes, site, of, ends));
    Ok(Ask::Known(values))
}
