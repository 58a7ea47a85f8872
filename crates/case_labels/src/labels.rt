//! The labels of an arm.
ghost use Rattle.std.specs.Prelude.{◌≡◌, List, int_le, map, true, IfOk};
ghost use Rattle.m2_base.specs.States.{State};
ghost use Rattle.m2_base.specs.Gives.{and_then, gives};
ghost use Rattle.m2_base.specs.Statics.CaseLabels.{case_labels as spec_labels, cover as spec_cover};
ghost use Rattle.m2_base.specs.Statics.CaseLabels.{joined as spec_joined, labels_of};
ghost use Rattle.m2_base.specs.Statics.Ranges.{Range, range};
ghost use Rattle.m2_base.specs.Statics.ReadTrees.{AreReadLabels};
ghost use Rattle.m2_base.specs.Trees.{labels as plain_labels};
ghost use Rattle.m2_base.specs.Views.{label_view};
ghost use Rattle.const_eval.specs.Analyses.{Analysed};
ghost use Rattle.case_labels.specs.Labels.{covered_by, is_ranged, label_at, one_seen};
ghost use Rattle.case_labels.specs.Seen.{AreAny, answer_as, known_as, labels_seen, test_seen};
ghost use Rattle.type_rules.specs.Scenes.{IsThere};
ghost use Rattle.type_rules.specs.Sites.{SuitsSite};

use crate::covered::{Coverage, Covered};
use crate::noting::{refuse, refuse_if};
use crate::tests::{LabelTest, test_of, test_unless};
use crate::values::{LabelValues, label_values};
use m2_base::{Ask, Label, Memory, Notes, Scopes, Site};

/// The labels of one arm: whether all are right, the tests of those that are,
/// and the values that are covered with them.
#[derive(Drop)]
pub struct CaseLabels {
    pub good: bool,
    pub tests: Vec<LabelTest>,
    pub covered: Covered,
}

/// One label: its test, if it is right, and the values that are covered with it.
#[derive(Drop)]
struct OneLabel {
    test: Option<LabelTest>,
    covered: Covered,
}

/// A label that goes with the type: its first token, its test,
/// and the least and the greatest value that it stands for.
#[derive(Clone, Copy)]
struct FittingLabel {
    at: u32,
    test: LabelTest,
    low: i64,
    high: i64,
}

/// Covers the values of a label, of which there are some. Where one is covered already, they are refused.
fn cover_some(
    site: &Site,
    label: FittingLabel,
    covered: Covered,
    notes: &mut Notes,
) -> Result<OneLabel, Memory>
    requires { int_le label.low label.high ≡ true }
    ensures { (a : State) → Analysed a a notes.old notes.new site.now (known_as one_seen result) AreAny
        (λ c. spec_cover c label.at (test_seen label.test) (range label.low label.high) covered) }
{
    let twice = covered.overlaps(label.low, label.high);
    let more = put!(covered.with(label.low, label.high));
    put!(refuse_if(site, label.at, twice, notes));
    Ok(OneLabel {
        test: test_unless(twice, label.test),
        covered: more,
    })
}

/// Whether there are values from low to high.
fn has_values(low: i64, high: i64) -> bool
    ensures { result ≡ int_le low high }
{
    low <= high
}

/// Covers the values of a label, if there are any.
fn cover_range(
    site: &Site,
    label: FittingLabel,
    covered: Covered,
    notes: &mut Notes,
) -> Result<OneLabel, Memory>
    ensures { (a : State) → Analysed a a notes.old notes.new site.now (known_as one_seen result) AreAny
        (λ c. spec_cover c label.at (test_seen label.test) (range label.low label.high) covered) }
{
    if has_values(label.low, label.high) {
        cover_some(site, label, covered, notes)
    } else {
        Ok(OneLabel {
            test: Some(label.test),
            covered,
        })
    }
}

/// Covers what a label stands for.
fn cover(
    site: &Site,
    label: &Label,
    values: LabelValues,
    covered: Covered,
    notes: &mut Notes,
) -> Result<OneLabel, Memory>
    ensures { (a : State) → Analysed a a notes.old notes.new site.now (known_as one_seen result) AreAny
        (λ c. covered_by c (label_at (label_view label.now)) (is_ranged (label_view label.now)) covered values) }
{
    match values {
        LabelValues::Nothing => Ok(OneLabel {
            test: None,
            covered,
        }),
        LabelValues::Wrong => {
            put!(refuse(site, label.low.at, notes));
            Ok(OneLabel {
                test: None,
                covered,
            })
        }
        LabelValues::Values(low, high) => {
            let ranged = label.high.is_some();
            let fitting = FittingLabel {
                at: label.low.at,
                test: test_of(ranged, low, high),
                low,
                high,
            };
            cover_range(site, fitting, covered, notes)
        }
    }
}

/// The labels of an arm with one more, by what all cover.
fn joined(good: bool, tests: Vec<LabelTest>, one: OneLabel) -> Result<CaseLabels, Memory>
    ensures { (before : List Range) → IfOk result (λ labels.
        labels_seen labels ≡ spec_joined (spec_labels good (map test_seen tests.items) before) (one_seen one)) }
{
    match one.test {
        Some(test) => {
            let mut tests = tests;
            tests.push(test)?;
            Ok(CaseLabels {
                good,
                tests,
                covered: one.covered,
            })
        }
        None => Ok(CaseLabels {
            good: false,
            tests,
            covered: one.covered,
        }),
    }
}

/// The labels of an arm with one more, by what that stands for.
fn with_label(
    site: &Site,
    labels: CaseLabels,
    label: &Label,
    values: LabelValues,
    notes: &mut Notes,
) -> Result<CaseLabels, Memory>
    ensures { (a : State) → Analysed a a notes.old notes.new site.now (known_as labels_seen result) AreAny
        (λ c. and_then (covered_by c (label_at (label_view label.now)) (is_ranged (label_view label.now))
        labels.covered values) (λ one. gives (spec_joined (labels_seen labels) one))) }
{
    let CaseLabels {
        good,
        tests,
        covered,
    } = labels;
    let one = put!(cover(site, label, values, covered, notes));
    let more = put!(joined(good, tests, one));
    Ok(more)
}

/// The labels of one arm, of a CASE or of variants, beside a value of the coverage's type, some of whose values
/// earlier arms cover. By the report they are constants compatible with that type, "and no value must occur more than
/// once"; one that isn't right is refused at its first token. It waits for names and types.
pub fn case_labels<S: Scopes>(
    scopes: &mut S,
    site: &Site,
    coverage: Coverage,
    labels: &[Label],
    notes: &mut Notes,
) -> Result<Ask<CaseLabels>, Memory>
    requires suits { SuitsSite (S.state scopes.old).frame site.now }
    requires of { IsThere (S.state scopes.old).frame coverage.of }
    requires read { AreReadLabels site.now.texts.now.names (plain_labels (map label_view labels.now)) }
    ensures { Analysed (S.state scopes.old) (S.state scopes.new) notes.old notes.new site.now
        (answer_as labels_seen result) AreAny
        (λ c. labels_of c coverage.of coverage.covered (plain_labels (map label_view labels.now))) }
{
    let Coverage { of, covered } = coverage;
    let mut found = CaseLabels {
        good: true,
        tests: Vec::new(covered.allocator()),
        covered,
    };
    for label in labels {
        let values = analysed!(label_values(scopes, site, of, label, notes));
        found = put!(with_label(site, found, label, values, notes));
    }
    Ok(Ask::Known(found))
}
