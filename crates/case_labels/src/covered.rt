//! The values that labels cover.
ghost use Rattle.std.specs.BTreeMap.{get};
ghost use Rattle.std.specs.Bool.{Decides};
ghost use Rattle.std.specs.List.{list_any};
ghost use Rattle.std.specs.Option.{MatchOption};
ghost use Rattle.std.specs.Ordering.{int_cmp};
ghost use Rattle.std.specs.Prelude.{◌≡◌, ◌∷◌, ◌++◌, [], List, ℤ, IfOk};
ghost use Rattle.m2_base.specs.Statics.CaseLabels.{overlaps as spec_overlaps};
ghost use Rattle.m2_base.specs.Statics.Ranges.{range};
ghost use Rattle.case_labels.specs.Steps.{AreSteps, BeginsWithin, LoseWithin, NoneWithin, Reaches, Rises};

use m2_base::{Memory, Place};
use std::alloc::Global;
use std::collections::BTreeMap;
use std::marker::Model;

/// The last values of ranges, by their first ones.
type Steps = BTreeMap<i64, i64>;

/// The ranges of values that labels cover so far.
#[derive(Drop)]
pub struct Covered {
    /// The least and the greatest value of each, in the order in which they were covered.
    ranges: Vec<(i64, i64)>,
    /// Those that reach further than all that begin before them or with them.
    steps: Steps,
}

/// What labels cover of a type, which is that of a CASE's selector or of a record's tag.
#[derive(Drop)]
pub struct Coverage {
    pub of: Place,
    pub covered: Covered,
}

impl Model for Covered {
    ghost use Rattle.std.specs.BTreeMap.{get};
    ghost use Rattle.std.specs.Ordering.{int_cmp};
    ghost use Rattle.std.specs.Prelude.{List, map, reverse};
    ghost use Rattle.m2_base.specs.Statics.Ranges.{Range, range};
    ghost use Rattle.case_labels.specs.Steps.{AreSteps};

    ghost Value = { List Range };

    ghost view = { λ c. reverse (map (λ ends. range ends.0 ends.1) c.ranges.items) };

    ghost invariant = { λ c. AreSteps (get int_cmp c.steps) c.ranges.items };
}

/// Whether a step that begins at a value or before it reaches another.
fn reaches(steps: &Steps, from: i64, to: i64) -> bool
    requires { Rises (get int_cmp steps.now) }
    ensures { Decides result (Reaches (get int_cmp steps.now) from to) }
{
    match steps.range(..=from).next_back() {
        Some((_, high)) => to <= *high,
        None => false,
    }
}

/// Where a step begins that lies within the range from low to high, if there is one.
fn begins_within(steps: &Steps, low: i64, high: i64) -> Option<i64>
    requires { Rises (get int_cmp steps.now) }
    ensures { MatchOption result (NoneWithin (get int_cmp steps.now) low high)
        (BeginsWithin (get int_cmp steps.now) low high) }
{
    match steps.range(low..).next() {
        Some((from, to)) => if *to <= high { Some(*from) } else { None },
        None => None,
    }
}

/// Lets go of the steps that lie within the range from low to high.
fn lose_within(steps: &mut Steps, low: i64, high: i64)
    requires { Rises (get int_cmp steps.old) }
    ensures lost { LoseWithin low high (get int_cmp steps.old) (get int_cmp steps.new) }
    ensures none { NoneWithin (get int_cmp steps.new) low high }
{
    while let Some(from) = begins_within(steps, low, high) {
        steps.remove(&from);
    }
}

/// The steps of ranges with one more.
fn with_range(steps: Steps, low: i64, high: i64) -> Result<Steps, Memory>
    requires { Rises (get int_cmp steps) }
    ensures { (ranges : List (ℤ × ℤ)) → AreSteps (get int_cmp steps) ranges
        → IfOk result (λ more. AreSteps (get int_cmp more) (ranges ++ (low, high) ∷ [])) }
{
    let mut more = steps;
    if reaches(&more, low, high) {
        return Ok(more);
    }
    lose_within(&mut more, low, high);
    more.insert(low, high)?;
    Ok(more)
}

impl Covered {
    /// None yet.
    pub fn new(alloc: Global) -> Covered
        ensures { result ≡ [] }
    {
        Covered {
            ranges: Vec::new(alloc),
            steps: BTreeMap::new(alloc),
        }
    }

    /// Where the ranges are kept.
    pub(crate) fn allocator(&self) -> Global {
        *self.ranges.allocator()
    }

    /// Whether one of the values from low to high is covered.
    pub fn overlaps(&self, low: i64, high: i64) -> bool
        ensures { result ≡ list_any (spec_overlaps (range low high)) self.now }
    {
        reaches(&self.steps, high, low)
    }

    /// With the values from low to high.
    pub fn with(self, low: i64, high: i64) -> Result<Covered, Memory>
        ensures { IfOk result (λ more. more ≡ range low high ∷ self) }
    {
        let mut ranges = self.ranges;
        ranges.push((low, high))?;
        let steps = with_range(self.steps, low, high)?;
        Ok(Covered { ranges, steps })
    }
}
