//! The test of a label.
ghost use Rattle.std.specs.Prelude.{◌≡◌, None, Some, if◌then◌else◌};
ghost use Rattle.case_labels.specs.Labels.{test_of as spec_test};
ghost use Rattle.case_labels.specs.Seen.{test_seen};

/// The values of a label: one, or those from the low one to the high one.
#[derive(Clone, Copy)]
pub struct LabelTest {
    pub low: i64,
    pub high: Option<i64>,
}

/// The test of a label that is a range or not.
pub(crate) fn test_of(ranged: bool, low: i64, high: i64) -> LabelTest
    ensures { test_seen result ≡ spec_test ranged low high }
{
    LabelTest {
        low,
        high: if ranged { Some(high) } else { None },
    }
}

/// The test of a label that is right.
pub(crate) fn test_unless(wrong: bool, test: LabelTest) -> Option<LabelTest>
    ensures { result ≡ (if wrong then None else Some test) }
{
    if wrong { None } else { Some(test) }
}
