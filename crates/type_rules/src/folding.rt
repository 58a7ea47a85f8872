//! The value of an operator on two constants.
ghost use Rattle.std.specs.Prelude.{◌≡◌};
ghost use Rattle.m2_base.specs.Statics.Folding.{fold as spec_fold, fold_number as spec_number, fold_bits as spec_bits};
ghost use Rattle.m2_base.specs.Statics.Folding.{fold_ordinals as spec_ordinals, fold_by_kind as spec_by_kind};
ghost use Rattle.m2_base.specs.Statics.Folding.{is_relation as spec_relation, low_bits as spec_low, truth, where_in};
ghost use Rattle.m2_base.specs.Statics.Ranges.{range};

use m2_base::{FoldKind, GREATEST_CARDINAL, GREATEST_INTEGER, LEAST_INTEGER, Operator};

/// The value of an operator on two constants of a kind: none where it is outside the range, or where the divisor isn't
/// positive.
pub fn fold(kind: FoldKind, operator: Operator, x: i64, y: i64) -> Option<i64>
    ensures { result ≡ spec_fold kind operator x y }
{
    match operator {
        Operator::Equal => Some((x == y) as i64),
        Operator::Unequal => Some((x != y) as i64),
        _ => fold_by_kind(kind, operator, x, y),
    }
}

/// The same for operators other than equal and unequal.
fn fold_by_kind(kind: FoldKind, operator: Operator, x: i64, y: i64) -> Option<i64>
    ensures { result ≡ spec_by_kind kind operator x y }
{
    match kind {
        FoldKind::Set => fold_bits(operator, low_bits(x), low_bits(y)),
        FoldKind::Ordinal => fold_ordinals(operator, x, y),
        _ if is_relation(operator) => fold_ordinals(operator, x, y),
        FoldKind::Integer => fold_number(LEAST_INTEGER, GREATEST_INTEGER, operator, x, y),
        FoldKind::Cardinal => fold_number(0, GREATEST_CARDINAL, operator, x, y),
        FoldKind::Whole => fold_number(LEAST_INTEGER, GREATEST_CARDINAL, operator, x, y),
    }
}

/// Whether an operator compares.
pub fn is_relation(operator: Operator) -> bool
    ensures { result ≡ spec_relation operator }
{
    matches!(
        operator,
        Operator::Equal
            | Operator::Unequal
            | Operator::Less
            | Operator::Greater
            | Operator::LessEqual
            | Operator::GreaterEqual
    )
}

/// The low 32 bits of a number.
fn low_bits(x: i64) -> u32
    ensures { result ≡ spec_low x }
{
    x.rem_euclid(1 << 32) as u32
}

/// The value, where it lies from low to high.
fn within(low: i64, high: i64, value: i64) -> Option<i64>
    ensures { result ≡ where_in (range low high) value }
{
    if low <= value && value <= high {
        Some(value)
    } else {
        None
    }
}

/// The value of an operator that gives a number of two numbers, where it lies from low to high.
fn fold_number(low: i64, high: i64, operator: Operator, x: i64, y: i64) -> Option<i64>
    ensures { result ≡ spec_number (range low high) operator x y }
{
    match operator {
        Operator::Plus => within(low, high, x.checked_add(y)?),
        Operator::Minus => within(low, high, x.checked_sub(y)?),
        Operator::Times => within(low, high, x.checked_mul(y)?),
        Operator::Div if 0 < y => within(low, high, x.div_euclid(y)),
        Operator::Mod if 0 < y => within(low, high, x.rem_euclid(y)),
        _ => None,
    }
}

/// The value of an operator on two sets, by their bits.
fn fold_bits(operator: Operator, x: u32, y: u32) -> Option<i64>
    ensures { result ≡ spec_bits operator x y }
{
    match operator {
        Operator::Plus => Some((x | y) as i64),
        Operator::Minus => Some((x - (x & y)) as i64),
        Operator::Times => Some((x & y) as i64),
        Operator::Slash => Some((x ^ y) as i64),
        Operator::LessEqual => Some((x & y == x) as i64),
        Operator::GreaterEqual => Some((x & y == y) as i64),
        _ => None,
    }
}

/// The value of an operator on two ordinal numbers: of BOOLEAN, whose numbers are 0 and 1, also AND and OR.
fn fold_ordinals(operator: Operator, x: i64, y: i64) -> Option<i64>
    ensures { result ≡ spec_ordinals operator x y }
{
    let holds = match operator {
        Operator::Less => x < y,
        Operator::Greater => y < x,
        Operator::LessEqual => x <= y,
        Operator::GreaterEqual => y <= x,
        Operator::And => x != 0 && y != 0,
        Operator::Or => x != 0 || y != 0,
        _ => return None,
    };
    Some(holds as i64)
}
