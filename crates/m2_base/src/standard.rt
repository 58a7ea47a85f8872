//! The standard scope, which surrounds every module.
ghost use Rattle.std.specs.Prelude.{◌≡◌, ◌+◌, true, Some, slice_get};
ghost use Rattle.m2_base.specs.Standard.{is_standard, standard_rows as spec_rows};

use crate::rows::{Place, Row, RowMeaning, write_row};

/// A type of scope 0, by its ordinal.
macro_rules! of {
    ($ordinal:expr) => {
        Place {
            scope: 0,
            ordinal: $ordinal,
        }
    };
}

/// Meanings, and behind them standard procedures, each by its name.
macro_rules! meanings {
    ($($meaning:expr),+; procedures: $($name:literal)+) => {
        [$($meaning,)+ $(RowMeaning::Standard($name),)+]
    };
}

/// What stands in scope 0: the types without names, then the standard names by their numbers.
macro_rules! scope {
    (types: $($kind:expr),+; names: $($name:literal)+) => {
        [
            $(write_row(0, 0, $kind),)+
            $(standard_row($name),)+
        ]
    };
}

/// What the standard names mean, in the order of their numbers: types, TRUE, FALSE, NIL and the standard procedures.
static MEANINGS: [RowMeaning; 26] = meanings!(
    RowMeaning::TypeName(of!(0)),
    RowMeaning::TypeName(of!(1)),
    RowMeaning::TypeName(of!(2)),
    RowMeaning::TypeName(of!(3)),
    RowMeaning::TypeName(of!(5)),
    RowMeaning::TypeName(of!(6)),
    RowMeaning::Const(of!(3), 1, 0),
    RowMeaning::Const(of!(3), 0, 0),
    RowMeaning::Const(of!(7), 0, 0);
    procedures: 10 11 12 13 14 15 16 17 18 19 20 21 22 23 24 25 26
);

/// The row of a standard name, by its number.
pub fn standard_row(name: u32) -> Row
    requires { is_standard name ≡ true }
    ensures { slice_get spec_rows (name + 10) ≡ Some result }
{
    write_row(name, 0, MEANINGS[name as usize - 1])
}

/// The rows of scope 0: the types without names, then the standard names in the order of their numbers.
pub fn standard_rows() -> [Row; 37]
    ensures { result ≡ spec_rows }
{
    scope!(
        types:
            RowMeaning::Integer,
            RowMeaning::Cardinal,
            RowMeaning::Character,
            RowMeaning::Enum(2),
            RowMeaning::Subrange(of!(1), 0, 31),
            RowMeaning::Set(of!(4)),
            RowMeaning::ProcType(None, 0, 6),
            RowMeaning::Nil,
            RowMeaning::Text,
            RowMeaning::Whole,
            RowMeaning::Broken;
        names: 1 2 3 4 5 6 7 8 9 10 11 12 13 14 15 16 17 18 19 20 21 22 23 24 25 26
    )
}
