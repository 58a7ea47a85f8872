//! The rows of arrays, and the types that an index may be.
ghost use Rattle.std.specs.Prelude.{◌≡◌, ◌<◌, ◌≤◌, ◌*◌, ◌^◌, ◌∷◌, [], max, option_map, reverse};
ghost use Rattle.std.specs.Option.{IfSome};
ghost use Rattle.m2_base.specs.Lists.{Each};
ghost use Rattle.m2_base.specs.Rows.{IsValue, array_kind};
ghost use Rattle.m2_base.specs.States.{Waits};
ghost use Rattle.m2_base.specs.Statics.Arrays.{array_rows as spec_rows, array_size as spec_size};
ghost use Rattle.m2_base.specs.Statics.Arrays.{checked_index as spec_index, count_by as spec_count_by};
ghost use Rattle.m2_base.specs.Statics.Arrays.{is_index_range as spec_is_index_range};
ghost use Rattle.m2_base.specs.Statics.Cells.{capped as spec_capped};
ghost use Rattle.m2_base.specs.Statics.Makes.{only_gives};
ghost use Rattle.m2_base.specs.Statics.Ranges.{count_of as spec_count, range};
ghost use Rattle.m2_base.specs.Statics.Shapes.{nameless};
ghost use Rattle.type_rules.specs.Asks.{Reads, WhereKnown, WhereWaiting};
ghost use Rattle.type_rules.specs.Sites.{context_of};
ghost use Rattle.decl_sem.specs.ArrayRows.{array_row, arrays_at};
ghost use Rattle.decl_sem.specs.Making.{next_ordinal};
ghost use Rattle.decl_sem.specs.Pieces.{Declares, IsBehind, IsMaking, WhereMaking};
ghost use Rattle.decl_sem.specs.Stood.{IsOfSomeRow, elements_by as spec_elements, may_be_index as spec_may_be_index};

use crate::cells::{capped, fit};
use crate::making::{Made, put_plain};
use crate::sets::keep_or_refuse;
use crate::standing::stand_in;
use crate::variables::cells_of;
use m2_base::{Ask, MOST_CELLS, Memory, Place, RowMeaning, Scopes, Site};
use type_rules::{BROKEN, range_by};

/// An index type has at most so many values.
const MOST_VALUES: u64 = MOST_CELLS as u64;

/// The number of values of a range.
fn count_of(low: i64, high: i64) -> u64
    requires low { IsValue low }
    requires high { IsValue high }
    ensures { result ≡ spec_count (range low high) }
{
    if high < low {
        return 0;
    }
    (high - low) as u64 + 1
}

/// Whether a range is that of an index.
fn is_index_range(ends: Option<(i64, i64)>) -> bool
    requires { IfSome ends (λ ends. IsValue ends.0 × IsValue ends.1) }
    ensures { result ≡ spec_is_index_range (option_map (λ ends. range ends.0 ends.1) ends) }
{
    match ends {
        Some((low, high)) => count_of(low, high) <= MOST_VALUES,
        None => false,
    }
}

/// The number of values of a range; what has none counts as one value.
fn count_by(ends: Option<(i64, i64)>) -> u64
    requires { IfSome ends (λ ends. IsValue ends.0 × IsValue ends.1) }
    ensures { result ≡ spec_count_by (option_map (λ ends. range ends.0 ends.1) ends) }
{
    match ends {
        Some((low, high)) => count_of(low, high),
        None => 1,
    }
}

/// Whether an index type may be this, or is in error.
fn may_be_index(stood: (Place, RowMeaning)) -> bool
    requires { IsOfSomeRow stood.1 }
    ensures { result ≡ spec_may_be_index stood }
{
    let fits = is_index_range(range_by(stood.1));
    stood.0 == BROKEN || fits
}

/// The elements of an array with this index type; one in error counts as one value.
fn elements_by(stood: (Place, RowMeaning)) -> u64
    requires { IsOfSomeRow stood.1 }
    ensures { result ≡ spec_elements stood }
{
    let count = count_by(range_by(stood.1));
    if stood.0 == BROKEN { 1 } else { count }
}

/// The cells of so many elements of this size, at least 1.
fn cells_by(elements: u64, size: u64) -> u32
    ensures { result ≡ spec_capped (max 1 (elements * size)) }
{
    capped(elements.saturating_mul(size).max(1))
}

/// The cells of an array of these types.
#[tactic(auto, using(type_rules::proofs::Reading::reading))]
fn array_cells<S: Scopes>(
    scopes: &mut S,
    site: &Site,
    made: &Made,
    index: Place,
    of: Place,
) -> Ask<u32>
    requires making { IsMaking (S.state scopes.old).frame site.now made.now [] }
    requires index { IsBehind (S.state scopes.old).frame (next_ordinal made.now) index }
    requires of { IsBehind (S.state scopes.old).frame (next_ordinal made.now) of }
    ensures reads { Reads (S.state scopes.old) (S.state scopes.new) }
    ensures waits { WhereWaiting result (λ head. Waits (S.state scopes.old) (S.state scopes.new) head) }
    ensures told { WhereMaking (S.state scopes.old).frame made.now (λ hand.
        WhereKnown result (λ size. size ≡ spec_size (context_of (S.state scopes.old).frame hand site.now) index of)) }
    ensures some { WhereKnown result (λ size. 1 ≤ size) }
    ensures few { WhereKnown result (λ size. size < 2 ^ 32) }
{
    let stood = known!(stand_in(scopes, site, made, index));
    let elements = elements_by(stood);
    let size = known!(cells_of(scopes, site, made, of));
    Ask::Known(cells_by(elements, size))
}

/// An index type is ordinal, with not too many values.
pub(crate) fn checked_index<S: Scopes>(
    scopes: &mut S,
    site: &Site,
    at: u32,
    of: Place,
    made: &mut Made,
) -> Result<Ask<Place>, Memory>
    requires making { IsMaking (S.state scopes.old).frame site.now made.old [] }
    requires there { IsBehind (S.state scopes.old).frame (next_ordinal made.old) of }
    ensures { Declares (S.state scopes.old) (S.state scopes.new) made.old made.new site.now result [] IsBehind
        (λ c. only_gives (spec_index c at of)) }
{
    let stood = asked!(stand_in(scopes, site, made, of));
    let keep = may_be_index(stood);
    let index = put!(keep_or_refuse(site, at, keep, of, made));
    Ok(Ask::Known(index))
}

/// The array of one index type, which is in error where it has too many cells.
fn put_array<S: Scopes>(
    scopes: &mut S,
    site: &Site,
    at: u32,
    index: Place,
    of: Place,
    made: &mut Made,
) -> Result<Ask<Place>, Memory>
    requires making { IsMaking (S.state scopes.old).frame site.now made.old (nameless array_kind at ∷ []) }
    requires index { IsBehind (S.state scopes.old).frame (next_ordinal made.old) index }
    requires of { IsBehind (S.state scopes.old).frame (next_ordinal made.old) of }
    ensures { Declares (S.state scopes.old) (S.state scopes.new) made.old made.new site.now result
        (nameless array_kind at ∷ []) IsBehind (λ c. array_row c at index of) }
{
    let size = asked!(array_cells(scopes, site, made, index, of));
    let array = put!(put_plain(site, made, at, RowMeaning::Array(index, of, size)));
    let kept = put!(fit(site, at, size, array, made));
    Ok(Ask::Known(kept))
}

/// The arrays of several index types: the last is that of the innermost array, which comes first.
pub(crate) fn put_arrays<S: Scopes>(
    scopes: &mut S,
    site: &Site,
    at: u32,
    indexes: &[Place],
    of: Place,
    made: &mut Made,
) -> Result<Ask<Place>, Memory>
    requires making { IsMaking (S.state scopes.old).frame site.now made.old (arrays_at at (reverse indexes.now)) }
    requires indexes { Each (IsBehind (S.state scopes.old).frame (next_ordinal made.old)) indexes.now }
    requires of { IsBehind (S.state scopes.old).frame (next_ordinal made.old) of }
    ensures { Declares (S.state scopes.old) (S.state scopes.new) made.old made.new site.now result
        (arrays_at at (reverse indexes.now)) IsBehind (λ c. spec_rows c at (reverse indexes.now) of) }
{
    let mut array = of;
    for index in indexes.iter().rev() {
        array = analysed!(put_array(scopes, site, at, *index, array, made));
    }
    Ok(Ask::Known(array))
}
