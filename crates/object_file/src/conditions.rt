//! Which values of the fields are valid.
ghost use Rattle.std.specs.Prelude.{◌≡◌, ◌==◌, nat_lt};
ghost use Rattle.std.specs.List.{list_all};
ghost use Rattle.m2_base.specs.Letters.{goes_on as spec_goes_on};
ghost use Rattle.object_file.specs.ObjectFormat.{is_identifier as spec_identifier, is_new_name as spec_new_name};
ghost use Rattle.object_file.specs.ObjectFormat.{is_count as spec_count, is_outer as spec_outer};
ghost use Rattle.object_file.specs.ObjectFormat.{is_params as spec_params, is_result as spec_result};
ghost use Rattle.object_file.specs.ObjectFormat.{is_locals as spec_locals};

use crate::exports::Exports;
use crate::imports::Imports;
use m2_base::{MOST_CELLS, goes_on, is_letter};

fn all_go_on(bytes: &[u8]) -> bool
    ensures { result ≡ list_all spec_goes_on bytes.now }
{
    bytes.iter().all(|b| goes_on(*b))
}

/// A name is an identifier.
#[tactic(auto, unfolding(crate::specs::ObjectFormat::is_identifier))]
pub(crate) fn is_identifier(bytes: &[u8]) -> bool
    ensures { result ≡ spec_identifier bytes.now }
{
    match bytes {
        [] => false,
        [first, rest @ ..] => { is_letter(*first) && all_go_on(rest) }
    }
}

/// The imports' names differ.
#[tactic(auto, unfolding(crate::specs::ObjectFormat::is_new_name))]
pub(crate) fn is_new_name(before: &Imports, name: &[u8]) -> bool
    ensures { result ≡ spec_new_name before.now name.now }
{
    is_identifier(name) && !before.has(name)
}

fn are_below(exports: &[(u32, u32, u32)], n: u32) -> bool
    ensures { result ≡ list_all (λ e. nat_lt e.0 n) exports.now }
{
    exports.iter().all(|e| e.0 < n)
}

/// There is a body, and each export's procedure.
#[tactic(auto, unfolding(crate::specs::ObjectFormat::is_count))]
pub(crate) fn is_count(exports: &[(u32, u32, u32)], n: u32) -> bool
    ensures { result ≡ spec_count exports.now n }
{
    1 <= n && are_below(exports, n)
}

/// The outer procedure of procedure k.
pub(crate) fn is_outer(exports: &Exports, k: u32, outer: u32) -> bool
    ensures { result ≡ spec_outer exports.now k outer }
{
    (outer < k || (k == 0 && outer == 0)) && exports.admits_outer(k, outer)
}

/// The cells of the parameters of procedure k.
pub(crate) fn is_params(exports: &Exports, k: u32, params: u32) -> bool
    ensures { result ≡ spec_params exports.now k params }
{
    (0 < k || params == 0) && exports.admits_params(k, params)
}

/// The cells of the result of procedure k.
pub(crate) fn is_result(exports: &Exports, k: u32, cells: u32) -> bool
    ensures { result ≡ spec_result exports.now k cells }
{
    cells <= 1 && (0 < k || cells == 0) && exports.admits_result(k, cells)
}

/// The parameters are among the cells.
pub(crate) fn is_locals(params: u32, locals: u32) -> bool
    ensures { result ≡ spec_locals params locals }
{
    params <= locals && locals <= MOST_CELLS
}
