//! Whether an import agrees with what is given.
ghost use Rattle.std.specs.Prelude.{◌≡◌, ◌==◌, ◌&&◌, ◌||◌, not, length, map};
ghost use Rattle.std.specs.Str.{bytes_eq};
ghost use Rattle.object_file.specs.Programs.{given_headings};
ghost use Rattle.object_file.specs.Views.{heading_of, keyed_of};
ghost use Rattle.m2_link.specs.Keys.{in_out_key};
ghost use Rattle.m2_link.specs.Refusals.{agrees, given_by, in_out_given, same_headings as spec_same};

use object_file::{ImportNote, Object};

/// The headings of InOut: the cells of the parameters, and the result.
const IN_OUT_HEADINGS: [(u32, u32, u32); 8] = [
    (0, 1, 0), // Read
    (0, 1, 0), // ReadInt
    (0, 1, 0), // ReadCard
    (0, 1, 0), // Write
    (0, 2, 0), // WriteString
    (0, 0, 0), // WriteLn
    (0, 2, 0), // WriteInt
    (0, 2, 0), // WriteCard
];

/// Exports give these headings.
fn same_headings(exports: &[(u32, u32, u32)], headings: &[(u32, u32)]) -> bool
    ensures { result ≡ spec_same (given_headings exports.now) (map heading_of headings.now) }
{
    if exports.len() != headings.len() {
        return false;
    }
    for k in 0..exports.len() {
        if exports[k].1 != headings[k].0 || exports[k].2 != headings[k].1 {
            return false;
        }
    }
    true
}

/// The keys agree, where both versions have one.
fn same_key(version: u32, key: &[u8], other_version: u32, other: &[u8]) -> bool
    ensures { result ≡ not (version == 2 && other_version == 2) || bytes_eq key.now other.now }
{
    !(version == 2 && other_version == 2) || key == other
}

/// An import of an object of this version agrees with another object.
pub(crate) fn agrees_with_object(version: u32, note: &ImportNote, object: &Object) -> bool
    ensures { result ≡ agrees version (keyed_of note.now) (given_by object.now) }
{
    note.cells == object.own_cells()
        && same_headings(object.exports(), &note.headings)
        && same_key(version, &note.key, object.version(), object.key())
}

/// An import of an object of this version agrees with InOut, whose key is this one.
pub(crate) fn agrees_with_in_out(version: u32, note: &ImportNote, key: &[u8]) -> bool
    requires { key.now ≡ in_out_key }
    ensures { result ≡ agrees version (keyed_of note.now) in_out_given }
{
    note.cells == 1
        && same_headings(&IN_OUT_HEADINGS, &note.headings)
        && same_key(version, &note.key, 2, key)
}
