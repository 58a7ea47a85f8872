//! What a module has of its own definition.
ghost use Rattle.std.specs.Prelude.{◌≡◌, ℕ, ◌+◌, [], length, map, nat_eq, option_map, unwrap_or, IfOk};
ghost use Rattle.indexmap.specs.IndexMap.{get};
ghost use Rattle.object_file.specs.Contents.{no_key};
ghost use Rattle.unit_merge.specs.Objects.{IsPlaceIn, cells_by, exports_in, headings_by, number_of as spec_number_of};
ghost use Rattle.unit_merge.specs.Objects.{of_own};

use crate::imports::Key;
use indexmap::IndexMap;
use m2_base::{HeadingNote, Memory, Output};
use std::alloc::Global;

/// How many bytes a key has.
const KEY_BYTES: usize = 32;

/// What a module has of its own definition: its key, its cells, and its headings.
#[derive(Drop)]
pub(crate) struct OwnPart {
    pub key: Vec<u8>,
    pub cells: u32,
    pub exports: Vec<(u32, u32, u32)>,
}

/// The number of the first procedure of each name.
fn numbers_of(alloc: Global, headings: &[HeadingNote]) -> Result<IndexMap<u32, u32>, Memory>
    ensures { IfOk result (λ numbers. (name : ℕ) → get nat_eq numbers name ≡ spec_number_of headings.now name) }
{
    let mut numbers = IndexMap::new(alloc);
    for heading in headings.iter().rev() {
        numbers.insert(heading.name, heading.number)?;
    }
    Ok(numbers)
}

/// The procedure of this name. The body stands for one that isn't there.
fn number_of(numbers: &IndexMap<u32, u32>, name: u32) -> u32
    ensures { result ≡ unwrap_or (get nat_eq numbers.now name) 0 }
{
    match numbers.get(&name) {
        Some(number) => *number,
        None => 0,
    }
}

/// The headings of a definition, each with the number of the module's procedure of its name.
fn exports_of(
    alloc: Global,
    headings: &[HeadingNote],
    own: &[HeadingNote],
) -> Result<Vec<(u32, u32, u32)>, Memory>
    ensures { IfOk result (λ exports. exports.items ≡ exports_in headings.now own.now) }
{
    let numbers = numbers_of(alloc, headings)?;
    let mut exports = Vec::new(alloc);
    for heading in own {
        let number = number_of(&numbers, heading.name);
        exports.push((number, heading.params, heading.result))?;
    }
    Ok(exports)
}

/// The key of a module that has no definition.
#[tactic(auto, using(crate::proofs::NoKey::zeros))]
fn key_of_none(alloc: Global) -> Result<Vec<u8>, Memory>
    ensures { IfOk result (λ key. key.items ≡ no_key) }
{
    Ok(vec![in alloc; 0; KEY_BYTES]?)
}

/// What a module with these headings has of its own definition, which is at this place.
pub(crate) fn own_part(
    alloc: Global,
    own: Option<usize>,
    keys: &[Key],
    outputs: &[Output],
    headings: &[HeadingNote],
) -> Result<OwnPart, Memory>
    requires long { length outputs.now ≡ length keys.now }
    requires own { IsPlaceIn keys.now own }
    ensures key { IfOk result
        (λ part. part.key.items ≡ of_own no_key (option_map (λ n. n + 1) own) (map (λ k. k.1) keys.now)) }
    ensures cells { IfOk result (λ part. part.cells ≡ of_own 0 (option_map (λ n. n + 1) own) (cells_by outputs.now)) }
    ensures exports { IfOk result (λ part. part.exports.items
        ≡ exports_in headings.now (of_own [] (option_map (λ n. n + 1) own) (headings_by outputs.now))) }
{
    match own {
        Some(place) => {
            let output = &outputs[place];
            Ok(OwnPart {
                key: keys[place].1.to_vec(alloc)?,
                cells: output.cells,
                exports: exports_of(alloc, headings, &output.headings)?,
            })
        }
        None => Ok(OwnPart {
            key: key_of_none(alloc)?,
            cells: 0,
            exports: Vec::new(alloc),
        }),
    }
}
