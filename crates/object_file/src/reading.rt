//! The fields of an object, from left to right.
ghost use Rattle.std.specs.Prelude.{◌≡◌, ◌<◌, ◌^◌, [], map, length};
ghost use Rattle.object_file.specs.Fields.{Gives, many_at, counted_at};
ghost use Rattle.object_file.specs.ObjectFormat.{any, version_near as spec_near, key_length as spec_key_length};
ghost use Rattle.object_file.specs.ObjectFormat.{is_count as spec_count};
ghost use Rattle.object_file.specs.Reading.{export_at, heading_at, import_at, frame_at, procedure_at};
ghost use Rattle.object_file.specs.Reading.{front_at, fields_at, object_at, whole_at};
ghost use Rattle.object_file.specs.Views.{heading_of, keyed_of, procedure_of, contents_of};

use crate::conditions::{
    is_count, is_identifier, is_locals, is_new_name, is_outer, is_params, is_result,
};
use crate::exports::Exports;
use crate::fault::Stop;
use crate::fields::{ends, exact, number, raw, text, valid};
use crate::imports::Imports;
use crate::parts::{ImportNote, Parts};
use m2_base::{MOST_CELLS, ProcCode};
use std::alloc::Global;

/// The first fields of a procedure: its outer procedure, and the cells of its parameters, of its result and in all.
struct ProcedureFrame {
    outer: u32,
    params: u32,
    result: u32,
    locals: u32,
}

#[tactic(auto, unfolding(crate::specs::Reading::export_at))]
fn export(bytes: &mut &[u8]) -> Result<(u32, u32, u32), Stop>
    ensures { Gives (λ x. (x, bytes.new.now)) result (export_at [] bytes.old.now) }
{
    let at = *bytes;
    let k = number(bytes)?;
    valid(1 <= k, at)?;
    let params = number(bytes)?;
    let cells = number(bytes)?;
    Ok((k, params, cells))
}

fn exports_of(alloc: Global, count: u32, bytes: &mut &[u8]) -> Result<Exports, Stop>
    ensures { Gives (λ x. (x, bytes.new.now)) result (many_at export_at count [] bytes.old.now) }
{
    let mut exports = Exports::new(alloc);
    for _ in 0..count {
        let one = export(bytes)?;
        exports = exports.with(one)?;
    }
    Ok(exports)
}

#[tactic(auto, unfolding(crate::specs::Fields::counted_at))]
fn exports(alloc: Global, bytes: &mut &[u8]) -> Result<Exports, Stop>
    ensures { Gives (λ x. (x, bytes.new.now)) result (counted_at any export_at bytes.old.now) }
{
    let count = number(bytes)?;
    exports_of(alloc, count, bytes)
}

#[tactic(auto, unfolding(crate::specs::Reading::heading_at))]
fn heading(bytes: &mut &[u8]) -> Result<(u32, u32), Stop>
    ensures { Gives (λ x. (heading_of x, bytes.new.now)) result (heading_at [] bytes.old.now) }
{
    let params = number(bytes)?;
    let cells = number(bytes)?;
    Ok((params, cells))
}

fn headings_of(alloc: Global, count: u32, bytes: &mut &[u8]) -> Result<Vec<(u32, u32)>, Stop>
    ensures { Gives (λ x. (map heading_of x.items, bytes.new.now)) result (many_at heading_at count [] bytes.old.now) }
{
    let mut headings = Vec::new(alloc);
    for _ in 0..count {
        let one = heading(bytes)?;
        headings.push(one)?;
    }
    Ok(headings)
}

#[tactic(auto, unfolding(crate::specs::Fields::counted_at))]
fn headings(alloc: Global, bytes: &mut &[u8]) -> Result<Vec<(u32, u32)>, Stop>
    ensures { Gives (λ x. (map heading_of x.items, bytes.new.now)) result (counted_at any heading_at bytes.old.now) }
{
    let count = number(bytes)?;
    headings_of(alloc, count, bytes)
}

/// How many bytes a key has in this version.
#[tactic(auto, unfolding(crate::specs::ObjectFormat::key_length))]
fn key_length(version: u32) -> usize
    ensures { result ≡ spec_key_length version }
{
    if version == 2 { 32 } else { 0 }
}

/// An import behind these.
#[tactic(auto, unfolding(crate::specs::Reading::import_at))]
fn import(
    alloc: Global,
    version: u32,
    before: &Imports,
    bytes: &mut &[u8],
) -> Result<ImportNote, Stop>
    ensures { Gives (λ x. (keyed_of x, bytes.new.now)) result (import_at version before.now bytes.old.now) }
{
    let at = *bytes;
    let name = text(alloc, bytes)?;
    valid(is_new_name(before, &name), at)?;
    let key = raw(alloc, key_length(version), bytes)?;
    let cells = number(bytes)?;
    let headings = headings(alloc, bytes)?;
    Ok(ImportNote {
        name,
        key,
        cells,
        headings,
    })
}

fn imports_of(
    alloc: Global,
    version: u32,
    count: u32,
    bytes: &mut &[u8],
) -> Result<Vec<ImportNote>, Stop>
    ensures { Gives (λ x. (map keyed_of x.items, bytes.new.now)) result
        (many_at (import_at version) count [] bytes.old.now) }
{
    let mut imports = Imports::new(alloc);
    for _ in 0..count {
        let one = import(alloc, version, &imports, bytes)?;
        imports = imports.with(alloc, one)?;
    }
    Ok(imports.into_notes())
}

#[tactic(auto, unfolding(crate::specs::Fields::counted_at))]
fn imports(alloc: Global, version: u32, bytes: &mut &[u8]) -> Result<Vec<ImportNote>, Stop>
    ensures { Gives (λ x. (map keyed_of x.items, bytes.new.now)) result
        (counted_at any (import_at version) bytes.old.now) }
{
    let count = number(bytes)?;
    imports_of(alloc, version, count, bytes)
}

/// The frame of procedure k.
#[tactic(auto, unfolding(crate::specs::Reading::frame_at))]
fn frame(exports: &Exports, k: u32, bytes: &mut &[u8]) -> Result<ProcedureFrame, Stop>
    ensures { Gives (λ x. (x, bytes.new.now)) result (frame_at exports.now k bytes.old.now) }
{
    let at = *bytes;
    let outer = number(bytes)?;
    valid(is_outer(exports, k, outer), at)?;
    let at = *bytes;
    let params = number(bytes)?;
    valid(is_params(exports, k, params), at)?;
    let at = *bytes;
    let result = number(bytes)?;
    valid(is_result(exports, k, result), at)?;
    let at = *bytes;
    let locals = number(bytes)?;
    valid(is_locals(params, locals), at)?;
    Ok(ProcedureFrame {
        outer,
        params,
        result,
        locals,
    })
}

/// A procedure behind these: its frame and the fields behind that.
fn procedure(
    alloc: Global,
    exports: &Exports,
    before: &[ProcCode],
    bytes: &mut &[u8],
) -> Result<ProcCode, Stop>
    requires { length before.now < 2 ^ 32 }
    ensures { Gives (λ x. (procedure_of x, bytes.new.now)) result
        (procedure_at exports.now (map procedure_of before.now) bytes.old.now) }
{
    let ProcedureFrame {
        outer,
        params,
        result,
        locals,
    } = frame(exports, before.len() as u32, bytes)?;
    let high = number(bytes)?;
    let strings = text(alloc, bytes)?;
    let code = text(alloc, bytes)?;
    Ok(ProcCode {
        outer,
        params,
        result,
        locals,
        high,
        bytes: strings,
        code,
    })
}

fn procedures_of(
    alloc: Global,
    exports: &Exports,
    count: u32,
    bytes: &mut &[u8],
) -> Result<Vec<ProcCode>, Stop>
    ensures { Gives (λ x. (map procedure_of x.items, bytes.new.now)) result
        (many_at (procedure_at exports.now) count [] bytes.old.now) }
{
    let mut procedures = Vec::new(alloc);
    for _ in 0..count {
        let one = procedure(alloc, exports, &procedures, bytes)?;
        procedures.push(one)?;
    }
    Ok(procedures)
}

#[tactic(auto, unfolding(crate::specs::Fields::counted_at))]
fn procedures(alloc: Global, exports: &Exports, bytes: &mut &[u8]) -> Result<Vec<ProcCode>, Stop>
    ensures { Gives (λ x. (map procedure_of x.items, bytes.new.now)) result
        (counted_at (spec_count exports.now) (procedure_at exports.now) bytes.old.now) }
{
    let at = *bytes;
    let count = number(bytes)?;
    valid(is_count(exports.as_slice(), count), at)?;
    procedures_of(alloc, exports, count, bytes)
}

/// The name of an object, its cells, and those of its own variables.
#[tactic(auto, unfolding(crate::specs::Reading::front_at))]
fn front(alloc: Global, bytes: &mut &[u8]) -> Result<(Vec<u8>, u32, u32), Stop>
    ensures { Gives (λ x. ((x.0.items, x.1, x.2), bytes.new.now)) result (front_at bytes.old.now) }
{
    let at = *bytes;
    let name = text(alloc, bytes)?;
    valid(is_identifier(&name), at)?;
    let at = *bytes;
    let cells = number(bytes)?;
    valid(cells <= MOST_CELLS, at)?;
    let at = *bytes;
    let own_cells = number(bytes)?;
    valid(own_cells <= cells, at)?;
    Ok((name, cells, own_cells))
}

/// The fields behind the version, and what follows them.
fn parts(alloc: Global, version: u32, bytes: &mut &[u8]) -> Result<Parts, Stop>
    ensures { Gives (λ x. (contents_of x, bytes.new.now)) result (fields_at version bytes.old.now) }
{
    let (name, cells, own_cells) = front(alloc, bytes)?;
    let key = raw(alloc, key_length(version), bytes)?;
    let exports = exports(alloc, bytes)?;
    let imports = imports(alloc, version, bytes)?;
    let procedures = procedures(alloc, &exports, bytes)?;
    let parts = Parts {
        version,
        name,
        key,
        cells,
        own_cells,
        exports: exports.into_vec(),
        imports,
        procedures,
    };
    Ok(parts)
}

/// The version that the bytes behind the first four are held against.
#[tactic(auto, unfolding(crate::specs::ObjectFormat::version_near))]
fn version_near(bytes: &[u8]) -> u32
    ensures { result ≡ spec_near bytes.now }
{
    match bytes {
        [] => 1,
        [first, ..] => { if *first == 2 { 2 } else { 1 } }
    }
}

/// The fields of an object, and what follows them.
#[tactic(auto, unfolding(crate::specs::Reading::object_at))]
fn object(alloc: Global, bytes: &mut &[u8]) -> Result<Parts, Stop>
    ensures { Gives (λ x. (contents_of x, bytes.new.now)) result (object_at bytes.old.now) }
{
    exact(b"M2OB", bytes)?;
    let version = version_near(bytes);
    exact(&version.to_le_bytes(), bytes)?;
    parts(alloc, version, bytes)
}

/// The fields of an object that is all of the bytes.
#[tactic(auto, unfolding(crate::specs::Reading::whole_at))]
pub(crate) fn fields(alloc: Global, bytes: &[u8]) -> Result<Parts, Stop>
    ensures { Gives contents_of result (whole_at bytes.now) }
{
    let mut rest = bytes;
    let parts = object(alloc, &mut rest)?;
    ends(rest)?;
    Ok(parts)
}
