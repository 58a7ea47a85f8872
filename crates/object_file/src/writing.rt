//! From objects to bytes.
ghost use Rattle.std.specs.Prelude.{◌≡◌, ◌<◌, ◌^◌, ◌++◌, length, map, flat_map, IfOk, OnOk};
ghost use Rattle.std.specs.List.{AllByRecursion};
ghost use Rattle.object_file.specs.Contents.{u32 as u32_bytes, with_length, magic, export_bytes, heading_bytes};
ghost use Rattle.object_file.specs.Contents.{import_bytes, procedure_bytes, frame_bytes, body_bytes, opening_bytes};
ghost use Rattle.object_file.specs.Contents.{lists_bytes, object_bytes};
ghost use Rattle.object_file.specs.Short.{Short, ShortImport, ShortProcedure};
ghost use Rattle.object_file.specs.Views.{heading_of, keyed_of, procedure_of, contents_of};

use crate::parts::{ImportNote, Parts};
use m2_base::ProcCode;
use std::alloc::{AllocError, Global};

fn number(out: &mut Vec<u8>, n: u32) -> Result<(), AllocError>
    ensures { OnOk result (out.new.items ≡ out.old.items ++ u32_bytes n) }
{
    out.extend_from_slice(&n.to_le_bytes())
}

/// A length and so many bytes.
fn text(out: &mut Vec<u8>, bytes: &[u8]) -> Result<(), AllocError>
    requires { length bytes.now < 2 ^ 32 }
    ensures { OnOk result (out.new.items ≡ out.old.items ++ with_length bytes.now) }
{
    number(out, bytes.len() as u32)?;
    out.extend_from_slice(bytes)
}

#[tactic(auto, unfolding(crate::specs::Contents::export_bytes))]
fn export(out: &mut Vec<u8>, export: &(u32, u32, u32)) -> Result<(), AllocError>
    ensures { OnOk result (out.new.items ≡ out.old.items ++ export_bytes export.now) }
{
    number(out, export.0)?;
    number(out, export.1)?;
    number(out, export.2)
}

fn exports(out: &mut Vec<u8>, all: &[(u32, u32, u32)]) -> Result<(), AllocError>
    ensures { OnOk result (out.new.items ≡ out.old.items ++ flat_map export_bytes all.now) }
{
    for one in all {
        export(out, one)?;
    }
    Ok(())
}

#[tactic(auto, unfolding(crate::specs::Contents::heading_bytes))]
fn heading(out: &mut Vec<u8>, heading: &(u32, u32)) -> Result<(), AllocError>
    ensures { OnOk result (out.new.items ≡ out.old.items ++ heading_bytes (heading_of heading.now)) }
{
    number(out, heading.0)?;
    number(out, heading.1)
}

fn headings(out: &mut Vec<u8>, all: &[(u32, u32)]) -> Result<(), AllocError>
    ensures { OnOk result (out.new.items ≡ out.old.items ++ flat_map heading_bytes (map heading_of all.now)) }
{
    for one in all {
        heading(out, one)?;
    }
    Ok(())
}

#[tactic(auto, unfolding(crate::specs::Contents::import_bytes))]
fn import(out: &mut Vec<u8>, import: &ImportNote) -> Result<(), AllocError>
    requires { ShortImport (keyed_of import.now) }
    ensures { OnOk result (out.new.items ≡ out.old.items ++ import_bytes (keyed_of import.now)) }
{
    text(out, &import.name)?;
    key(out, &import.key)?;
    number(out, import.cells)?;
    number(out, import.headings.len() as u32)?;
    headings(out, &import.headings)
}

fn imports(out: &mut Vec<u8>, all: &[ImportNote]) -> Result<(), AllocError>
    requires { AllByRecursion ShortImport (map keyed_of all.now) }
    ensures { OnOk result (out.new.items ≡ out.old.items ++ flat_map import_bytes (map keyed_of all.now)) }
{
    for one in all {
        import(out, one)?;
    }
    Ok(())
}

#[tactic(auto, unfolding(crate::specs::Contents::frame_bytes))]
fn frame(out: &mut Vec<u8>, own: &ProcCode) -> Result<(), AllocError>
    ensures { OnOk result (out.new.items ≡ out.old.items ++ frame_bytes (procedure_of own.now)) }
{
    number(out, own.outer)?;
    number(out, own.params)?;
    number(out, own.result)?;
    number(out, own.locals)
}

#[tactic(auto, unfolding(crate::specs::Contents::body_bytes))]
fn body(out: &mut Vec<u8>, own: &ProcCode) -> Result<(), AllocError>
    requires { ShortProcedure (procedure_of own.now) }
    ensures { OnOk result (out.new.items ≡ out.old.items ++ body_bytes (procedure_of own.now)) }
{
    number(out, own.high)?;
    text(out, &own.bytes)?;
    text(out, &own.code)
}

fn procedure(out: &mut Vec<u8>, own: &ProcCode) -> Result<(), AllocError>
    requires { ShortProcedure (procedure_of own.now) }
    ensures { OnOk result (out.new.items ≡ out.old.items ++ procedure_bytes (procedure_of own.now)) }
{
    frame(out, own)?;
    body(out, own)
}

fn procedures(out: &mut Vec<u8>, all: &[ProcCode]) -> Result<(), AllocError>
    requires { AllByRecursion ShortProcedure (map procedure_of all.now) }
    ensures { OnOk result (out.new.items ≡ out.old.items ++ flat_map procedure_bytes (map procedure_of all.now)) }
{
    for one in all {
        procedure(out, one)?;
    }
    Ok(())
}

/// A key, whose length isn't told.
fn key(out: &mut Vec<u8>, key: &[u8]) -> Result<(), AllocError>
    ensures { OnOk result (out.new.items ≡ out.old.items ++ key.now) }
{
    out.extend_from_slice(key)
}

/// What each object begins with, and its version.
fn start(out: &mut Vec<u8>, version: u32) -> Result<(), AllocError>
    ensures { OnOk result (out.new.items ≡ out.old.items ++ (magic ++ u32_bytes version)) }
{
    out.extend_from_slice(b"M2OB")?;
    number(out, version)
}

#[tactic(auto, unfolding(crate::specs::Contents::opening_bytes))]
fn opening(out: &mut Vec<u8>, parts: &Parts) -> Result<(), AllocError>
    requires { Short (contents_of parts.now) }
    ensures { OnOk result (out.new.items ≡ out.old.items ++ opening_bytes (contents_of parts.now)) }
{
    start(out, parts.version)?;
    text(out, &parts.name)?;
    number(out, parts.cells)?;
    number(out, parts.own_cells)?;
    key(out, &parts.key)
}

#[tactic(auto, unfolding(crate::specs::Contents::lists_bytes))]
fn lists(out: &mut Vec<u8>, parts: &Parts) -> Result<(), AllocError>
    requires { Short (contents_of parts.now) }
    ensures { OnOk result (out.new.items ≡ out.old.items ++ lists_bytes (contents_of parts.now)) }
{
    number(out, parts.exports.len() as u32)?;
    exports(out, &parts.exports)?;
    number(out, parts.imports.len() as u32)?;
    imports(out, &parts.imports)?;
    number(out, parts.procedures.len() as u32)
}

/// The bytes of an object with these parts.
pub(crate) fn bytes_of(alloc: Global, parts: &Parts) -> Result<Vec<u8>, AllocError>
    requires { Short (contents_of parts.now) }
    ensures { IfOk result (λ bytes. bytes.items ≡ object_bytes (contents_of parts.now)) }
{
    let mut out = Vec::new(alloc);
    opening(&mut out, parts)?;
    lists(&mut out, parts)?;
    procedures(&mut out, &parts.procedures)?;
    Ok(out)
}
