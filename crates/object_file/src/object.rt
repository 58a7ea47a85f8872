//! Objects.
ghost use Rattle.std.specs.Prelude.{◌≡◌, ◌⊎◌, ℕ, map, IfOk, IfErr, MatchResult};
ghost use Rattle.object_file.specs.Contents.{Contents, definitions_of, object_bytes};
ghost use Rattle.object_file.specs.Telling.{TellsBytes, IsFaultOf};
ghost use Rattle.object_file.specs.Validity.{IsObject, IsBadAt, IsValid};
ghost use Rattle.object_file.specs.Views.{import_of, keyed_of, procedure_of, contents_of};

use crate::fault::{ObjectFault, Stop};
use crate::parts::{ImportNote, Parts};
use crate::reading::fields;
use crate::sizes::{check_all, sizes};
use crate::writing::bytes_of;
use m2_base::{Memory, ProcCode};
use std::alloc::Global;
use std::fmt;
use std::marker::Model;

/// A valid object.
#[derive(Drop)]
pub struct Object {
    parts: Parts,
}

impl Model for Object {
    ghost use Rattle.object_file.specs.Contents.{Contents};
    ghost use Rattle.object_file.specs.Validity.{IsValid};
    ghost use Rattle.object_file.specs.Views.{contents_of};

    ghost Value = { Contents };

    ghost view = { λ o. contents_of o.parts };

    ghost invariant = { λ o. IsValid (contents_of o.parts) };
}

impl fmt::Debug for Object {
    fn fmt<W: fmt::Write>(&self, f: &mut fmt::Formatter<W>) -> fmt::Result {
        write!(f, "object of {} procedures", self.parts.procedures.len())
    }
}

impl Object {
    /// The object with these parts, of the version that they name.
    pub fn build(parts: Parts) -> Object
        requires { IsValid (contents_of parts) }
        ensures { result ≡ contents_of parts }
    {
        Object { parts }
    }

    /// What it says, which is valid.
    pub fn into_parts(self) -> Parts
        ensures parts { contents_of result ≡ self }
        ensures valid { IsValid (contents_of result) }
    {
        self.parts
    }

    /// An object is valid: to be called where that is to be known.
    pub fn validity(&self)
        ensures { IsValid self.now }
    {
        let _ = &self.parts;
    }

    /// The module's name.
    pub fn name(&self) -> &[u8]
        ensures { result.now ≡ self.now.name }
    {
        &self.parts.name
    }

    /// The version of its format.
    pub fn version(&self) -> u32
        ensures { result ≡ self.now.version }
    {
        self.parts.version
    }

    /// The key of its own definition, by which other objects say which definition they were compiled with: 32 bytes,
    /// zeros where it has none; in version 1 it is empty.
    pub fn key(&self) -> &[u8]
        ensures { result.now ≡ self.now.key }
    {
        &self.parts.key
    }

    /// The cells of the module's variables.
    pub fn cells(&self) -> u32
        ensures { result ≡ self.now.cells }
    {
        self.parts.cells
    }

    /// Those of its definition, which come first.
    pub fn own_cells(&self) -> u32
        ensures { result ≡ self.now.own_cells }
    {
        self.parts.own_cells
    }

    /// The headings of its definition: the procedure, the cells of its parameters, and its result.
    pub fn exports(&self) -> &[(u32, u32, u32)]
        ensures { result.now ≡ self.now.exports }
    {
        &self.parts.exports
    }

    pub fn imports(&self) -> &[ImportNote]
        ensures imports { map keyed_of result.now ≡ self.now.imports }
        ensures definitions { map import_of result.now ≡ definitions_of self.now }
    {
        &self.parts.imports
    }

    pub fn procedures(&self) -> &[ProcCode]
        ensures { map procedure_of result.now ≡ self.now.procedures }
    {
        &self.parts.procedures
    }
}

/// The parts of the object that the bytes are.
fn read(alloc: Global, bytes: &[u8]) -> Result<Parts, Stop>
    ensures { TellsBytes contents_of bytes.now result }
{
    let parts = fields(alloc, bytes)?;
    let size = sizes(&parts.procedures);
    check_all(alloc, &parts, size)?;
    Ok(parts)
}

/// The object that the bytes are.
pub fn read_object(alloc: Global, bytes: &[u8]) -> Result<Object, ObjectFault>
    ensures object { IfOk result (λ o. IsObject bytes.now o) }
    ensures fault { IfErr result (λ e. IsFaultOf bytes.now e) }
    // Where they are one, it is read.
    ensures only_object { (o : Contents) → IsObject bytes.now o
        → MatchResult result (λ x. x ≡ o) (λ e. e ≡ ObjectFault.Memory) }
    // Where they are none, the first broken place is told.
    ensures only_fault { (offset code : ℕ) → IsBadAt bytes.now offset code
        → MatchResult result (λ x. ⊥) (λ e. (e ≡ ObjectFault.BadObject offset code) ⊎ (e ≡ ObjectFault.Memory)) }
{
    match read(alloc, bytes) {
        Ok(parts) => Ok(Object { parts }),
        Err(Stop::Memory) => Err(ObjectFault::Memory),
        Err(Stop::Bad(left, code)) => {
            let offset = bytes.len() - left;
            Err(ObjectFault::BadObject {
                offset: offset as u64,
                code,
            })
        }
    }
}

/// The bytes of an object, in its own version.
pub fn write_object(alloc: Global, object: &Object) -> Result<Vec<u8>, Memory>
    ensures bytes { IfOk result (λ bytes. bytes.items ≡ object_bytes object.now) }
    // They are read as this object again.
    ensures again { IfOk result (λ bytes. IsObject bytes.items object.now) }
{
    Ok(bytes_of(alloc, &object.parts)?)
}
