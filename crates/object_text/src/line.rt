//! The lines of an object's text.
ghost use Rattle.std.specs.Prelude.{◌≡◌, ◌++◌, ◌∷◌, [], ℤ, OnOk, codes, decimal, length};
ghost use Rattle.std.specs.Fmt.{signed_decimal};
ghost use Rattle.object_file.specs.Views.{import_of, procedure_of};
ghost use Rattle.object_text.specs.Operands.{numbers_of};
ghost use Rattle.object_text.specs.Text.{field as spec_field, line_end, module_line as spec_module};
ghost use Rattle.object_text.specs.Text.{import_line as spec_import, export_line as spec_export};
ghost use Rattle.object_text.specs.Text.{procedure_line as spec_procedure, instr_line as spec_instr, numbers_text};

use crate::operands::{Numbers, operand_numbers};
use code_form::Instr;
use itoa::Buffer;
use m2_base::ProcCode;
use object_file::{ImportNote, Object};
use std::alloc::AllocError;

fn signed(line: &mut Vec<u8>, n: i64) -> Result<(), AllocError>
    ensures { OnOk result (line.new.items ≡ line.old.items ++ signed_decimal n) }
{
    let mut digits = Buffer::new();
    line.extend_from_slice(digits.format(n).as_bytes())
}

fn unsigned(line: &mut Vec<u8>, n: u64) -> Result<(), AllocError>
    ensures { OnOk result (line.new.items ≡ line.old.items ++ decimal n) }
{
    let mut digits = Buffer::new();
    line.extend_from_slice(digits.format(n).as_bytes())
}

/// A word and its number.
fn field(line: &mut Vec<u8>, word: &[u8], n: u64) -> Result<(), AllocError>
    ensures { OnOk result (line.new.items ≡ line.old.items ++ spec_field word.now n) }
{
    line.extend_from_slice(word)?;
    unsigned(line, n)
}

fn end(line: &mut Vec<u8>) -> Result<(), AllocError>
    ensures { OnOk result (line.new.items ≡ line.old.items ++ line_end) }
{
    line.extend_from_slice(b"\n")
}

/// Puts the module's line into the buffer.
pub(crate) fn module_line(line: &mut Vec<u8>, object: &Object) -> Result<(), AllocError>
    ensures { OnOk result (line.new.items ≡ spec_module object.now) }
{
    line.clear();
    line.extend_from_slice(b"module ")?;
    line.extend_from_slice(object.name())?;
    field(line, b" version ", object.version() as u64)?;
    field(line, b" cells ", object.cells() as u64)?;
    end(line)
}

/// Puts an import's line into the buffer.
pub(crate) fn import_line(line: &mut Vec<u8>, note: &ImportNote) -> Result<(), AllocError>
    ensures { OnOk result (line.new.items ≡ spec_import (import_of note.now)) }
{
    line.clear();
    line.extend_from_slice(b"import ")?;
    line.extend_from_slice(&note.name)?;
    field(line, b" cells ", note.cells as u64)?;
    field(line, b" headings ", note.headings.len() as u64)?;
    end(line)
}

/// Puts the line of an export with its number into the buffer.
pub(crate) fn export_line(
    line: &mut Vec<u8>,
    k: usize,
    export: (u32, u32, u32),
) -> Result<(), AllocError>
    ensures { OnOk result (line.new.items ≡ spec_export k export) }
{
    line.clear();
    field(line, b"export ", k as u64)?;
    field(line, b" procedure ", export.0 as u64)?;
    field(line, b" params ", export.1 as u64)?;
    field(line, b" result ", export.2 as u64)?;
    end(line)
}

/// Puts the line of a procedure with its number into the buffer.
pub(crate) fn procedure_line(line: &mut Vec<u8>, k: usize, own: &ProcCode) -> Result<(), AllocError>
    ensures { OnOk result (line.new.items ≡ spec_procedure k (procedure_of own.now)) }
{
    line.clear();
    field(line, b"procedure ", k as u64)?;
    field(line, b" outer ", own.outer as u64)?;
    field(line, b" params ", own.params as u64)?;
    field(line, b" result ", own.result as u64)?;
    field(line, b" locals ", own.locals as u64)?;
    field(line, b" high ", own.high as u64)?;
    field(line, b" data ", own.bytes.len() as u64)?;
    field(line, b" code ", own.code.len() as u64)?;
    end(line)
}

/// A number with a blank before it.
fn number(line: &mut Vec<u8>, n: i64) -> Result<(), AllocError>
    ensures { OnOk result (line.new.items ≡ line.old.items ++ numbers_text (n ∷ [])) }
{
    line.extend_from_slice(b" ")?;
    signed(line, n)
}

fn numbers(line: &mut Vec<u8>, all: Numbers) -> Result<(), AllocError>
    ensures { OnOk result (line.new.items ≡ line.old.items ++ numbers_text (numbers_of all)) }
{
    match all {
        Numbers::None => Ok(()),
        Numbers::One(a) => number(line, a),
        Numbers::Two(a, b) => {
            number(line, a)?;
            number(line, b)
        }
        Numbers::Three(a, b, c) => {
            number(line, a)?;
            number(line, b)?;
            number(line, c)
        }
    }
}

/// Puts the line of an instruction at a place into the buffer.
pub(crate) fn instr_line(line: &mut Vec<u8>, at: usize, instr: &Instr) -> Result<(), AllocError>
    ensures { OnOk result (line.new.items ≡ spec_instr at instr.now) }
{
    line.clear();
    unsigned(line, at as u64)?;
    line.extend_from_slice(b" ")?;
    line.extend_from_slice(instr.name().as_bytes())?;
    numbers(line, operand_numbers(instr))?;
    end(line)
}
