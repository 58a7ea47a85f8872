//! Printing an object.
ghost use Rattle.std.specs.Prelude.{◌≡◌, ◌≤◌, ◌++◌, ℕ, List, map, OnOk, OnErr, IsErrOf};
ghost use Rattle.m2_io.specs.Causes.{Rose};
ghost use Rattle.m2_io.specs.Written.{with_bytes, WritesPart};
ghost use Rattle.code_form.specs.declared.instr.Instr.{Instr as InstrOf};
ghost use Rattle.code_form.specs.Valid.{AreInstrs};
ghost use Rattle.object_file.specs.Views.{import_of, procedure_of};
ghost use Rattle.object_text.specs.Printed.{Prints, PrintsPart};
ghost use Rattle.object_text.specs.Text.{module_line as spec_module, import_lines, export_lines};
ghost use Rattle.object_text.specs.Text.{procedure_line as spec_procedure, instr_lines, AreLines, IsText};

use crate::fault::PrintFault;
use crate::line::{export_line, import_line, instr_line, module_line, procedure_line};
use code_form::decode;
use m2_base::ProcCode;
use m2_io::{Sink, write_all};
use object_file::{ImportNote, Object};
use std::alloc::Global;

fn print_module<P: Sink>(
    line: &mut Vec<u8>,
    object: &Object,
    print: &mut P,
) -> Result<(), PrintFault>
    ensures ok { OnOk result (P.written print.new ≡ with_bytes (P.written print.old) (spec_module object.now)) }
    ensures part { OnErr result (WritesPart (P.written print.old) (spec_module object.now) (P.written print.new)) }
    ensures failed { IsErrOf result PrintFault.Write → Rose (P.faults print.old) (P.faults print.new) }
    ensures later { P.faults print.old ≤ P.faults print.new }
{
    module_line(line, object)?;
    write_all(print, line)?;
    Ok(())
}

fn print_imports<P: Sink>(
    line: &mut Vec<u8>,
    notes: &[ImportNote],
    print: &mut P,
) -> Result<(), PrintFault>
    ensures ok { OnOk result
        (P.written print.new ≡ with_bytes (P.written print.old) (import_lines (map import_of notes.now))) }
    ensures part { OnErr result
        (WritesPart (P.written print.old) (import_lines (map import_of notes.now)) (P.written print.new)) }
    ensures failed { IsErrOf result PrintFault.Write → Rose (P.faults print.old) (P.faults print.new) }
    ensures later { P.faults print.old ≤ P.faults print.new }
{
    for note in notes {
        import_line(line, note)?;
        write_all(print, line)?;
    }
    Ok(())
}

fn print_exports<P: Sink>(
    line: &mut Vec<u8>,
    exports: &[(u32, u32, u32)],
    print: &mut P,
) -> Result<(), PrintFault>
    ensures ok { OnOk result (P.written print.new ≡ with_bytes (P.written print.old) (export_lines 0 exports.now)) }
    ensures part { OnErr result (WritesPart (P.written print.old) (export_lines 0 exports.now) (P.written print.new)) }
    ensures failed { IsErrOf result PrintFault.Write → Rose (P.faults print.old) (P.faults print.new) }
    ensures later { P.faults print.old ≤ P.faults print.new }
{
    for (k, export) in exports.iter().enumerate() {
        export_line(line, k, *export)?;
        write_all(print, line)?;
    }
    Ok(())
}

fn print_instrs<P: Sink>(line: &mut Vec<u8>, code: &[u8], print: &mut P) -> Result<(), PrintFault>
    requires { (is : List InstrOf) × AreInstrs code.now is }
    ensures ok { OnOk result ((is : List InstrOf) → AreInstrs code.now is
        → P.written print.new ≡ with_bytes (P.written print.old) (instr_lines 0 is)) }
    ensures part { OnErr result ((is : List InstrOf) → AreInstrs code.now is
        → WritesPart (P.written print.old) (instr_lines 0 is) (P.written print.new)) }
    ensures failed { IsErrOf result PrintFault.Write → Rose (P.faults print.old) (P.faults print.new) }
    ensures later { P.faults print.old ≤ P.faults print.new }
{
    let mut at = 0;
    while at < code.len() {
        let Some((instr, end)) = decode(code, at) else {
            unreachable!()
        };
        instr_line(line, at, &instr)?;
        write_all(print, line)?;
        at = end;
    }
    Ok(())
}

fn print_procedure<P: Sink>(
    line: &mut Vec<u8>,
    k: usize,
    own: &ProcCode,
    print: &mut P,
) -> Result<(), PrintFault>
    requires { (is : List InstrOf) × AreInstrs own.now.code.items is }
    ensures ok { OnOk result ((is : List InstrOf) → AreInstrs own.now.code.items is → P.written print.new
        ≡ with_bytes (P.written print.old) (spec_procedure k (procedure_of own.now) ++ instr_lines 0 is)) }
    ensures part { OnErr result ((is : List InstrOf) → AreInstrs own.now.code.items is → WritesPart
        (P.written print.old) (spec_procedure k (procedure_of own.now) ++ instr_lines 0 is) (P.written print.new)) }
    ensures failed { IsErrOf result PrintFault.Write → Rose (P.faults print.old) (P.faults print.new) }
    ensures later { P.faults print.old ≤ P.faults print.new }
{
    procedure_line(line, k, own)?;
    write_all(print, line)?;
    print_instrs(line, &own.code, print)
}

fn print_procedures<P: Sink>(
    line: &mut Vec<u8>,
    procedures: &[ProcCode],
    print: &mut P,
) -> Result<(), PrintFault>
    requires { (text : List ℕ) × AreLines 0 (map procedure_of procedures.now) text }
    ensures ok { OnOk result ((text : List ℕ) → AreLines 0 (map procedure_of procedures.now) text
        → P.written print.new ≡ with_bytes (P.written print.old) text) }
    ensures part { OnErr result ((text : List ℕ) → AreLines 0 (map procedure_of procedures.now) text
        → WritesPart (P.written print.old) text (P.written print.new)) }
    ensures failed { IsErrOf result PrintFault.Write → Rose (P.faults print.old) (P.faults print.new) }
    ensures later { P.faults print.old ≤ P.faults print.new }
{
    for (k, own) in procedures.iter().enumerate() {
        print_procedure(line, k, own, print)?;
    }
    Ok(())
}

/// Prints an object in words.
pub fn print_object<P: Sink>(
    alloc: Global,
    object: &Object,
    print: &mut P,
) -> Result<(), PrintFault>
    ensures ok { OnOk result (Prints object.now (P.written print.old) (P.written print.new)) }
    // After a fault a front of the text was written.
    ensures part { OnErr result (PrintsPart object.now (P.written print.old) (P.written print.new)) }
    // The sink fails only where it counts a fault.
    ensures failed { IsErrOf result PrintFault.Write → Rose (P.faults print.old) (P.faults print.new) }
    ensures later { P.faults print.old ≤ P.faults print.new }
{
    object.validity();
    let mut line = Vec::new(alloc);
    print_module(&mut line, object, print)?;
    print_imports(&mut line, object.imports(), print)?;
    print_exports(&mut line, object.exports(), print)?;
    print_procedures(&mut line, object.procedures(), print)
}
