//! The text of the module Big.
ghost use Rattle.std.specs.Prelude.{◌≡◌, ◌++◌, ◌≤◌, IfOk, OnOk, string_bytes};
ghost use Rattle.std.specs.List.{flat_map};
ghost use Rattle.module_gen.specs.BigModule.{numbers, procedure_text, call_text, text_of};

use m2_base::Memory;
use std::alloc::{AllocError, Global};

/// The text of the module Big of so many procedures, in bytes.
pub fn big(alloc: Global, procedures: u32) -> Result<Vec<u8>, Memory>
    requires { procedures ≤ 16384 }
    ensures { IfOk result (λ text. text.items ≡ text_of procedures) }
{
    let mut text = String::from_str(alloc, "MODULE Big;\nVAR v: INTEGER;\n")?;
    push_procedures(&mut text, procedures)?;
    text.push_str("VAR w: INTEGER;\nBEGIN\n")?;
    push_calls(&mut text, procedures)?;
    text.push_str("END Big.\n")?;
    Ok(text.into_bytes())
}

fn push_procedures(text: &mut String, procedures: u32) -> Result<(), AllocError>
    requires { procedures ≤ 16384 }
    ensures { OnOk result (string_bytes text.new
        ≡ string_bytes text.old ++ flat_map procedure_text (numbers procedures)) }
{
    for number in 1..procedures + 1 {
        push_procedure(text, number)?;
    }
    Ok(())
}

/// A procedure that adds `w` to `v`.
fn push_procedure(text: &mut String, number: u32) -> Result<(), AllocError>
    ensures { OnOk result (string_bytes text.new ≡ string_bytes text.old ++ procedure_text number) }
{
    writeln!(text, "PROCEDURE p{number};")?;
    writeln!(text, "BEGIN v := v + w END p{number};")?;
    Ok(())
}

fn push_calls(text: &mut String, procedures: u32) -> Result<(), AllocError>
    requires { procedures ≤ 16384 }
    ensures { OnOk result (string_bytes text.new
        ≡ string_bytes text.old ++ flat_map call_text (numbers procedures)) }
{
    for number in 1..procedures + 1 {
        writeln!(text, "p{number};")?;
    }
    Ok(())
}
