//! The lines that commands over objects print.
ghost use Rattle.std.specs.Prelude.{◌≡◌, ◌++◌, ◌∷◌, [], IfOk, OnOk, codes, decimal, string_bytes};
ghost use Rattle.m2_link.specs.Refusals.{key_differs, missing, twice};
ghost use Rattle.stack_machine.specs.Numbers.{code_of};
ghost use Rattle.stack_machine.specs.declared.trap.Trap.{Trap};
ghost use Rattle.object_commands.specs.Failures.{line};
ghost use Rattle.object_commands.specs.Runs.{trap_word};

use itoa::Buffer;
use std::alloc::{AllocError, Global};

/// Appends a number.
fn number(line: &mut Vec<u8>, n: u64) -> Result<(), AllocError>
    ensures { OnOk result (line.new.items ≡ line.old.items ++ decimal n) }
{
    let mut digits = Buffer::new();
    line.extend_from_slice(digits.format(n).as_bytes())
}

/// Words and a name, as a line.
pub fn named_line(alloc: Global, words: &[u8], name: &[u8]) -> Result<Vec<u8>, AllocError>
    ensures { IfOk result (λ text. text.items ≡ line (words.now ++ name.now)) }
{
    let mut text = words.to_vec(alloc)?;
    text.extend_from_slice(name)?;
    text.extend_from_slice(b"\n")?;
    Ok(text)
}

/// The line of a module without an object.
pub fn no_object_line(alloc: Global, name: &str) -> Result<Vec<u8>, AllocError>
    ensures { IfOk result (λ text. text.items ≡ line (codes "no object " ++ name.now ++ codes ".m2o")) }
{
    let mut text = b"no object ".to_vec(alloc)?;
    text.extend_from_slice(name.as_bytes())?;
    text.extend_from_slice(b".m2o\n")?;
    Ok(text)
}

/// The line of a broken object.
pub fn broken_line(alloc: Global, name: &str, offset: u64, code: u8) -> Result<Vec<u8>, AllocError>
    ensures { IfOk result (λ text. text.items ≡ line (codes "bad object " ++ name.now ++ codes ".m2o at "
        ++ decimal offset ++ codes " code " ++ decimal code)) }
{
    let mut text = b"bad object ".to_vec(alloc)?;
    text.extend_from_slice(name.as_bytes())?;
    text.extend_from_slice(b".m2o at ")?;
    number(&mut text, offset)?;
    text.extend_from_slice(b" code ")?;
    number(&mut text, code as u64)?;
    text.extend_from_slice(b"\n")?;
    Ok(text)
}

/// The line of a program for which there are too few cells.
pub fn cells_line(alloc: Global, cells: u32) -> Result<Vec<u8>, AllocError>
    ensures { IfOk result (λ text. text.items ≡ line (codes "limit cells " ++ decimal cells)) }
{
    let mut text = b"limit cells ".to_vec(alloc)?;
    number(&mut text, cells as u64)?;
    text.extend_from_slice(b"\n")?;
    Ok(text)
}

/// The word for a trap's code.
fn trap_word_of(code: u8) -> &'static [u8]
    ensures { (trap : Trap) → code ≡ code_of trap → result.now ≡ trap_word trap }
{
    match code {
        1 => b"memory",
        2 => b"nil",
        3 => b"address",
        4 => b"index",
        5 => b"range",
        6 => b"divisor",
        7 => b"result",
        8 => b"case",
        _ => b"procedure",
    }
}

/// Where a program trapped: the module's name, its procedure, and the place in that one's code.
#[derive(Clone, Copy, Drop)]
pub struct Site<'a> {
    pub name: &'a [u8],
    pub procedure: u32,
    pub offset: u32,
}

/// The line of a trap.
pub fn trap_line(alloc: Global, code: u8, site: &Site) -> Result<Vec<u8>, AllocError>
    ensures { IfOk result (λ text. (trap : Trap) → code ≡ code_of trap → text.items
        ≡ line (codes "trap " ++ decimal code ++ codes " " ++ trap_word trap ++ codes " in " ++ site.now.name.now
        ++ codes " procedure " ++ decimal site.now.procedure ++ codes " at " ++ decimal site.now.offset)) }
{
    let mut text = b"trap ".to_vec(alloc)?;
    number(&mut text, code as u64)?;
    text.extend_from_slice(b" ")?;
    text.extend_from_slice(trap_word_of(code))?;
    text.extend_from_slice(b" in ")?;
    text.extend_from_slice(site.name)?;
    text.extend_from_slice(b" procedure ")?;
    number(&mut text, site.procedure as u64)?;
    text.extend_from_slice(b" at ")?;
    number(&mut text, site.offset as u64)?;
    text.extend_from_slice(b"\n")?;
    Ok(text)
}
