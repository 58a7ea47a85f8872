//! What InOut prints.
ghost use Rattle.std.specs.Prelude.{◌≡◌, ◌≤◌, ◌<◌, ◌^◌, ◌∷◌, [], OnOk, OnErr, IfOk, true, ℤ, pos, length, replicate};
ghost use Rattle.std.specs.Prelude.{decimal};
ghost use Rattle.m2_io.specs.Causes.{Rose};
ghost use Rattle.m2_io.specs.Written.{with_bytes, WritesPart};
ghost use Rattle.stack_machine.specs.Able.{HasRoom};
ghost use Rattle.stack_machine.specs.InOut.{char_at as character, IsThere, number_digits, text_at, text_from, padded};
ghost use Rattle.stack_machine.specs.InOut.{number_text, string_of, printed, params_of, is_width, can_go_on, Reads};
ghost use Rattle.stack_machine.specs.Numbers.{low_bits};
ghost use Rattle.stack_machine.specs.Operands.{top_of};
ghost use Rattle.stack_machine.specs.State.{state_of};

use crate::core_state::Core;
use crate::memory::count;
use crate::op::Service;
use crate::stack::operand;
use m2_io::{Sink, SinkError, write_all};

/// The low 8 bits.
fn low_byte(v: i64) -> u8
    ensures { result ≡ low_bits 8 v }
{
    v.rem_euclid(256) as u8
}

fn write_byte<P: Sink>(print: &mut P, byte: u8) -> Result<(), SinkError>
    ensures ok { OnOk result (P.written print.new ≡ with_bytes (P.written print.old) (byte ∷ [])) }
    ensures err { OnErr result (WritesPart (P.written print.old) (byte ∷ []) (P.written print.new)) }
    ensures failed { OnErr result (Rose (P.faults print.old) (P.faults print.new)) }
    ensures later { P.faults print.old ≤ P.faults print.new }
{
    write_all(print, &[byte])
}

/// What a cell of a text has.
#[derive(Clone, Copy)]
pub(crate) enum Char {
    /// There is no such cell.
    Missing,
    End,
    Byte(u8),
}

/// What a cell of a text has.
fn char_at(cells: &[i64], at: usize) -> Char
    ensures value { result ≡ character cells.now at }
    ensures there { IsThere result at cells.now }
{
    if at == 0 || at >= cells.len() {
        return Char::Missing;
    }
    let v = cells[at];
    if v == 0 {
        Char::End
    } else {
        Char::Byte(low_byte(v))
    }
}

/// Writes the characters in n cells from a place on, up to the first that is 0, and says whether the cells were there.
#[tactic(auto, using(crate::proofs::Written::rose_from))]
fn write_text<P: Sink>(print: &mut P, cells: &[i64], n: u64, at: usize) -> Result<bool, SinkError>
    requires { length cells.now < 2 ^ 32 }
    ensures whole { IfOk result (λ whole. whole ≡ (text_at cells.now n at).whole) }
    ensures ok { OnOk result (P.written print.new ≡ with_bytes (P.written print.old) (text_at cells.now n at).bytes) }
    ensures err { OnErr result
        (WritesPart (P.written print.old) (text_at cells.now n at).bytes (P.written print.new)) }
    ensures failed { OnErr result (Rose (P.faults print.old) (P.faults print.new)) }
    ensures later { P.faults print.old ≤ P.faults print.new }
{
    let mut next = at;
    for _ in 0..n {
        match char_at(cells, next) {
            Char::Missing => return Ok(false),
            Char::End => return Ok(true),
            Char::Byte(byte) => {
                write_byte(print, byte)?;
                next += 1;
            }
        }
    }
    Ok(true)
}

/// The text of n cells from an address on.
fn write_from<P: Sink>(
    print: &mut P,
    cells: &[i64],
    n: u64,
    address: i64,
) -> Result<bool, SinkError>
    requires { length cells.now < 2 ^ 32 }
    ensures whole { IfOk result (λ whole. whole ≡ (text_from cells.now n address).whole) }
    ensures ok { OnOk result
        (P.written print.new ≡ with_bytes (P.written print.old) (text_from cells.now n address).bytes) }
    ensures err { OnErr result
        (WritesPart (P.written print.old) (text_from cells.now n address).bytes (P.written print.new)) }
    ensures failed { OnErr result (Rose (P.faults print.old) (P.faults print.new)) }
    ensures later { P.faults print.old ≤ P.faults print.new }
{
    if address < 0 {
        return Ok(n == 0);
    }
    write_text(print, cells, n, address.unsigned_abs() as usize)
}

/// Writes a number's decimal digits.
#[tactic(auto, using(crate::proofs::Written::digit_all, crate::proofs::Written::digits_all, crate::proofs::Written::digits_part, crate::proofs::Written::digits_front, crate::proofs::Written::rose_from))]
fn write_digits<P: Sink>(print: &mut P, n: u64) -> Result<(), SinkError>
    ensures ok { OnOk result (P.written print.new ≡ with_bytes (P.written print.old) (decimal n)) }
    ensures err { OnErr result (WritesPart (P.written print.old) (decimal n) (P.written print.new)) }
    ensures failed { OnErr result (Rose (P.faults print.old) (P.faults print.new)) }
    ensures later { P.faults print.old ≤ P.faults print.new }
{
    if n < 10 {
        return write_byte(print, b'0' + n as u8);
    }
    write_digits(print, n / 10)?;
    write_byte(print, b'0' + (n % 10) as u8)
}

/// How many digits a number has.
#[tactic(auto, using(crate::proofs::Written::one_digit, crate::proofs::Written::more_digits))]
fn digit_count(n: u64) -> usize
    ensures value { result ≡ length (decimal n) }
    ensures small { result ≤ 20 }
{
    if n < 10 { 1 } else { digit_count(n / 10) + 1 }
}

/// How many bytes a number has, its sign counted.
#[tactic(auto, unfolding(crate::specs::InOut::number_digits))]
fn width(v: i64) -> usize
    ensures value { result ≡ length (number_digits v) }
    ensures small { result ≤ 21 }
{
    let digits = digit_count(v.unsigned_abs());
    if v < 0 { digits + 1 } else { digits }
}

#[tactic(auto, using(crate::proofs::Written::all_back, crate::proofs::Written::part_back, crate::proofs::Written::part_front, crate::proofs::Written::rose_from, crate::proofs::Written::sign_back), unfolding(crate::specs::InOut::number_digits))]
fn write_signed<P: Sink>(print: &mut P, v: i64) -> Result<(), SinkError>
    ensures ok { OnOk result (P.written print.new ≡ with_bytes (P.written print.old) (number_digits v)) }
    ensures err { OnErr result (WritesPart (P.written print.old) (number_digits v) (P.written print.new)) }
    ensures failed { OnErr result (Rose (P.faults print.old) (P.faults print.new)) }
    ensures later { P.faults print.old ≤ P.faults print.new }
{
    if v >= 0 {
        return write_digits(print, v.unsigned_abs());
    }
    write_byte(print, b'-')?;
    write_digits(print, v.unsigned_abs())
}

#[tactic(auto, using(crate::proofs::Written::none_written, crate::proofs::Written::blanks_go))]
fn write_blanks<P: Sink>(print: &mut P, n: usize) -> Result<(), SinkError>
    ensures ok { OnOk result (P.written print.new ≡ with_bytes (P.written print.old) (replicate n 32)) }
    ensures err { OnErr result (WritesPart (P.written print.old) (replicate n 32) (P.written print.new)) }
    ensures failed { OnErr result (Rose (P.faults print.old) (P.faults print.new)) }
    ensures later { P.faults print.old ≤ P.faults print.new }
{
    for _ in 0..n {
        write_byte(print, b' ')?;
    }
    Ok(())
}

/// Writes a number with blanks before it, up to n bytes in all.
#[tactic(auto, using(crate::proofs::Written::all_back, crate::proofs::Written::part_back, crate::proofs::Written::part_front, crate::proofs::Written::rose_from), unfolding(crate::specs::InOut::padded))]
fn write_padded<P: Sink>(print: &mut P, v: i64, n: i64) -> Result<(), SinkError>
    ensures ok { OnOk result (P.written print.new ≡ with_bytes (P.written print.old) (padded n (number_digits v))) }
    ensures err { OnErr result (WritesPart (P.written print.old) (padded n (number_digits v)) (P.written print.new)) }
    ensures failed { OnErr result (Rose (P.faults print.old) (P.faults print.new)) }
    ensures later { P.faults print.old ≤ P.faults print.new }
{
    if n <= 0 {
        return write_signed(print, v);
    }
    write_blanks(print, (n.unsigned_abs() as usize).saturating_sub(width(v)))?;
    write_signed(print, v)
}

/// Writes a number, unless its width is too large, and says whether it isn't.
fn write_number<P: Sink>(print: &mut P, core: &Core) -> Result<bool, SinkError>
    requires there { 2 ≤ core.now.sp }
    requires room { HasRoom core.now }
    ensures width { IfOk result (λ ok. ok ≡ is_width (top_of 0 (state_of core.now).operands)) }
    ensures ok { OnOk result
        (P.written print.new ≡ with_bytes (P.written print.old) (number_text (state_of core.now).operands)) }
    ensures err { OnErr result
        (WritesPart (P.written print.old) (number_text (state_of core.now).operands) (P.written print.new)) }
    ensures failed { OnErr result (Rose (P.faults print.old) (P.faults print.new)) }
    ensures later { P.faults print.old ≤ P.faults print.new }
{
    let n = operand(core, 0);
    if n > 4096 {
        return Ok(false);
    }
    write_padded(print, operand(core, 1), n)?;
    Ok(true)
}

/// Writes the text of an open array.
fn write_string<P: Sink>(print: &mut P, core: &Core) -> Result<bool, SinkError>
    requires there { 2 ≤ core.now.sp }
    requires room { HasRoom core.now }
    ensures whole { IfOk result
        (λ whole. whole ≡ (string_of core.now.cells.items (state_of core.now).operands).whole) }
    ensures ok { OnOk result (P.written print.new
        ≡ with_bytes (P.written print.old) (string_of core.now.cells.items (state_of core.now).operands).bytes) }
    ensures err { OnErr result (WritesPart (P.written print.old)
        (string_of core.now.cells.items (state_of core.now).operands).bytes (P.written print.new)) }
    ensures failed { OnErr result (Rose (P.faults print.old) (P.faults print.new)) }
    ensures later { P.faults print.old ≤ P.faults print.new }
{
    let n = count(operand(core, 0));
    write_from(print, &core.cells, n, operand(core, 1))
}

/// Hands on what the sink keeps back, before a procedure reads.
fn hand_on<P: Sink>(print: &mut P) -> Result<bool, SinkError>
    ensures goes { IfOk result (λ ok. ok ≡ true) }
    ensures kept { OnOk result (P.kept print.new ≡ 0) }
    ensures written { P.written print.new ≡ with_bytes (P.written print.old) [] }
    ensures failed { OnErr result (Rose (P.faults print.old) (P.faults print.new)) }
    ensures later { P.faults print.old ≤ P.faults print.new }
{
    print.flush()?;
    Ok(true)
}

/// Writes what a procedure prints, or hands on what the sink keeps back where the procedure reads;
/// and says whether it can go on.
pub(crate) fn print<P: Sink>(
    service: Service,
    print: &mut P,
    core: &Core,
) -> Result<bool, SinkError>
    requires there { params_of service ≤ core.now.sp }
    requires room { HasRoom core.now }
    ensures goes { IfOk result (λ ok. ok ≡ can_go_on service core.now.cells.items (state_of core.now).operands) }
    ensures ok { OnOk result (P.written print.new
        ≡ with_bytes (P.written print.old) (printed service core.now.cells.items (state_of core.now).operands)) }
    ensures err { OnErr result (WritesPart (P.written print.old)
        (printed service core.now.cells.items (state_of core.now).operands) (P.written print.new)) }
    ensures handed { OnOk result (Reads service → P.kept print.new ≡ 0) }
    ensures failed { OnErr result (Rose (P.faults print.old) (P.faults print.new)) }
    ensures later { P.faults print.old ≤ P.faults print.new }
{
    match service {
        Service::Write => {
            write_byte(print, low_byte(operand(core, 0)))?;
            Ok(true)
        }
        Service::WriteLn => {
            write_byte(print, b'\n')?;
            Ok(true)
        }
        Service::WriteString => write_string(print, core),
        Service::WriteInt => write_number(print, core),
        Service::WriteCard => write_number(print, core),
        Service::Read | Service::ReadInt | Service::ReadCard => hand_on(print),
    }
}
