//! What InOut reads.
ghost use Rattle.std.specs.Prelude.{◌≡◌, ◌≢◌, IsTrue, ◌≤◌, ◌<◌, ◌+◌, ◌-◌, ◌*◌, ◌^◌, ◌++◌, ℕ, List, IfOk, OnOk, OnErr};
ghost use Rattle.std.specs.Prelude.{IfSome, Some, None, Option, min, drop, slice_get, option_map, pos};
ghost use Rattle.std.specs.Option.{option_to_list};
ghost use Rattle.m2_io.specs.Causes.{Rose};
ghost use Rattle.stack_machine.specs.InOut.{is_blank as blank, is_digit as digit, is_sign as sign, byte_of, got_by};
ghost use Rattle.stack_machine.specs.InOut.{number_of, Reads};
ghost use Rattle.stack_machine.specs.Readings.{Taken, Moves, IsOver, budget, next_is, most, value_by, number_after};
ghost use Rattle.stack_machine.specs.Readings.{sign_at, digit_at, ahead_by, reading_by, IsReading, Passed, Signed};
ghost use Rattle.stack_machine.specs.Readings.{Digits};

use crate::arithmetic::fits;
use crate::op::{Kind, Service};
use m2_io::{Sink, Source, SourceError};

/// How many bytes one number takes at most.
const MOST_BYTES: u32 = 65536;

/// What reading gives: a value, if there is one, and the byte that was taken behind it.
#[derive(Clone, Copy)]
pub(crate) struct Reading {
    pub(crate) value: Option<i64>,
    pub(crate) kept: Option<u8>,
}

/// The next byte, if there is one.
fn next_byte<K: Source>(keys: &mut K) -> Result<Option<u8>, SourceError>
    ensures byte { IfOk result
        (λ o. IfSome (K.left keys.old) (λ l. (o ≡ slice_get l 0) × (K.left keys.new ≡ Some (drop 1 l)))) }
    ensures err { OnErr result (K.left keys.new ≡ K.left keys.old) }
    ensures failed { OnErr result (Rose (K.faults keys.old) (K.faults keys.new)) }
    ensures later { K.faults keys.old ≤ K.faults keys.new }
{
    let mut buffer = [0u8; 1];
    let count = keys.read(&mut buffer)?;
    if count == 0 {
        Ok(None)
    } else {
        Ok(Some(buffer[0]))
    }
}

/// The byte that comes next, and how many more may be taken.
#[derive(Clone, Copy)]
pub(crate) struct Ahead {
    pub(crate) byte: Option<u8>,
    pub(crate) more: u32,
}

/// Takes the byte that comes next.
#[tactic(auto, using(crate::proofs::Taking::told_no_more))]
fn advance<K: Source>(ahead: &mut Ahead, keys: &mut K) -> Result<(), SourceError>
    requires { ahead.old.byte ≢ None }
    ensures moves { OnOk result (IfSome (K.left keys.old) (λ l. Moves 1 ahead.old l ahead.new (K.left keys.new))) }
    ensures count { OnOk result (budget ahead.new + 1 ≡ budget ahead.old) }
    ensures err { OnErr result (Taken (K.left keys.old) (K.left keys.new)) }
    ensures failed { OnErr result (Rose (K.faults keys.old) (K.faults keys.new)) }
    ensures later { K.faults keys.old ≤ K.faults keys.new }
{
    if ahead.more == 0 {
        ahead.byte = None;
        return Ok(());
    }
    match next_byte(keys)? {
        Some(byte) => {
            ahead.byte = Some(byte);
            ahead.more -= 1;
        }
        None => ahead.byte = None,
    }
    Ok(())
}

fn is_blank(byte: u8) -> bool
    ensures { result ≡ blank byte }
{
    byte == 9 || byte == 10 || byte == 13 || byte == 32
}

fn is_sign(byte: u8) -> bool
    ensures { result ≡ sign byte }
{
    byte == 43 || byte == 45
}

fn is_digit(byte: u8) -> bool
    ensures { result ≡ digit byte }
{
    48 <= byte && byte <= 57
}

/// Whether the next byte is a blank.
fn next_is_blank(ahead: Ahead) -> bool
    ensures { result ≡ next_is blank ahead.byte }
{
    match ahead.byte {
        Some(byte) => is_blank(byte),
        None => false,
    }
}

/// Passes over blanks.
#[tactic(auto, using(crate::proofs::Taking::passing_starts, crate::proofs::Taking::passed_there))]
fn pass_blanks<K: Source>(ahead: &mut Ahead, keys: &mut K) -> Result<(), SourceError>
    ensures passed { OnOk result
        (IfSome (K.left keys.old) (λ l. IsOver ahead.old l → Passed blank ahead.old l ahead.new (K.left keys.new))) }
    ensures err { OnErr result
        (IfSome (K.left keys.old) (λ l. IsOver ahead.old l → (n : ℕ) × (K.left keys.new ≡ Some (drop n l)))) }
    ensures failed { OnErr result (Rose (K.faults keys.old) (K.faults keys.new)) }
    ensures later { K.faults keys.old ≤ K.faults keys.new }
{
    while next_is_blank(*ahead) {
        advance(ahead, keys)?;
    }
    Ok(())
}

/// The sign that comes next, where signs are taken.
fn next_sign(kind: Kind, ahead: Ahead) -> Option<u8>
    ensures { result ≡ sign_at kind ahead.byte }
{
    match (kind, ahead.byte) {
        (Kind::Integer, Some(byte)) if is_sign(byte) => Some(byte),
        _ => None,
    }
}

/// Takes a sign, and says whether it is -.
#[tactic(auto, using(crate::proofs::Taking::sign_there, crate::proofs::Taking::signed_none, crate::proofs::Taking::signed_some))]
fn take_sign<K: Source>(kind: Kind, ahead: &mut Ahead, keys: &mut K) -> Result<bool, SourceError>
    ensures signed { IfOk result (λ negative. IfSome (K.left keys.old)
        (λ l. IsOver ahead.old l → Signed kind negative ahead.old l ahead.new (K.left keys.new))) }
    ensures err { OnErr result
        (IfSome (K.left keys.old) (λ l. IsOver ahead.old l → (n : ℕ) × (K.left keys.new ≡ Some (drop n l)))) }
    ensures failed { OnErr result (Rose (K.faults keys.old) (K.faults keys.new)) }
    ensures later { K.faults keys.old ≤ K.faults keys.new }
{
    match next_sign(kind, *ahead) {
        Some(byte) => {
            advance(ahead, keys)?;
            Ok(byte == 45)
        }
        None => Ok(false),
    }
}

/// The number with one digit more.
fn with_digit(number: Option<u64>, byte: u8) -> Option<u64>
    requires number { IfSome number (λ n. n ≤ most) }
    requires digit { IsTrue (digit byte) }
    ensures value { result ≡ number_after number byte }
    ensures most { IfSome result (λ n. n ≤ most) }
{
    let n = number.unwrap_or(0);
    Some((n * 10 + (byte - 48) as u64).min(10_000_000_000))
}

/// The digit that comes next.
fn next_digit(ahead: Ahead) -> Option<u8>
    ensures { result ≡ digit_at ahead.byte }
{
    match ahead.byte {
        Some(byte) if is_digit(byte) => Some(byte),
        _ => None,
    }
}

/// Takes all digits, and gives their number, if there is one.
#[tactic(auto, using(crate::proofs::Taking::digits_start, crate::proofs::Taking::digit_there, crate::proofs::Taking::digit_is))]
fn take_digits<K: Source>(ahead: &mut Ahead, keys: &mut K) -> Result<Option<u64>, SourceError>
    ensures digits { IfOk result (λ number.
        IfSome (K.left keys.old) (λ l. IsOver ahead.old l → Digits number ahead.old l ahead.new (K.left keys.new))) }
    ensures most { IfOk result (λ number. IfSome number (λ n. n ≤ most)) }
    ensures err { OnErr result
        (IfSome (K.left keys.old) (λ l. IsOver ahead.old l → (n : ℕ) × (K.left keys.new ≡ Some (drop n l)))) }
    ensures failed { OnErr result (Rose (K.faults keys.old) (K.faults keys.new)) }
    ensures later { K.faults keys.old ≤ K.faults keys.new }
{
    let mut number = None;
    while let Some(byte) = next_digit(*ahead) {
        advance(ahead, keys)?;
        number = with_digit(number, byte);
    }
    Ok(number)
}

/// The number with its sign, where it is of this type.
fn value(kind: Kind, negative: bool, number: Option<u64>) -> Option<i64>
    requires { IfSome number (λ n. n ≤ most) }
    ensures { result ≡ value_by kind negative number }
{
    let n = number? as i64;
    let v = if negative { -n } else { n };
    if fits(kind, v) { Some(v) } else { None }
}

/// The first byte, which may have been kept.
#[tactic(auto, using(crate::proofs::Numbering::kept_first))]
fn first_byte<K: Source>(kept: Option<u8>, keys: &mut K) -> Result<Option<u8>, SourceError>
    ensures byte { IfOk result (λ o. IfSome (K.left keys.old) (λ l.
        (o ≡ slice_get (option_to_list kept ++ l) 0) × (K.left keys.new ≡ Some (drop 1 (option_to_list kept ++ l))))) }
    ensures err { OnErr result (K.left keys.new ≡ K.left keys.old) }
    ensures failed { OnErr result (Rose (K.faults keys.old) (K.faults keys.new)) }
    ensures later { K.faults keys.old ≤ K.faults keys.new }
{
    match kept {
        Some(byte) => Ok(Some(byte)),
        None => next_byte(keys),
    }
}

fn ahead_of(byte: Option<u8>) -> Ahead
    ensures { result ≡ ahead_by byte }
{
    match byte {
        None => Ahead {
            byte: None,
            more: MOST_BYTES,
        },
        Some(byte) => Ahead {
            byte: Some(byte),
            more: MOST_BYTES - 1,
        },
    }
}

/// The reading where so much of a number was taken.
fn number_reading(kind: Kind, negative: bool, number: Option<u64>, ahead: Ahead) -> Reading
    requires { IfSome number (λ n. n ≤ most) }
    ensures { result ≡ reading_by kind negative number ahead }
{
    let value = if ahead.byte.is_none() && ahead.more == 0 {
        None
    } else {
        value(kind, negative, number)
    };
    Reading {
        value,
        kept: ahead.byte,
    }
}

/// Reads a number.
#[tactic(auto, using(crate::proofs::Written::rose_from))]
fn read_number<K: Source>(
    kind: Kind,
    kept: Option<u8>,
    keys: &mut K,
) -> Result<Reading, SourceError>
    ensures ok { IfOk result (λ r.
        IfSome (K.left keys.old) (λ l. IsReading r (number_of kind (option_to_list kept ++ l)) (K.left keys.new))) }
    ensures err { OnErr result (Taken (K.left keys.old) (K.left keys.new)) }
    ensures failed { OnErr result (Rose (K.faults keys.old) (K.faults keys.new)) }
    ensures later { K.faults keys.old ≤ K.faults keys.new }
{
    let byte = first_byte(kept, keys)?;
    let mut ahead = ahead_of(byte);
    pass_blanks(&mut ahead, keys)?;
    let negative = take_sign(kind, &mut ahead, keys)?;
    let number = take_digits(&mut ahead, keys)?;
    Ok(number_reading(kind, negative, number, ahead))
}

/// Reads what a procedure reads, once the sink keeps nothing back.
pub(crate) fn read<P: Sink, K: Source>(
    service: Service,
    kept: Option<u8>,
    print: &P,
    keys: &mut K,
) -> Result<Reading, SourceError>
    requires handed { Reads service → P.kept print.now ≡ 0 }
    ensures ok { IfOk result
        (λ r. IfSome (K.left keys.old) (λ l. IsReading r (got_by service kept l) (K.left keys.new))) }
    ensures err { OnErr result (Taken (K.left keys.old) (K.left keys.new)) }
    ensures reads { OnErr result (Reads service) }
    ensures failed { OnErr result (Rose (K.faults keys.old) (K.faults keys.new)) }
    ensures later { K.faults keys.old ≤ K.faults keys.new }
{
    match service {
        Service::Read => read_byte(kept, keys),
        Service::ReadInt => read_number(Kind::Integer, kept, keys),
        Service::ReadCard => read_number(Kind::Cardinal, kept, keys),
        Service::Write => Ok(none_read(kept)),
        Service::WriteString => Ok(none_read(kept)),
        Service::WriteLn => Ok(none_read(kept)),
        Service::WriteInt => Ok(none_read(kept)),
        Service::WriteCard => Ok(none_read(kept)),
    }
}

fn none_read(kept: Option<u8>) -> Reading
    ensures value { result.value ≡ None }
    ensures kept { result.kept ≡ kept }
{
    Reading { value: None, kept }
}

/// Reads one byte.
fn read_byte<K: Source>(kept: Option<u8>, keys: &mut K) -> Result<Reading, SourceError>
    ensures ok { IfOk result
        (λ r. IfSome (K.left keys.old) (λ l. IsReading r (byte_of (option_to_list kept ++ l)) (K.left keys.new))) }
    ensures err { OnErr result (Taken (K.left keys.old) (K.left keys.new)) }
    ensures failed { OnErr result (Rose (K.faults keys.old) (K.faults keys.new)) }
    ensures later { K.faults keys.old ≤ K.faults keys.new }
{
    let byte = first_byte(kept, keys)?;
    Ok(Reading {
        value: number_of_byte(byte),
        kept: None,
    })
}

fn number_of_byte(byte: Option<u8>) -> Option<i64>
    ensures { result ≡ option_map pos byte }
{
    match byte {
        Some(byte) => Some(byte as i64),
        None => None,
    }
}
