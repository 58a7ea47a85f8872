//! Bytes as the files of cases have them: in printable ASCII with `\\` and `\x0a`, or in hexadecimal.
use anyhow::{Context, Result};
use std::alloc::{AllocError, Global};
use std::fmt::Write;

/// The byte of two digits.
fn byte_of(digits: &[u8]) -> Result<u8> {
    let text = std::str::from_utf8(digits)?;
    Ok(u8::from_str_radix(text, 16)?)
}

/// The bytes that hexadecimal digits stand for.
pub fn bytes_of(alloc: Global, digits: &str) -> Result<Vec<u8>> {
    let mut bytes = Vec::new(alloc);
    for pair in digits.as_bytes().chunks(2) {
        bytes.push(byte_of(pair)?)?;
    }
    Ok(bytes)
}

/// Bytes in hexadecimal.
pub fn digits_of(alloc: Global, bytes: &[u8]) -> Result<String, AllocError> {
    let mut digits = String::new(alloc);
    for byte in bytes {
        write!(digits, "{byte:02x}")?;
    }
    Ok(digits)
}

/// The bytes of a text with escapes.
pub fn unescaped(alloc: Global, text: &str) -> Result<Vec<u8>> {
    let mut bytes = Vec::new(alloc);
    let mut rest = text.as_bytes();
    for _ in 0..text.len() {
        rest = match rest {
            [] => break,
            [b'\\', b'x', high, low, after @ ..] => {
                bytes.push(byte_of(&[*high, *low])?)?;
                after
            }
            [b'\\', after @ ..] => {
                bytes.push(b'\\')?;
                after.split_first().context("an escape without an end")?.1
            }
            [byte, after @ ..] => {
                bytes.push(*byte)?;
                after
            }
        };
    }
    Ok(bytes)
}

/// Bytes with escapes.
pub fn escaped(alloc: Global, bytes: &[u8]) -> Result<String, AllocError> {
    let mut text = String::new(alloc);
    for byte in bytes {
        match *byte {
            b'\\' => text.push_str("\\\\")?,
            b' '..=b'~' => text.push(char::from(*byte))?,
            other => write!(text, "\\x{other:02x}")?,
        }
    }
    Ok(text)
}
