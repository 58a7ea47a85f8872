//! The classes of bytes.
ghost use Rattle.std.specs.Prelude.{◌≡◌};
ghost use Rattle.m2_base.specs.Letters.{is_digit as spec_digit, is_octal_digit as spec_octal_digit};
ghost use Rattle.m2_base.specs.Letters.{is_hexadecimal_digit as spec_hexadecimal_digit, is_letter as spec_letter};
ghost use Rattle.m2_base.specs.Letters.{goes_on as spec_goes_on, is_blank as spec_blank, is_quote as spec_quote};
ghost use Rattle.m2_base.specs.Letters.{stays_in as spec_stays_in};

pub fn is_digit(byte: u8) -> bool
    ensures { result ≡ spec_digit byte }
{
    byte.is_ascii_digit()
}

pub fn is_octal_digit(byte: u8) -> bool
    ensures { result ≡ spec_octal_digit byte }
{
    matches!(byte, b'0'..=b'7')
}

/// A digit or a letter A to F.
pub fn is_hexadecimal_digit(byte: u8) -> bool
    ensures { result ≡ spec_hexadecimal_digit byte }
{
    is_digit(byte) || matches!(byte, b'A'..=b'F')
}

/// A letter or the underscore.
pub fn is_letter(byte: u8) -> bool
    ensures { result ≡ spec_letter byte }
{
    byte.is_ascii_alphabetic() || byte == b'_'
}

/// What an identifier goes on with.
pub fn goes_on(byte: u8) -> bool
    ensures { result ≡ spec_goes_on byte }
{
    is_letter(byte) || is_digit(byte)
}

/// A blank, which separates tokens: bytes 9 to 13, and the space.
pub fn is_blank(byte: u8) -> bool
    ensures { result ≡ spec_blank byte }
{
    matches!(byte, 9..=13 | b' ')
}

/// A quote, which a string stands between a pair of.
pub fn is_quote(byte: u8) -> bool
    ensures { result ≡ spec_quote byte }
{
    byte == b'"' || byte == b'\''
}

/// What a string between these quotes may hold.
pub fn stays_in(quote: u8, byte: u8) -> bool
    ensures { result ≡ spec_stays_in quote byte }
{
    !(byte == quote || byte == b'\n' || byte == b'\r')
}
