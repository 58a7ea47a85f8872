//! The kinds of token, and the one table of what spells them.
ghost use Rattle.std.specs.Prelude.{◌≡◌, find, map, option_map};
ghost use Rattle.std.specs.Str.{bytes_eq};
ghost use Rattle.m2_base.specs.Kinds.{kind_in as spec_kind_in, reserved_words, symbols, IsSpan};

/// A kind of token. Its number is that of the kind in the listing of tokens: `kind as u8`.
#[derive(Clone, Copy, Debug, PartialEq, Eq)]
pub enum TokenKind {
    /// The end of the text.
    EndOfText = 0,
    /// Its value is the number of its name.
    Identifier = 1,
    /// Its value is the number.
    Number = 2,
    /// A character constant in octal digits. Its value is the character.
    Character = 3,
    /// Its value is the number of the bytes between the quotes, as of a name.
    String = 4,
    /// A fault. Its value is the fault's code.
    Bad = 5,
    /// In a stream, where a procedure's block was cut out. Its value is the stream of the procedure.
    Cut = 6,
    /// The end of a procedure's stream.
    StreamEnd = 7,
    And = 10,
    Array = 11,
    Begin = 12,
    By = 13,
    Case = 14,
    Const = 15,
    Definition = 16,
    Div = 17,
    Do = 18,
    Else = 19,
    Elsif = 20,
    End = 21,
    Exit = 22,
    Export = 23,
    For = 24,
    From = 25,
    If = 26,
    Implementation = 27,
    Import = 28,
    In = 29,
    Loop = 30,
    Mod = 31,
    Module = 32,
    Not = 33,
    Of = 34,
    Or = 35,
    Pointer = 36,
    Procedure = 37,
    Qualified = 38,
    Record = 39,
    Repeat = 40,
    Return = 41,
    Set = 42,
    Then = 43,
    To = 44,
    Type = 45,
    Until = 46,
    Var = 47,
    While = 48,
    With = 49,
    Plus = 50,
    Minus = 51,
    Times = 52,
    Slash = 53,
    Becomes = 54,
    Period = 55,
    Comma = 56,
    Semicolon = 57,
    LeftParenthesis = 58,
    LeftBracket = 59,
    LeftBrace = 60,
    Arrow = 61,
    Equal = 62,
    Unequal = 63,
    Less = 64,
    Greater = 65,
    LessEqual = 66,
    GreaterEqual = 67,
    Ellipsis = 68,
    Colon = 69,
    RightParenthesis = 70,
    RightBracket = 71,
    RightBrace = 72,
    Bar = 73,
}

/// The reserved words, in the order of their kinds.
const RESERVED_WORDS: [(&[u8], TokenKind); 40] = [
    (b"AND", TokenKind::And),
    (b"ARRAY", TokenKind::Array),
    (b"BEGIN", TokenKind::Begin),
    (b"BY", TokenKind::By),
    (b"CASE", TokenKind::Case),
    (b"CONST", TokenKind::Const),
    (b"DEFINITION", TokenKind::Definition),
    (b"DIV", TokenKind::Div),
    (b"DO", TokenKind::Do),
    (b"ELSE", TokenKind::Else),
    (b"ELSIF", TokenKind::Elsif),
    (b"END", TokenKind::End),
    (b"EXIT", TokenKind::Exit),
    (b"EXPORT", TokenKind::Export),
    (b"FOR", TokenKind::For),
    (b"FROM", TokenKind::From),
    (b"IF", TokenKind::If),
    (b"IMPLEMENTATION", TokenKind::Implementation),
    (b"IMPORT", TokenKind::Import),
    (b"IN", TokenKind::In),
    (b"LOOP", TokenKind::Loop),
    (b"MOD", TokenKind::Mod),
    (b"MODULE", TokenKind::Module),
    (b"NOT", TokenKind::Not),
    (b"OF", TokenKind::Of),
    (b"OR", TokenKind::Or),
    (b"POINTER", TokenKind::Pointer),
    (b"PROCEDURE", TokenKind::Procedure),
    (b"QUALIFIED", TokenKind::Qualified),
    (b"RECORD", TokenKind::Record),
    (b"REPEAT", TokenKind::Repeat),
    (b"RETURN", TokenKind::Return),
    (b"SET", TokenKind::Set),
    (b"THEN", TokenKind::Then),
    (b"TO", TokenKind::To),
    (b"TYPE", TokenKind::Type),
    (b"UNTIL", TokenKind::Until),
    (b"VAR", TokenKind::Var),
    (b"WHILE", TokenKind::While),
    (b"WITH", TokenKind::With),
];

/// The symbols and their spellings, the common ones first, since a search goes from the first on.
const SYMBOLS: [(&[u8], TokenKind); 27] = [
    (b";", TokenKind::Semicolon),
    (b",", TokenKind::Comma),
    (b")", TokenKind::RightParenthesis),
    (b"(", TokenKind::LeftParenthesis),
    (b":=", TokenKind::Becomes),
    (b":", TokenKind::Colon),
    (b".", TokenKind::Period),
    (b"=", TokenKind::Equal),
    (b"+", TokenKind::Plus),
    (b"-", TokenKind::Minus),
    (b"*", TokenKind::Times),
    (b"[", TokenKind::LeftBracket),
    (b"]", TokenKind::RightBracket),
    (b"^", TokenKind::Arrow),
    (b"<", TokenKind::Less),
    (b">", TokenKind::Greater),
    (b"#", TokenKind::Unequal),
    (b"<=", TokenKind::LessEqual),
    (b">=", TokenKind::GreaterEqual),
    (b"..", TokenKind::Ellipsis),
    (b"|", TokenKind::Bar),
    (b"/", TokenKind::Slash),
    (b"{", TokenKind::LeftBrace),
    (b"}", TokenKind::RightBrace),
    (b"<>", TokenKind::Unequal),
    (b"&", TokenKind::And),
    (b"~", TokenKind::Not),
];

/// The kind of the reserved word that is spelled so. Only those with its first letter are looked at.
pub fn reserved_kind(word: &[u8]) -> Option<TokenKind>
    ensures { result ≡ spec_kind_in reserved_words word.now }
{
    if word.is_empty() || !word[0].is_ascii_uppercase() {
        return None;
    }
    let (start, end) = span_of(word[0]);
    kind_in(&RESERVED_WORDS[start..end], word)
}

/// From where to where the reserved words with this first letter stand in their table.
fn span_of(first: u8) -> (usize, usize)
    ensures { IsSpan first result.0 result.1 }
{
    match first {
        b'A' => (0, 2),
        b'B' => (2, 4),
        b'C' => (4, 6),
        b'D' => (6, 9),
        b'E' => (9, 14),
        b'F' => (14, 16),
        b'G' => (0, 0),
        b'H' => (0, 0),
        b'I' => (16, 20),
        b'J' => (0, 0),
        b'K' => (0, 0),
        b'L' => (20, 21),
        b'M' => (21, 23),
        b'N' => (23, 24),
        b'O' => (24, 26),
        b'P' => (26, 28),
        b'Q' => (28, 29),
        b'R' => (29, 32),
        b'S' => (32, 33),
        b'T' => (33, 36),
        b'U' => (36, 37),
        b'V' => (37, 38),
        b'W' => (38, 40),
        b'X' => (0, 0),
        b'Y' => (0, 0),
        b'Z' => (0, 0),
        _ => (0, 40),
    }
}

/// The kind of the symbol that is spelled so.
pub fn symbol_kind(spelling: &[u8]) -> Option<TokenKind>
    ensures { result ≡ spec_kind_in symbols spelling.now }
{
    kind_in(&SYMBOLS, spelling)
}

/// The kind that the table has for these bytes.
fn kind_in(table: &[(&[u8], TokenKind)], spelling: &[u8]) -> Option<TokenKind>
    ensures { result ≡ spec_kind_in (map (λ entry. (entry.0.now, entry.1)) table.now) spelling.now }
{
    find_kind(table, spelling)
}

/// The kind of the first entry with these bytes.
fn find_kind(table: &[(&[u8], TokenKind)], spelling: &[u8]) -> Option<TokenKind>
    ensures { result ≡ option_map (λ entry. entry.1) (find (λ entry. bytes_eq spelling.now entry.0.now) table.now) }
{
    table
        .iter()
        .find(|entry| spelling == entry.0)
        .map(|entry| entry.1)
}
