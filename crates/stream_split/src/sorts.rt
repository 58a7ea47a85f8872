//! What each kind of token is to the cut.
ghost use Rattle.std.specs.Prelude.{◌≡◌};
ghost use Rattle.stream_split.specs.Cut.{sort};

use m2_base::TokenKind;

/// What a token is to the cut.
#[derive(Clone, Copy)]
pub enum Sort {
    /// The end of the text.
    Stop,
    /// An identifier.
    Word,
    /// The word PROCEDURE.
    Procedure,
    /// A word that END closes.
    Opener,
    /// END.
    Closer,
    Left,
    Right,
    Semicolon,
    Other,
}

/// The sort of a kind of token.
pub fn sort_of(kind: TokenKind) -> Sort
    ensures { result ≡ sort kind }
{
    match kind {
        TokenKind::EndOfText => Sort::Stop,
        TokenKind::Identifier => Sort::Word,
        TokenKind::Procedure => Sort::Procedure,
        TokenKind::Record
        | TokenKind::Case
        | TokenKind::If
        | TokenKind::While
        | TokenKind::For
        | TokenKind::Loop
        | TokenKind::With => Sort::Opener,
        TokenKind::End => Sort::Closer,
        TokenKind::LeftParenthesis => Sort::Left,
        TokenKind::RightParenthesis => Sort::Right,
        TokenKind::Semicolon => Sort::Semicolon,
        _ => Sort::Other,
    }
}
