//! The limits that a module can pass.
ghost use Rattle.std.specs.Prelude.{◌≡◌};
ghost use Rattle.module_outcome.specs.Lines.{line};
ghost use Rattle.module_outcome.specs.Limits.{limit_text};

/// A quantity that has a limit.
#[derive(Clone, Copy)]
pub enum Limit {
    /// Of one text.
    TextBytes,
    /// Of one text, with its end.
    Tokens,
    UnitTokens,
    /// Definition modules.
    Texts,
    Procedures,
    /// How many procedures lie round a place.
    StaticLevel,
    /// How many statements, types, field lists and factors lie round a token.
    Nesting,
}

/// What is printed of a limit that is passed.
pub(crate) fn limit_line(limit: Limit) -> &'static [u8]
    ensures { result.now ≡ line (limit_text limit) }
{
    match limit {
        Limit::TextBytes => b"limit text bytes 1048576\n",
        Limit::Tokens => b"limit tokens 1048576\n",
        Limit::UnitTokens => b"limit unit tokens 4194304\n",
        Limit::Texts => b"limit texts 256\n",
        Limit::Procedures => b"limit procedures 16384\n",
        Limit::StaticLevel => b"limit static level 16\n",
        Limit::Nesting => b"limit nesting 100\n",
    }
}
