//! What can be wrong with a text: the one table of diagnostics.
ghost use Rattle.std.specs.Prelude.{◌≡◌, ◌==◌, find as spec_find};
ghost use Rattle.m2_base.specs.Diagnostics.{code_of, diagnostic_of, text_of};

use std::fmt;

/// A diagnostic. Its number is its code in a listing: `diagnostic as u8`.
#[derive(Clone, Copy)]
pub enum Diagnostic {
    CharacterNotAllowed = 10,
    CommentNotClosed = 11,
    StringNotClosed = 12,
    NumberTooLarge = 13,
    UnexpectedToken = 20,
    ClosingNameDiffers = 21,
    NoDefinitionText = 30,
    OtherModuleName = 31,
    CircularImports = 32,
    UnknownName = 40,
    UsedBefore = 41,
    DeclaredTwice = 42,
    StandardDeclared = 43,
    NotDeclaredThere = 44,
    NotAType = 45,
    NotAConstant = 46,
    OutOfRange = 47,
    NotAVariable = 48,
    WrongOperands = 49,
    NotAssignable = 50,
    NoSuchField = 51,
    NotAnArray = 52,
    NotAPointer = 53,
    NotAProcedure = 54,
    WrongCount = 55,
    WrongArgument = 56,
    NotBoolean = 57,
    WrongLabel = 58,
    ExitOutsideLoop = 59,
    WrongReturn = 60,
    WrongIndex = 61,
    TooManyCells = 62,
    NotAControlVariable = 63,
    NotImplemented = 64,
    HeadingDiffers = 65,
    NotAProcedureValue = 66,
    NotARecord = 67,
    ResultNotScalar = 68,
    TooManyConstants = 69,
}

/// All of them, by their codes.
const DIAGNOSTICS: [Diagnostic; 39] = [
    Diagnostic::CharacterNotAllowed,
    Diagnostic::CommentNotClosed,
    Diagnostic::StringNotClosed,
    Diagnostic::NumberTooLarge,
    Diagnostic::UnexpectedToken,
    Diagnostic::ClosingNameDiffers,
    Diagnostic::NoDefinitionText,
    Diagnostic::OtherModuleName,
    Diagnostic::CircularImports,
    Diagnostic::UnknownName,
    Diagnostic::UsedBefore,
    Diagnostic::DeclaredTwice,
    Diagnostic::StandardDeclared,
    Diagnostic::NotDeclaredThere,
    Diagnostic::NotAType,
    Diagnostic::NotAConstant,
    Diagnostic::OutOfRange,
    Diagnostic::NotAVariable,
    Diagnostic::WrongOperands,
    Diagnostic::NotAssignable,
    Diagnostic::NoSuchField,
    Diagnostic::NotAnArray,
    Diagnostic::NotAPointer,
    Diagnostic::NotAProcedure,
    Diagnostic::WrongCount,
    Diagnostic::WrongArgument,
    Diagnostic::NotBoolean,
    Diagnostic::WrongLabel,
    Diagnostic::ExitOutsideLoop,
    Diagnostic::WrongReturn,
    Diagnostic::WrongIndex,
    Diagnostic::TooManyCells,
    Diagnostic::NotAControlVariable,
    Diagnostic::NotImplemented,
    Diagnostic::HeadingDiffers,
    Diagnostic::NotAProcedureValue,
    Diagnostic::NotARecord,
    Diagnostic::ResultNotScalar,
    Diagnostic::TooManyConstants,
];

impl Diagnostic {
    /// Its code in a listing.
    pub fn code(self) -> u8
        ensures { result ≡ code_of self }
    {
        self as u8
    }

    /// The diagnostic of a code; None of any other number.
    #[tactic(auto, unfolding(crate::specs::Diagnostics::diagnostic_of))]
    pub fn of_code(code: u8) -> Option<Diagnostic>
        ensures { result ≡ diagnostic_of code }
    {
        find(&DIAGNOSTICS, code)
    }

    /// What a listing says of it.
    pub fn text(self) -> &'static str
        ensures { result.now ≡ text_of self }
    {
        match self {
            Diagnostic::CharacterNotAllowed => "character not allowed",
            Diagnostic::CommentNotClosed => "comment not closed",
            Diagnostic::StringNotClosed => "string not closed",
            Diagnostic::NumberTooLarge => "number too large",
            Diagnostic::UnexpectedToken => "unexpected token",
            Diagnostic::ClosingNameDiffers => "closing name differs",
            Diagnostic::NoDefinitionText => "no such definition text",
            Diagnostic::OtherModuleName => "module has another name",
            Diagnostic::CircularImports => "imports go in a circle",
            Diagnostic::UnknownName => "unknown name",
            Diagnostic::UsedBefore => "used before its declaration",
            Diagnostic::DeclaredTwice => "declared twice",
            Diagnostic::StandardDeclared => "standard name declared",
            Diagnostic::NotDeclaredThere => "not declared there",
            Diagnostic::NotAType => "not a type",
            Diagnostic::NotAConstant => "not a constant",
            Diagnostic::OutOfRange => "value out of range",
            Diagnostic::NotAVariable => "not a variable",
            Diagnostic::WrongOperands => "wrong operand types",
            Diagnostic::NotAssignable => "not assignable",
            Diagnostic::NoSuchField => "no such field",
            Diagnostic::NotAnArray => "not an array",
            Diagnostic::NotAPointer => "not a pointer",
            Diagnostic::NotAProcedure => "not a procedure",
            Diagnostic::WrongCount => "wrong number of arguments",
            Diagnostic::WrongArgument => "wrong argument",
            Diagnostic::NotBoolean => "not BOOLEAN",
            Diagnostic::WrongLabel => "wrong or repeated label",
            Diagnostic::ExitOutsideLoop => "EXIT outside LOOP",
            Diagnostic::WrongReturn => "wrong RETURN",
            Diagnostic::WrongIndex => "wrong index or set base",
            Diagnostic::TooManyCells => "too many cells",
            Diagnostic::NotAControlVariable => "not a control variable",
            Diagnostic::NotImplemented => "not implemented",
            Diagnostic::HeadingDiffers => "heading differs from the definition",
            Diagnostic::NotAProcedureValue => "not a procedure value",
            Diagnostic::NotARecord => "not a record",
            Diagnostic::ResultNotScalar => "result not scalar",
            Diagnostic::TooManyConstants => "too many imported constants",
        }
    }
}

/// The first of these with this code.
fn find(diagnostics: &[Diagnostic], code: u8) -> Option<Diagnostic>
    ensures { result ≡ spec_find (λ d. code_of d == code) diagnostics.now }
{
    for diagnostic in diagnostics {
        if diagnostic.code() == code {
            return Some(*diagnostic);
        }
    }
    None
}

impl fmt::Display for Diagnostic {
    fn fmt<W: fmt::Write>(&self, f: &mut fmt::Formatter<W>) -> fmt::Result {
        write!(f, "{} {}", self.code(), self.text())
    }
}
