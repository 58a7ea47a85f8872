//! The definition of the library module.

/// The number of its name in every unit.
pub const LIBRARY_NAME: u32 = 27;

/// The text of InOut.def. It is never read from a shelf.
pub const LIBRARY_TEXT: &[u8] = b"DEFINITION MODULE InOut;
CONST EOL = 12C;
VAR Done: BOOLEAN;
PROCEDURE Read(VAR ch: CHAR);
PROCEDURE ReadInt(VAR x: INTEGER);
PROCEDURE ReadCard(VAR x: CARDINAL);
PROCEDURE Write(ch: CHAR);
PROCEDURE WriteString(s: ARRAY OF CHAR);
PROCEDURE WriteLn;
PROCEDURE WriteInt(x: INTEGER; n: CARDINAL);
PROCEDURE WriteCard(x, n: CARDINAL);
END InOut.
";
