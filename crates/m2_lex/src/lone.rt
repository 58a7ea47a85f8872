//! The unit of one text.
ghost use Rattle.std.specs.Prelude.{◌≤◌, IfOk, IsOk, IsErrOf, length};
ghost use Rattle.m2_base.specs.Units.{IsIdentifier};
ghost use Rattle.m2_lex.specs.Faults.{HasTooMany};
ghost use Rattle.m2_lex.specs.LoneTexts.{IsLoneText};

use crate::lexer::{LexFault, lex};
use m2_base::{Names, Text, Texts};
use std::alloc::Global;

/// The unit of a main text alone, whose file has that name.
pub fn lone_text(alloc: Global, name: &[u8], text: &[u8]) -> Result<Texts, LexFault>
    requires named { IsIdentifier name.now }
    requires short_name { length name.now ≤ 1048576 }
    requires short { length text.now ≤ 1048576 }
    ensures unit { IfOk result (λ texts. IsLoneText name.now text.now texts) }

    // Too many tokens exactly where the text has more than 1,048,576 with the end, want of memory aside.
    ensures too_many { IsErrOf result LexFault.TooManyTokens → HasTooMany text.now }
    ensures not_too_many { IsOk result → HasTooMany text.now → ⊥ }
{
    let mut names = Names::new(alloc)?;
    let number = names.intern(alloc, name)?;
    let tokens = lex(alloc, text, &mut names)?;
    let _countable = names.count();
    let main = Text {
        name: number,
        definition: false,
        tokens,
    };
    let list = vec![in alloc; main]?;
    Ok(Texts::new(names, list, Vec::new(alloc), None))
}
