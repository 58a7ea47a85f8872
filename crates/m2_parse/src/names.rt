//! Reading names.
ghost use Rattle.m2_parse.specs.Reading.{Gives};
ghost use Rattle.m2_parse.specs.ReadNames.{ident_at, idents_at, second_at, qual_at};

use crate::faults::ReadFault;
use crate::lists::listed;
use crate::tokens::Tokens;
use m2_base::{Ident, Qual, TokenKind};
use std::alloc::Global;

#[tactic(auto, unfolding(crate::specs::ReadNames::ident_at))]
pub fn ident(tokens: &mut Tokens) -> Result<Ident, ReadFault>
    ensures { Gives (λ x. (x, tokens.new.list.now)) result (ident_at tokens.old.list.now) }
{
    let t = tokens.expect(TokenKind::Identifier)?;
    let name = t.value as u32;
    Ok(Ident { name, at: t.at })
}

/// Idents = ident {"," ident}
pub fn idents(alloc: Global, tokens: &mut Tokens) -> Result<Vec<Ident>, ReadFault>
    ensures { Gives (λ x. (x.items, tokens.new.list.now)) result (idents_at tokens.old.list.now) }
{
    listed!(alloc, tokens, TokenKind::Comma, ident(tokens))
}

/// ["." ident]
#[tactic(auto, unfolding(crate::specs::ReadNames::second_at))]
fn second_name(tokens: &mut Tokens) -> Result<Option<Ident>, ReadFault>
    ensures { Gives (λ x. (x, tokens.new.list.now)) result (second_at tokens.old.list.now) }
{
    let Some(_) = tokens.next_if(TokenKind::Period) else {
        return Ok(None);
    };
    let name = ident(tokens)?;
    Ok(Some(name))
}

/// Qual = ident ["." ident]
#[tactic(auto, unfolding(crate::specs::ReadNames::qual_at))]
pub fn qual(tokens: &mut Tokens) -> Result<Qual, ReadFault>
    ensures { Gives (λ x. (x, tokens.new.list.now)) result (qual_at tokens.old.list.now) }
{
    let first = ident(tokens)?;
    let second = second_name(tokens)?;
    Ok(Qual { first, second })
}
