//! A table of three scopes, over a unit that has no finished rows, so that any may be shown.
ghost use Rattle.std.specs.Prelude.{◌≡◌, ◌^◌, ◌<◌, true, IfOk, IfSome};
ghost use Rattle.m2_base.specs.declared.kind.TokenKind.TheVariants.{Bad};
ghost use Rattle.scope_table.specs.Seats.{AreFirst, IsFirst};
ghost use Rattle.search_tests.specs.Named.{IsTable, IsUnread, first_kind};

use m2_base::{MOST_TEXT_BYTES, Memory, STANDARD_ROWS, Texts, Token, TokenKind};
use m2_lex::lone_text;
use scope_table::{ScopeTable, TableSeat};
use std::alloc::Global;

/// The unit of a text that begins with a fault, and has so many names behind it.
pub(crate) fn unit_with(alloc: Global, names: u32) -> Result<Texts, Memory>
    ensures { IfOk result (λ texts. IsUnread texts) }
{
    let mut text = b"!".to_vec(alloc)?;
    for number in 0..names {
        let name = format!(in alloc; " x{number}")?;
        text.extend_from_slice(name.as_bytes())?;
    }
    if text.len() > MOST_TEXT_BYTES {
        return Err(Memory);
    }
    let Ok(texts) = lone_text(alloc, b"M", text.as_slice()) else {
        return Err(Memory);
    };
    if !begins_with_fault(&texts.main().tokens) {
        return Err(Memory);
    }
    Ok(texts)
}

/// Whether the first token is a fault.
fn begins_with_fault(tokens: &[Token]) -> bool
    ensures { result ≡ true → first_kind tokens.now ≡ Bad }
{
    match tokens {
        [
            Token {
                kind: TokenKind::Bad,
                ..
            },
            ..
        ] => true,
        _ => false,
    }
}

/// The table, with the seats of scope 1 and of scope 2.
#[derive(Drop)]
pub(crate) struct Opened {
    pub table: ScopeTable,
    pub one: TableSeat,
    pub two: TableSeat,
}

/// A table for these texts. Scope 1 has room for so many rows.
pub(crate) fn open(alloc: Global, texts: &Texts, room: u32) -> Result<Opened, Memory>
    requires { room < 2 ^ 31 }
    ensures table { IfOk result (λ opened. IsTable opened.table texts.now room) }
    ensures one { IfOk result (λ opened. IsFirst opened.table 1 opened.one) }
    ensures two { IfOk result (λ opened. IsFirst opened.table 2 opened.two) }
{
    let sizes = [STANDARD_ROWS as u32, room, 1];
    let (table, seats) = ScopeTable::open(alloc, texts, &sizes)?;
    let Some((one, two)) = last_two(&table, seats) else {
        return Err(Memory);
    };
    Ok(Opened { table, one, two })
}

/// The seats of the scopes 1 and 2.
fn last_two(_table: &ScopeTable, mut seats: Vec<TableSeat>) -> Option<(TableSeat, TableSeat)>
    requires { AreFirst _table.now seats.items 3 }
    ensures { IfSome result (λ r. IsFirst _table.now 1 r.0 × IsFirst _table.now 2 r.1) }
{
    let two = seats.pop()?;
    let one = seats.pop()?;
    Some((one, two))
}
