//! The four lists of the grammar, each a loop that reads as long as the next token goes on with it.
ghost use Rattle.std.specs.Prelude.{◌≡◌, [], ◌∷◌, IfOk};

use std::alloc::{AllocError, Global};

/// A list of one item, with room for no other: most lists are short, and a first push would make room for four.
pub fn list_of<T: Drop>(alloc: Global, first: T) -> Result<Vec<T>, AllocError>
    ensures { IfOk result (λ v. v.items ≡ first ∷ []) }
{
    let mut items = Vec::with_capacity(alloc, 1)?;
    items.push(first)?;
    Ok(items)
}

/// item {separator item}
macro_rules! listed {
    ($alloc:ident, $tokens:ident, $separator:expr, $item:expr) => {{
        let first = $item?;
        let mut items = $crate::lists::list_of($alloc, first)?;
        for _ in 0..$tokens.list.len() {
            let Some(_) = $tokens.next_if($separator) else {
                return Ok(items);
            };
            let item = $item?;
            items.push(item)?;
        }
        Ok(items)
    }};
}

/// The same, where an item is a list itself.
macro_rules! all_listed {
    ($tokens:ident, $separator:expr, $item:expr) => {{
        let mut items = $item?;
        for _ in 0..$tokens.list.len() {
            let Some(_) = $tokens.next_if($separator) else {
                return Ok(items);
            };
            let mut more = $item?;
            items.append(&mut more)?;
        }
        Ok(items)
    }};
}

/// {item}, as long as one begins
macro_rules! repeated {
    ($alloc:ident, $tokens:ident, $begins:expr, $item:expr) => {{
        let mut items = Vec::new($alloc);
        for _ in 0..$tokens.list.len() {
            if !$begins {
                return Ok(items);
            }
            let item = $item?;
            items.push(item)?;
        }
        Ok(items)
    }};
}

/// The same, where an item is a list itself.
macro_rules! all_repeated {
    ($alloc:ident, $tokens:ident, $begins:expr, $item:expr) => {{
        let mut items = Vec::new($alloc);
        for _ in 0..$tokens.list.len() {
            if !$begins {
                return Ok(items);
            }
            let mut more = $item?;
            items.append(&mut more)?;
        }
        Ok(items)
    }};
}

pub(crate) use all_listed;
pub(crate) use all_repeated;
pub(crate) use listed;
pub(crate) use repeated;
