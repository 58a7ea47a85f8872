//! Rows as words.
ghost use Rattle.std.specs.Prelude.{◌≡◌};
ghost use Rattle.scope_table.specs.Rows.{words_of, row_at, IsNarrow};

use m2_base::Row;

/// The words of a row, in the order of its fields.
pub(crate) fn to_words(row: &Row) -> [u64; 8]
    ensures words { result ≡ words_of row.now }
    ensures narrow { IsNarrow row.now }
{
    [
        row.name as u64,
        row.kind as u64,
        row.at as u64,
        row.a.cast_unsigned(),
        row.b.cast_unsigned(),
        row.c.cast_unsigned(),
        row.d.cast_unsigned(),
        row.e.cast_unsigned(),
    ]
}

/// The row of these words.
pub(crate) fn from_words(words: &[u64; 8]) -> Row
    ensures { result ≡ row_at words.now 0 }
{
    Row {
        name: (words[0] % 4294967296) as u32,
        kind: (words[1] % 256) as u8,
        at: (words[2] % 4294967296) as u32,
        a: words[3].cast_signed(),
        b: words[4].cast_signed(),
        c: words[5].cast_signed(),
        d: words[6].cast_signed(),
        e: words[7].cast_signed(),
    }
}
