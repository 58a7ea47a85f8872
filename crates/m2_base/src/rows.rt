//! Rows: what a scope has an entry of. Code and definitions speak of a row's meaning;
//! its numbers are read and written here alone.
ghost use Rattle.std.specs.Prelude.{◌≡◌, ℕ, pos};
ghost use Rattle.m2_base.specs.Keys.{row_key as spec_key, is_keyed};
ghost use Rattle.m2_base.specs.Rows.{place_of, natural, row_meaning, mode_of, mode_number, result_of, result_number};
ghost use Rattle.m2_base.specs.Rows.{basic_of, number_of, numbers_of, numbers_row, row_of, HasSmallNumbers};
ghost use Rattle.m2_base.specs.Rows.{HasSmallOrdinals, HasSmallScopes, IsSmall, IsSmallScope, ResultHasSmallScope};
ghost use Rattle.m2_base.specs.declared.rows.RowMeaning.{RowMeaning as Meant};

/// A row of a scope's table. Name 0 is no name, and is never found.
#[derive(Clone, Copy, Debug, PartialEq, Eq)]
pub struct Row {
    pub name: u32,
    pub kind: u8,
    /// The token that it stands for.
    pub at: u32,
    pub a: i64,
    pub b: i64,
    pub c: i64,
    pub d: i64,
    pub e: i64,
}

/// Where a row stands: the number of its scope, and its own number there from 0.
#[derive(Clone, Copy, Debug, PartialEq, Eq)]
pub struct Place {
    pub scope: u32,
    pub ordinal: u32,
}

/// How a variable's cell holds it: itself, its address, or the address and the length of an open array.
#[derive(Clone, Copy)]
pub enum Mode {
    Plain,
    ByAddress,
    Open,
}

/// What a row says, apart from its name and token. A type is the place of its row.
#[derive(Clone, Copy)]
pub enum RowMeaning {
    /// Its type, its value (of a string its name number), and the length of a string.
    Const(Place, i64, u32),
    /// The name of a type.
    TypeName(Place),
    /// Its type, how its cell holds it, and its offset.
    Var(Place, Mode, u32),
    /// Its procedure type, its number (in a definition the heading's index), and its scope (in a definition 0).
    Proc(Place, u32, u32),
    /// The scope of a module.
    Module(u32),
    /// The place that it leads to.
    Alias(Place),
    /// Its type, its offset, the ordinal of its record, and its name.
    Field(Place, u32, u32, u32),
    /// Its type, whether it is a VAR parameter, and the ordinal of its procedure type.
    Param(Place, bool, u32),
    /// A standard procedure, by the number of its name.
    Standard(u32),
    /// The type of parts in error.
    Broken,
    Integer,
    Cardinal,
    Character,
    /// The type of NIL.
    Nil,
    /// The type of strings.
    Text,
    /// The type of whole constants.
    Whole,
    /// An enumeration, with the number of its constants.
    Enum(u32),
    /// Its base type, its low and its high.
    Subrange(Place, i64, i64),
    /// Its index type, its element type and its size.
    Array(Place, Place, u32),
    /// Its element type.
    OpenArray(Place),
    /// The ordinal of its first row, and its size.
    Record(u32, u32),
    /// Its base type.
    Set(Place),
    /// Its target type, or the row of a type's name.
    Pointer(Place),
    /// Its result type, the number of its parameters, and the ordinal of its first row.
    ProcType(Option<Place>, u32, u32),
    Opaque,
}

/// What the index of a scope finds a row by.
#[derive(Clone, Copy, PartialEq, Eq, Hash)]
pub enum RowKey {
    /// Its name.
    Name(u32),
    /// Of a field without a name, as each is that is declared: the ordinal of its record, and its name there.
    Member(u64, u64),
}

/// The place that a row's number names.
fn place_from(number: i64) -> Place
    ensures { result ≡ place_of number }
{
    if number < 0 {
        return Place {
            scope: 0,
            ordinal: 0,
        };
    }
    let number = number.unsigned_abs();
    Place {
        scope: (number >> 32) as u32,
        ordinal: (number & 0xffff_ffff) as u32,
    }
}

/// A place as a row's number.
fn place_as(place: Place) -> i64
    requires { IsSmallScope place }
    ensures { result ≡ number_of place }
{
    ((place.scope as i64) << 32) + place.ordinal as i64
}

/// A number that isn't negative.
fn natural_from(number: i64) -> u32
    requires { IsSmall (natural number) }
    ensures { result ≡ natural number }
{
    if number < 0 { 0 } else { number as u32 }
}

/// The same of a number of any size.
fn magnitude(number: i64) -> u64
    ensures { result ≡ natural number }
{
    if number < 0 { 0 } else { number as u64 }
}

fn mode_from(number: i64) -> Mode
    ensures { result ≡ mode_of number }
{
    if number <= 0 {
        return Mode::Plain;
    }
    if number == 1 {
        Mode::ByAddress
    } else {
        Mode::Open
    }
}

fn mode_as(mode: Mode) -> i64
    ensures { result ≡ pos (mode_number mode) }
{
    match mode {
        Mode::Plain => 0,
        Mode::ByAddress => 1,
        Mode::Open => 2,
    }
}

fn result_from(number: i64) -> Option<Place>
    ensures { result ≡ result_of number }
{
    if number < 0 {
        None
    } else {
        Some(place_from(number))
    }
}

fn result_as(result_type: Option<Place>) -> i64
    requires { ResultHasSmallScope result_type }
    ensures { result ≡ result_number result_type }
{
    match result_type {
        Some(place) => place_as(place),
        None => -1,
    }
}

fn basic_from(number: i64) -> RowMeaning
    ensures { result ≡ basic_of (natural number) }
{
    match number {
        1 => RowMeaning::Integer,
        2 => RowMeaning::Cardinal,
        3 => RowMeaning::Character,
        4 => RowMeaning::Nil,
        5 => RowMeaning::Text,
        6 => RowMeaning::Whole,
        _ => RowMeaning::Broken,
    }
}

/// What a row says.
pub fn read_row(row: &Row) -> RowMeaning
    requires { HasSmallNumbers (row_meaning row.now) }
    ensures { result ≡ row_meaning row.now }
{
    match row.kind {
        1 => RowMeaning::Const(place_from(row.a), row.b, natural_from(row.c)),
        2 => RowMeaning::TypeName(place_from(row.a)),
        3 => RowMeaning::Var(place_from(row.a), mode_from(row.b), natural_from(row.c)),
        4 => RowMeaning::Proc(place_from(row.a), natural_from(row.b), natural_from(row.c)),
        5 => RowMeaning::Module(natural_from(row.a)),
        6 => RowMeaning::Alias(place_from(row.a)),
        7 => RowMeaning::Field(
            place_from(row.a),
            natural_from(row.b),
            natural_from(row.c),
            natural_from(row.e),
        ),
        8 => RowMeaning::Param(place_from(row.a), row.b == 1, natural_from(row.c)),
        9 => RowMeaning::Standard(natural_from(row.a)),
        10 => basic_from(row.a),
        11 => RowMeaning::Enum(natural_from(row.a)),
        12 => RowMeaning::Subrange(place_from(row.a), row.b, row.c),
        13 => RowMeaning::Array(place_from(row.a), place_from(row.b), natural_from(row.c)),
        14 => RowMeaning::OpenArray(place_from(row.b)),
        15 => RowMeaning::Record(natural_from(row.a), natural_from(row.c)),
        16 => RowMeaning::Set(place_from(row.a)),
        17 => RowMeaning::Pointer(place_from(row.a)),
        18 => RowMeaning::ProcType(result_from(row.a), natural_from(row.b), natural_from(row.c)),
        19 => RowMeaning::Opaque,
        _ => RowMeaning::Broken,
    }
}

/// What the index of a scope finds the row by, if it has a name or is a field.
#[tactic(auto, unfolding(crate::specs::Keys::row_key))]
pub fn row_key(row: &Row) -> Option<RowKey>
    ensures { result ≡ spec_key row.now }
{
    if row.name != 0 {
        Some(RowKey::Name(row.name))
    } else if row.kind == 7 {
        Some(RowKey::Member(magnitude(row.c), magnitude(row.e)))
    } else {
        None
    }
}

/// Whether this is the row's key.
pub fn has_key(row: &Row, key: RowKey) -> bool
    ensures { result ≡ is_keyed key (spec_key row.now) }
{
    match (row_key(row), key) {
        (Some(RowKey::Name(x)), RowKey::Name(y)) => x == y,
        (Some(RowKey::Member(own, x)), RowKey::Member(of, y)) => own == of && x == y,
        _ => false,
    }
}

/// What was written as a row is what it says.
pub fn rows_say_what_was_written()
    ensures { (name at : ℕ) (meaning : Meant) → HasSmallOrdinals meaning
        → row_meaning (row_of name at meaning) ≡ meaning }
{}

/// The row with these numbers.
fn row_with(name: u32, at: u32, kind: u8, a: i64, b: i64, c: i64, e: i64) -> Row
    ensures { result ≡ numbers_row name at kind a b c e }
{
    Row {
        name,
        kind,
        at,
        a,
        b,
        c,
        d: 0,
        e,
    }
}

/// The row of this name at this token that says this.
pub fn write_row(name: u32, at: u32, meaning: RowMeaning) -> Row
    requires { HasSmallScopes meaning }
    ensures { result ≡ row_of name at meaning }
{
    let (kind, a, b, c, e) = numbers_for(meaning);
    row_with(name, at, kind, a, b, c, e)
}

/// The kind and the numbers a, b, c and e of a row that says this.
fn numbers_for(meaning: RowMeaning) -> (u8, i64, i64, i64, i64)
    requires { HasSmallScopes meaning }
    ensures { result ≡ numbers_of meaning }
{
    match meaning {
        RowMeaning::Const(of, value, length) => (1, place_as(of), value, length as i64, 0),
        RowMeaning::TypeName(of) => (2, place_as(of), 0, 0, 0),
        RowMeaning::Var(of, mode, offset) => (3, place_as(of), mode_as(mode), offset as i64, 0),
        RowMeaning::Proc(of, number, scope) => (4, place_as(of), number as i64, scope as i64, 0),
        RowMeaning::Module(scope) => (5, scope as i64, 0, 0, 0),
        RowMeaning::Alias(target) => (6, place_as(target), 0, 0, 0),
        RowMeaning::Field(of, offset, record, name) => {
            (7, place_as(of), offset as i64, record as i64, name as i64)
        }
        RowMeaning::Param(of, by_address, proc_type) => {
            (8, place_as(of), by_address as i64, proc_type as i64, 0)
        }
        RowMeaning::Standard(name) => (9, name as i64, 0, 0, 0),
        RowMeaning::Broken => (10, 0, 0, 0, 0),
        RowMeaning::Integer => (10, 1, 0, 0, 0),
        RowMeaning::Cardinal => (10, 2, 0, 0, 0),
        RowMeaning::Character => (10, 3, 0, 0, 0),
        RowMeaning::Nil => (10, 4, 0, 0, 0),
        RowMeaning::Text => (10, 5, 0, 0, 0),
        RowMeaning::Whole => (10, 6, 0, 0, 0),
        RowMeaning::Enum(count) => (11, count as i64, 0, 0, 0),
        RowMeaning::Subrange(base, low, high) => (12, place_as(base), low, high, 0),
        RowMeaning::Array(index, of, size) => (13, place_as(index), place_as(of), size as i64, 0),
        RowMeaning::OpenArray(of) => (14, 0, place_as(of), 0, 0),
        RowMeaning::Record(first, size) => (15, first as i64, 0, size as i64, 0),
        RowMeaning::Set(of) => (16, place_as(of), 0, 0, 0),
        RowMeaning::Pointer(to) => (17, place_as(to), 0, 0, 0),
        RowMeaning::ProcType(gives, count, first) => {
            (18, result_as(gives), count as i64, first as i64, 0)
        }
        RowMeaning::Opaque => (19, 0, 0, 0, 0),
    }
}
