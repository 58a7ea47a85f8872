//! How large things may be: the limits of the compiler, and the ranges of the language's numbers.

/// A text has at most so many bytes.
pub const MOST_TEXT_BYTES: usize = 1_048_576;

/// A text has at most so many tokens, with the end.
pub const MOST_TOKENS: usize = 1_048_576;

/// The texts of a unit have at most so many tokens together.
pub const MOST_UNIT_TOKENS: usize = 4_194_304;

/// A unit has at most so many texts: a main text, and 256 definition modules.
pub const MOST_TEXTS: usize = 257;

/// A token lies in at most so many statements, types, field lists and factors.
pub const MOST_NESTED: usize = 100;

/// A main text has at most so many procedures.
pub const MOST_PROCEDURES: usize = 16_384;

/// The imports of a block bring at most so many constants of enumerations.
pub const MOST_BROUGHT: usize = 16_384;

/// A procedure has at most this level: 1 for those of the module.
pub const DEEPEST_LEVEL: usize = 16;

/// A search tries at most so many scopes: those of the procedures round a block, the module's, and the standard one.
pub const LONGEST_CHAIN: usize = 18;

/// A type, or a block's variables, has at most so many cells, and a block at most so many bytes of data.
pub const MOST_CELLS: u32 = 16_777_215;

/// What is more counts as one more.
pub const TOO_MANY_CELLS: u32 = MOST_CELLS + 1;

/// The layout of a block has at most so many rows.
pub const MOST_ROWS: u32 = 2_147_483_648;

/// How many rows scope 0 has.
pub const STANDARD_ROWS: usize = 37;

pub const LEAST_INTEGER: i64 = -2_147_483_648;

pub const GREATEST_INTEGER: i64 = 2_147_483_647;

pub const GREATEST_CARDINAL: i64 = 4_294_967_295;

pub const GREATEST_CHARACTER: i64 = 255;

/// The greatest element of a set: its base is within 0 and this.
pub const GREATEST_ELEMENT: i64 = 31;
