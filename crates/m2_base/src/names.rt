//! Names as numbers.
ghost use Rattle.std.specs.Prelude.{◌≡◌, ◌+◌, ◌-◌, ◌^◌, ◌<◌, List, ℕ, length, map, slice_get, Some, IsSome};
ghost use Rattle.std.specs.Prelude.{IsOk, IfOk, OnOk, OnErr, if◌then◌else◌};
ghost use Rattle.std.specs.Hash.DefaultHasher.{initial, write};
ghost use Rattle.sha2.specs.Sha512.{sha512};
ghost use Rattle.std.specs.HashMap.{get_by};
ghost use Rattle.std.specs.List.{IsDistinct};
ghost use Rattle.std.specs.Str.{bytes_eq};
ghost use Rattle.m2_base.specs.Names.{AreNumbersOf, with_name, with_names, number_in, standard_names};

use crate::memory::Memory;
use sha2::{Digest, Sha512};
use std::alloc::Global;
use std::collections::HashMap;
use std::hash::{BuildHasher, DefaultHasher, Hasher};
use std::marker::Model;

/// The names that each unit begins with, each at its number.
const STANDARD_NAMES: [&[u8]; 28] = [
    b"",
    b"INTEGER",
    b"CARDINAL",
    b"CHAR",
    b"BOOLEAN",
    b"BITSET",
    b"PROC",
    b"TRUE",
    b"FALSE",
    b"NIL",
    b"ABS",
    b"CAP",
    b"CHR",
    b"DEC",
    b"DISPOSE",
    b"EXCL",
    b"HALT",
    b"HIGH",
    b"INC",
    b"INCL",
    b"MAX",
    b"MIN",
    b"NEW",
    b"ODD",
    b"ORD",
    b"SIZE",
    b"VAL",
    b"InOut",
];

/// What the names are hashed from: each is fed to a copy of one hasher, which was fed with the digests of the texts.
#[derive(Clone, Copy)]
struct NameHasher {
    start: DefaultHasher,
}

impl NameHasher {
    /// Of no text.
    fn new() -> NameHasher
        ensures { result.start ≡ initial }
    {
        NameHasher {
            start: DefaultHasher::new(),
        }
    }

    /// Of one more text.
    fn with_text(self, text: &[u8]) -> NameHasher
        ensures { result.start ≡ write self.start (sha512 text.now) }
    {
        let mut start = self.start;
        start.write(&Sha512::digest(text));
        NameHasher { start }
    }
}

impl BuildHasher for NameHasher {
    type Hasher = DefaultHasher;

    ghost build_hasher = { λ names. names.start };

    fn build_hasher(&self) -> DefaultHasher {
        self.start
    }
}

/// The names of a unit, each under its number. They are seen as the list of their texts, which all differ.
#[derive(Drop)]
pub struct Names {
    /// Each text at its number.
    texts: Vec<Vec<u8>>,
    /// The number of each text. Its keys are texts of their own.
    numbers: HashMap<Vec<u8>, u32, NameHasher>,
}

impl Model for Names {
    ghost use Rattle.std.specs.Prelude.{List, ℕ, map};
    ghost use Rattle.m2_base.specs.Names.{AreIndexed};

    ghost Value = { List (List ℕ) };

    ghost view = { λ n. map (λ text. text.items) n.texts.items };

    ghost invariant = { λ n. AreIndexed (λ text. text.items) n.numbers (map (λ text. text.items) n.texts.items) };
}

impl Names {
    /// The names that each unit begins with.
    pub fn new(alloc: Global) -> Result<Names, Memory>
        ensures { IfOk result (λ names. names ≡ standard_names) }
    {
        let texts = Vec::new(alloc);
        let numbers = HashMap::with_hasher(alloc, NameHasher::new());
        let mut names = Names { texts, numbers };
        names.intern_all(alloc, &STANDARD_NAMES)?;
        Ok(names)
    }

    /// Gives each of these texts a number.
    fn intern_all(&mut self, alloc: Global, texts: &[&[u8]]) -> Result<(), Memory>
        requires { length self.old + length texts.now < 2 ^ 32 }
        ensures { OnOk result (self.new ≡ with_names self.old (map (λ text. text.now) texts.now)) }
    {
        for text in texts {
            self.intern(alloc, *text)?;
        }
        Ok(())
    }

    /// The number of a text. A new one comes last, and old numbers stay.
    pub fn intern(&mut self, alloc: Global, bytes: &[u8]) -> Result<u32, Memory>
        requires { length self.old < 2 ^ 32 - 1 }
        ensures number { IfOk result (λ number. number_in self.new bytes.now ≡ Some number) }
        ensures names { OnOk result (self.new ≡ with_name self.old bytes.now) }
        ensures err { OnErr result (self.new ≡ self.old) }

        // A text that has a number needs no memory.
        ensures known { IsSome (number_in self.old bytes.now) → IsOk result }
    {
        if let Some(number) = self.numbers.get(bytes) {
            return Ok(*number);
        }
        let number = self.texts.len() as u32;
        self.texts.reserve(1)?;
        let text = bytes.to_vec(alloc)?;
        let key = bytes.to_vec(alloc)?;
        put_number(&mut self.numbers, key, number)?;
        self.texts.push(text).unwrap();
        Ok(number)
    }

    /// Makes ready for the names of a text: its names can't be chosen so that finding their numbers grows slow. It
    /// reads the text and the names so far, so call it once for each text. The names stay, also where memory runs out.
    pub fn prepare(&mut self, alloc: Global, text: &[u8]) -> Result<(), Memory>
        ensures { self.new ≡ self.old }
    {
        let hasher = self.numbers.hasher().with_text(text);
        self.numbers = numbers_of(alloc, hasher, &self.texts)?;
        Ok(())
    }

    /// How many there are.
    pub fn count(&self) -> u32
        ensures { result ≡ length self.now }
    {
        self.texts.len() as u32
    }

    /// The text of a number.
    pub fn bytes(&self, name: u32) -> &[u8]
        requires { name < length self.now }
        ensures text { slice_get self.now name ≡ Some result.now }
        ensures number { number_in self.now result.now ≡ Some name }
    {
        &self.texts[name as usize]
    }
}

/// Gives a text a number.
fn put_number(
    numbers: &mut HashMap<Vec<u8>, u32, NameHasher>,
    text: Vec<u8>,
    number: u32,
) -> Result<(), Memory>
    ensures put { OnOk result ((bytes : List ℕ) → get_by (λ key. bytes_eq bytes key.items) numbers.new
        ≡ (if bytes_eq bytes text.items then Some number else get_by (λ key. bytes_eq bytes key.items) numbers.old)) }
    ensures unchanged { OnErr result (numbers.new.entries ≡ numbers.old.entries) }
{
    numbers.insert(text, number)?;
    Ok(())
}

/// The number of each text, which is its place, under this hasher.
fn numbers_of(
    alloc: Global,
    hasher: NameHasher,
    texts: &[Vec<u8>],
) -> Result<HashMap<Vec<u8>, u32, NameHasher>, Memory>
    requires differ { IsDistinct bytes_eq (map (λ text. text.items) texts.now) }
    requires few { length texts.now < 2 ^ 32 }
    ensures { IfOk result (λ numbers. AreNumbersOf (λ text. text.items) numbers (map (λ text. text.items) texts.now)) }
{
    let mut numbers = HashMap::with_capacity_and_hasher(alloc, texts.len(), hasher)?;
    for (number, text) in texts.iter().enumerate() {
        put_number(&mut numbers, text.to_vec(alloc)?, number as u32)?;
    }
    Ok(numbers)
}
