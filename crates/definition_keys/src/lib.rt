//! Which definition was a module compiled with?
//!
//! A definition text has a key, by which an object says which definitions it rests on. It is a digest of the text's
//! tokens (`specs/KeyBytes`) and of the keys of the modules that the text imports (`specs/Keys`), so it changes with
//! each of these, and with blanks and comments it doesn't. The layers above use `unit_keys`.
#![tactic(auto)]

mod bytes;
mod keys;

pub use keys::unit_keys;
