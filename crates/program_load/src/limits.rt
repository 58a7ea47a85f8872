//! The limits of what is loaded.

/// How many bytes an object may have.
pub const MOST_OBJECT_BYTES: usize = 67_108_864;

/// How many objects a program may have been read from.
pub const MOST_OBJECTS: usize = 256;
