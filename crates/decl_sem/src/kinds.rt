//! The kinds of rows, by their numbers.

pub(crate) const CONST: u8 = 1;

pub(crate) const TYPE_NAME: u8 = 2;

pub(crate) const VAR: u8 = 3;

pub(crate) const PROC: u8 = 4;

pub(crate) const MODULE: u8 = 5;

pub(crate) const ALIAS: u8 = 6;

pub(crate) const FIELD: u8 = 7;

pub(crate) const PARAM: u8 = 8;

pub(crate) const ENUM: u8 = 11;

pub(crate) const SUBRANGE: u8 = 12;

pub(crate) const ARRAY: u8 = 13;

pub(crate) const OPEN_ARRAY: u8 = 14;

pub(crate) const RECORD: u8 = 15;

pub(crate) const SET: u8 = 16;

pub(crate) const POINTER: u8 = 17;

pub(crate) const PROC_TYPE: u8 = 18;

pub(crate) const OPAQUE: u8 = 19;
