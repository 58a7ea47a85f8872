//! What is told of bytes as an object.
use crate::case::Case;
use crate::escapes::bytes_of;
use anyhow::{Context, Result, ensure};
use object_file::{read_object, write_object};
use std::alloc::Global;

/// An object is written as the bytes that it was read from.
pub fn answer(alloc: Global, case: &Case) -> Result<String> {
    let bytes = bytes_of(alloc, case.first("object").context("no object")?)?;
    match read_object(alloc, &bytes) {
        Ok(object) => {
            let written = write_object(alloc, &object).ok().context("out of memory")?;
            ensure!(written == bytes, "written as other bytes");
            Ok(String::from_str(alloc, "object\n")?)
        }
        Err(fault) => Ok(format!(in alloc; "{fault}\n")?),
    }
}
