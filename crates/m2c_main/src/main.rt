//! The program: a command line over the texts of the current folder.
#![tactic(auto)]

use m2_base::Memory;
use m2_io::{FolderShelf, NoGate, Pieces, Source, StdSink, StdSource};
use m2c_top::m2c;
use std::process::ExitCode;
use std::rt::Runtime;
use std::sync::Wait;
use std::thread::Threads;
use std::{env, io};

/// The status where there is no memory for the words, or for what is kept back of the output.
const NO_MEMORY: u8 = 6;

fn main(rt: HostRuntime) -> ExitCode {
    let mut keys = StdSource::new(rt.stdin());
    match run(&rt, &mut keys) {
        Ok(status) => ExitCode::from(status),
        Err(_) => ExitCode::from(NO_MEMORY),
    }
}

/// Does what the words behind the program's name ask, and answers the status.
fn run<R: Runtime + AllocGlobal + Threads + Wait + Sync, K: Source>(
    rt: &R,
    keys: &mut K,
) -> Result<u8, Memory> {
    let words = words_of(rt)?;
    let folder = String::from_str(rt.alloc(), ".")?;
    let mut shelf = FolderShelf::new(rt.clone()?, folder);
    let mut print = Pieces::new(rt.alloc(), StdSink::new(io::writer(rt)))?;
    Ok(m2c(
        rt,
        rt.alloc(),
        words.as_slice(),
        &mut shelf,
        &mut print,
        keys,
        &NoGate,
    ))
}

/// The words behind the program's name. Words that aren't text are no words.
fn words_of<R: Runtime + AllocGlobal>(rt: &R) -> Result<Vec<String>, Memory> {
    let mut words = Vec::new(rt.alloc());
    let arguments = match env::args(rt) {
        Ok(arguments) => arguments,
        Err(error) if error.kind() == io::ErrorKind::OutOfMemory => return Err(Memory),
        Err(_) => return Ok(words),
    };
    for word in arguments.skip(1) {
        words.push(word)?;
    }
    Ok(words)
}
