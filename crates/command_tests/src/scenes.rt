//! What commands work on.
use m2_io::{Gate, MemShelf, MemSink, MemSource, Pieces};
use m2c_top::m2c;
use std::alloc::{AllocError, Global};
use std::collections::BTreeMap;
use std::sync::Wait;
use std::test::Fail;
use std::thread::Threads;

/// How many bytes of a file stand on a shelf that fails to put it.
const FRONT: usize = 10;

/// A shelf, a sink that takes a byte at a time, and a source.
#[derive(Drop)]
pub(crate) struct Scene {
    pub shelf: MemShelf,
    pub print: Pieces<MemSink>,
    pub keys: MemSource,
}

/// The numbers of the calls that fail.
#[derive(Drop)]
pub(crate) struct Fails {
    pub shelf: Vec<u32>,
    pub write: Vec<u32>,
    pub read: Vec<u32>,
}

impl Fails {
    pub fn none(alloc: Global) -> Fails {
        Fails {
            shelf: Vec::new(alloc),
            write: Vec::new(alloc),
            read: Vec::new(alloc),
        }
    }
}

impl Scene {
    /// A shelf with this text as A.mod, and its object if there is one.
    pub fn new(
        alloc: Global,
        text: &str,
        object: Option<Vec<u8>>,
        input: &str,
        fails: Fails,
    ) -> Result<Scene, Fail> {
        let mut files = BTreeMap::new(alloc);
        files.insert("A.mod".to_string(alloc)?, text.as_bytes().to_vec(alloc)?)?;
        if let Some(object) = object {
            files.insert("A.m2o".to_string(alloc)?, object)?;
        }
        Ok(Scene {
            shelf: MemShelf::new(files, fails.shelf, FRONT),
            print: Pieces::new(alloc, MemSink::new(alloc, fails.write, 1, 1000)?)?,
            keys: MemSource::new(input.as_bytes().to_vec(alloc)?, fails.read),
        })
    }

    /// Does what the words of a line ask, and answers the status. Each turn passes the gate.
    pub fn status<R: AllocGlobal + Threads + Wait + Sync, G: Gate>(
        &mut self,
        rt: &R,
        line: &str,
        gate: &G,
    ) -> Result<u8, AllocError> {
        let alloc = rt.alloc();
        let mut words = Vec::new(alloc);
        for word in line.split(' ') {
            words.push(word.to_string(alloc)?)?;
        }
        let words = words.as_slice();
        let (shelf, print, keys) = (&mut self.shelf, &mut self.print, &mut self.keys);
        Ok(m2c(rt, alloc, words, shelf, print, keys, gate))
    }

    /// The length of the object.
    pub fn object_len(&self) -> usize {
        self.shelf.file("A.m2o").map_or(0, |bytes| bytes.len())
    }
}
