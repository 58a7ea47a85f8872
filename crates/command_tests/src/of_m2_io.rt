//! Calls of `m2_io` that no command makes.
use m2_io::{
    FolderShelf, MemSink, Pieces, Shelf, ShelfError, Sink, SinkError, Source, SourceError, StdSink,
    StdSource, write_all,
};
use std::io::{self, Read, Write};
use std::test::Fail;

/// Names that a folder refuses.
const NO_FILES: [&str; 8] = [
    "",
    ".",
    "..",
    ".A.mod",
    "../A.mod",
    "/tmp/A.mod",
    "D.mod/A.mod",
    "A.mod\0",
];

#[test]
fn a_folder_keeps_to_itself(rt: HostRuntime) -> Result<(), Fail> {
    let alloc = rt.alloc();
    let mut shelf = FolderShelf::new(rt.clone()?, ".".to_string(alloc)?);
    for name in NO_FILES {
        let got = shelf.get(alloc, name, 9);
        assert!(rt; matches!(got, Err(ShelfError::Failed)), "{name}");
        let put = shelf.put(alloc, name, b"z");
        assert!(rt; matches!(put, Err(ShelfError::Failed)), "{name}");
    }
    Ok(())
}

#[test]
fn what_is_not_taken_is_kept(rt: HostRuntime) -> Result<(), Fail> {
    let alloc = rt.alloc();
    let sink = MemSink::new(alloc, [2].to_vec(alloc)?, 3, 8200)?;
    let mut print = Pieces::new(alloc, sink)?;
    write_all(&mut print, b"abcdefg")?;
    assert!(rt; print.flush().is_err());
    assert!(rt; print.sink().bytes() == b"abc".as_slice());
    print.flush()?;
    assert!(rt; print.sink().bytes() == b"abcdefg".as_slice());

    // A piece is handed on when it is full, and not before. The sink has room for one more byte.
    write_all(&mut print, &[b'x'; 8191])?;
    assert!(rt; print.sink().bytes().len() == 7);
    write_all(&mut print, b"yz!")?;
    assert!(rt; print.sink().bytes().len() == 8199);
    assert!(rt; print.flush().is_err());
    assert!(rt; print.sink().bytes().ends_with(b"xyz".as_slice()));
    Ok(())
}

/// A reader and writer that always fails.
#[derive(Drop)]
struct Broken;

impl Read for Broken {
    fn read(&mut self, _buf: &mut [u8]) -> io::Result<usize> {
        Err(io::Error::from(io::ErrorKind::Other))
    }
}

impl Write for Broken {
    fn write(&mut self, _buf: &[u8]) -> io::Result<usize> {
        Err(io::Error::from(io::ErrorKind::Other))
    }

    fn flush(&mut self) -> io::Result<()> {
        Err(io::Error::from(io::ErrorKind::Other))
    }
}

#[test]
fn a_writer_is_a_sink_and_a_reader_a_source(rt: HostRuntime) -> Result<(), Fail> {
    let mut bytes = *b"-----";
    let mut sink = StdSink::new(&mut bytes[..3]);
    assert!(rt; sink.write(b"ab") == Ok(2));
    assert!(rt; write_all(&mut sink, b"cde") == Err(SinkError));
    assert!(rt; sink.write(b"") == Ok(0) && sink.flush() == Ok(()));
    assert!(rt; bytes == *b"abc--");
    assert!(rt; StdSink::new(Broken).write(b"a") == Err(SinkError));
    assert!(rt; StdSink::new(Broken).flush() == Err(SinkError));

    let mut source = StdSource::new(b"abc".as_slice());
    let mut buf = *b"--";
    assert!(rt; source.read(&mut buf) == Ok(2));
    assert!(rt; source.read(&mut buf) == Ok(1));
    assert!(rt; buf == *b"cb");
    assert!(rt; source.read(&mut buf) == Ok(0));
    assert!(rt; StdSource::new(Broken).read(&mut buf) == Err(SourceError));
    Ok(())
}
