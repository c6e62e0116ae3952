ghost use Rattle.std.specs.Prelude.{None};

use crate::{
    Failed, MemSink, MemSource, ReadError, Source, StdSink, StdSource, SureSink, SureSource,
    WriteError, read_all, write_all,
};
use std::io;
use std::io::{ErrorKind, Read};
use std::test::Fail;

const TEXT: &[u8] = b"rtems 1\ncluster 1\nticks 0\n";

#[test]
fn copies_in_pieces(rt: HostRuntime) -> Result<(), Fail> {
    let alloc = rt.alloc();
    let mut source = MemSource::new(Vec::from_slice(alloc, TEXT)?, 8, Vec::new(alloc));
    let mut sink = MemSink::new(alloc, 3, Vec::new(alloc));
    let input = read_all(alloc, &mut source, 1000)?;
    write_all(&mut sink, input.bytes.as_slice())?;
    assert!(rt; input.whole);
    assert_eq!(rt; sink.written(), TEXT);
    Ok(())
}

#[test]
fn fails_at_listed_calls(rt: HostRuntime) -> Result<(), Fail> {
    let alloc = rt.alloc();
    let fails = Vec::from_slice(alloc, &[2])?;
    let mut source = MemSource::new(Vec::from_slice(alloc, TEXT)?, 8, fails);
    assert_eq!(rt;
        read_all(alloc, &mut source, 1000).err(),
        Some(ReadError::Failed)
    );

    let fails = Vec::from_slice(alloc, &[2])?;
    let mut sink = MemSink::new(alloc, 4, fails);
    assert_eq!(rt; write_all(&mut sink, TEXT), Err(WriteError::Failed));
    assert_eq!(rt; sink.written(), b"rtem".as_slice());
    Ok(())
}

#[test]
fn reads_one_over_the_most(rt: HostRuntime) -> Result<(), Fail> {
    let alloc = rt.alloc();
    for (most, want) in [(26, 26), (25, 26), (4, 5), (0, 1)] {
        let mut source = SureSource::new(Vec::from_slice(alloc, TEXT)?);
        let mut sink = SureSink::new(alloc);
        let input = read_all(alloc, &mut source, most)?;
        write_all(&mut sink, input.bytes.as_slice())?;
        assert_eq!(rt; input.whole, most == 26, "at {most}");
        assert_eq!(rt; Some(sink.written()), TEXT.get(..want), "at {most}");
    }
    Ok(())
}

/// A reader that gives one byte, and fails at each later read.
#[derive(Drop)]
struct Broken {
    is_read: bool,
}

impl Read for Broken {
    fn read(&mut self, buf: &mut [u8]) -> io::Result<usize> {
        if self.is_read || buf.is_empty() {
            return Err(io::Error::from(ErrorKind::Other));
        }
        self.is_read = true;
        buf[0] = b'r';
        Ok(1)
    }
}

/// A source that gives a byte at each call but the second, at which it tells the end.
#[derive(Drop)]
struct EndsOnce {
    calls: u64,
}

impl Source for EndsOnce {
    ghost left = { λ _. None };

    ghost faults = { λ _. 0 };

    fn read(&mut self, buf: &mut [u8]) -> Result<u64, Failed> {
        self.calls = self.calls.saturating_add(1);
        if self.calls == 2 {
            return Ok(0);
        }
        buf[0] = b'r';
        Ok(1)
    }
}

#[test]
fn reads_no_more_after_the_end(rt: HostRuntime) -> Result<(), Fail> {
    let alloc = rt.alloc();
    let mut source = EndsOnce { calls: 0 };
    let input = read_all(alloc, &mut source, 1000)?;
    assert!(rt; input.whole);
    assert_eq!(rt; input.bytes.as_slice(), b"r".as_slice());
    assert_eq!(rt; source.calls, 2);
    Ok(())
}

#[test]
fn counts_errors_of_readers(rt: HostRuntime) -> Result<(), Fail> {
    let alloc = rt.alloc();
    let input = read_all(alloc, &mut StdSource::new(TEXT), 1000)?;
    assert!(rt; input.whole);
    assert_eq!(rt; input.bytes.as_slice(), TEXT);

    let mut source = StdSource::new(Broken { is_read: false });
    assert_eq!(rt;
        read_all(alloc, &mut source, 1000).err(),
        Some(ReadError::Failed)
    );
    Ok(())
}

#[test]
fn counts_writes_of_nothing(rt: HostRuntime) -> Result<(), Fail> {
    let mut room = [0u8; 26];
    assert_eq!(rt; write_all(&mut StdSink::new(&mut room[..]), TEXT), Ok(()));
    assert_eq!(rt; room.as_slice(), TEXT);

    let mut little = [0u8; 4];
    assert_eq!(rt;
        write_all(&mut StdSink::new(&mut little[..]), TEXT),
        Err(WriteError::Failed)
    );
    assert_eq!(rt; little.as_slice(), b"rtem".as_slice());
    Ok(())
}
