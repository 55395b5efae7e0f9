//! Sources and sinks over a reader and a writer that fail in mid-stream.
use kdf_io::{Failed, ReadEnd, ReadFrom, Sink, Source, WriteTo, read_all, write_all};
use std::alloc::Global;
use std::io;
use std::io::{ErrorKind, Read, Write};
use std::process::Abort;

/// A stream that fails at its second call, and lets pass one byte at the others.
#[derive(Drop)]
struct Broken {
    calls: u8,
}

impl Broken {
    fn call(&mut self) -> io::Result<()> {
        self.calls = self.calls.saturating_add(1);
        if self.calls == 2 {
            return Err(ErrorKind::Other.into());
        }
        Ok(())
    }
}

impl Read for Broken {
    fn read(&mut self, buf: &mut [u8]) -> io::Result<usize> {
        self.call()?;
        match buf {
            [] => Ok(0),
            [first, ..] => {
                *first = b'x';
                Ok(1)
            }
        }
    }
}

impl Write for Broken {
    fn write(&mut self, buf: &[u8]) -> io::Result<usize> {
        self.call()?;
        Ok(buf.len().min(1))
    }

    fn flush(&mut self) -> io::Result<()> {
        Ok(())
    }
}

/// A source gives what comes before and after a read that fails.
fn reads_on_after_a_fault(rt: &impl Abort) {
    let mut source = ReadFrom::new(Broken { calls: 0 });
    let mut buffer = [0; 4];
    assert!(rt; source.read(&mut buffer) == Ok(1));
    assert!(rt; buffer[0] == b'x');
    assert!(rt; source.read(&mut buffer) == Err(Failed));
    assert!(rt; source.read(&mut buffer) == Ok(1));
}

/// A source that fails is not read to its end.
fn stops_at_a_fault(rt: &impl Abort, alloc: Global) {
    let mut source = ReadFrom::new(Broken { calls: 0 });
    assert!(rt; matches!(read_all(alloc, &mut source, 9), Err(ReadEnd::Fault)));
}

/// A slice takes what it has room for, and then nothing of a piece; an empty piece is no fault.
fn writes_to_a_slice(rt: &impl Abort) {
    let mut room = [0; 3];
    let mut sink = WriteTo::new(&mut room[..]);
    assert!(rt; write_all(&mut sink, b"abcde") == Err(Failed));
    assert!(rt; sink.put(b"") == Ok(0));
    assert!(rt; room == *b"abc");
}

/// A sink takes what comes before and after a put that fails.
fn writes_on_after_a_fault(rt: &impl Abort) {
    let mut sink = WriteTo::new(Broken { calls: 0 });
    assert!(rt; sink.put(b"abc") == Ok(1));
    assert!(rt; sink.put(b"abc") == Err(Failed));
    assert!(rt; sink.put(b"abc") == Ok(1));
}

#[test]
fn streams_fail_with_their_readers_and_writers(rt: HostRuntime) {
    reads_on_after_a_fault(&rt);
    stops_at_a_fault(&rt, rt.alloc());
    writes_to_a_slice(&rt);
    writes_on_after_a_fault(&rt);
}
