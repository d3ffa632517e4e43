use super::*;
use std::io::{self, ErrorKind, Read, Write};
use std::test::Fail;

/// Reads once and gives what came.
fn read_once<'a, S: Source>(source: &mut S, buf: &'a mut [u8]) -> Result<&'a [u8], Failed> {
    let n = source.read(buf)?;
    Ok(&buf[..n])
}

#[test]
fn a_source_over_memory_fails_once_and_goes_on(rt: HostRuntime) -> Result<(), Fail> {
    let mut source = MemSource::new(rt.alloc(), b"abcdefghij", 4, &[2])?;
    let mut buf = [0; 6];
    assert_eq!(rt; read_once(&mut source, &mut buf)?, b"abcd".as_slice());
    assert_eq!(rt; source.read(&mut buf), Err(Failed));
    assert_eq!(rt; source.faults(), 1);
    assert_eq!(rt; read_once(&mut source, &mut buf)?, b"efgh".as_slice());
    assert_eq!(rt; read_once(&mut source, &mut buf)?, b"ij".as_slice());
    assert_eq!(rt; source.read(&mut buf)?, 0);
    assert_eq!(rt; source.faults(), 1);
    Ok(())
}

#[test]
fn a_sink_over_memory_fails_once_and_where_it_is_full(rt: HostRuntime) -> Result<(), Fail> {
    let mut sink = MemSink::new(rt.alloc(), 5, 3, &[2])?;
    assert_eq!(rt; sink.write(b"abcd")?, 3);
    assert_eq!(rt; sink.write(b"efg"), Err(Failed));
    assert_eq!(rt; sink.write(b"efg")?, 2);
    assert_eq!(rt; sink.write(b"")?, 0);
    assert_eq!(rt; sink.faults(), 1);
    assert_eq!(rt; sink.write(b"h"), Err(Failed));
    assert_eq!(rt; sink.faults(), 2);
    assert_eq!(rt; sink.bytes(), b"abcef".as_slice());
    Ok(())
}

#[test]
fn a_source_is_read_to_its_end(rt: HostRuntime) -> Result<(), Fail> {
    let text = b"a text that is longer than seven bytes";
    let mut source = MemSource::new(rt.alloc(), text, 7, &[])?;
    let bytes = slurp(rt.alloc(), &mut source, text.len())?;
    assert_eq!(rt; bytes.as_slice(), text.as_slice());
    Ok(())
}

#[test]
fn a_source_with_a_byte_too_many_is_refused(rt: HostRuntime) -> Result<(), Fail> {
    let mut source = MemSource::new(rt.alloc(), b"eight bytes", 100, &[])?;
    assert_eq!(rt; slurp(rt.alloc(), &mut source, 7), Err(SlurpError::TooLong));
    let rest = slurp(rt.alloc(), &mut source, 3)?;
    assert_eq!(rt; rest.as_slice(), b"tes".as_slice());
    Ok(())
}

#[test]
fn a_fault_of_reading_is_handed_on(rt: HostRuntime) -> Result<(), Fail> {
    let mut source = MemSource::new(rt.alloc(), b"eight by", 3, &[3])?;
    assert_eq!(rt; slurp(rt.alloc(), &mut source, 100), Err(SlurpError::Read));
    assert_eq!(rt; source.faults(), 1);
    Ok(())
}

#[test]
fn a_fault_of_writing_leaves_a_prefix(rt: HostRuntime) -> Result<(), Fail> {
    let mut sink = MemSink::new(rt.alloc(), 100, 7, &[3])?;
    assert_eq!(rt;
        put_all(&mut sink, b"a text of thirty bytes or more"),
        Err(Failed)
    );
    assert_eq!(rt; sink.bytes(), b"a text of thir".as_slice());
    assert_eq!(rt; sink.faults(), 1);
    Ok(())
}

#[test]
fn a_reader_of_std_is_a_source(rt: HostRuntime) -> Result<(), Fail> {
    let mut source = StdSource::new(b"abc".as_slice());
    let bytes = slurp(rt.alloc(), &mut source, 3)?;
    assert_eq!(rt; bytes.as_slice(), b"abc".as_slice());
    Ok(())
}

#[test]
fn a_writer_of_std_is_a_sink(rt: HostRuntime) -> Result<(), Fail> {
    let mut written = Vec::new(rt.alloc());
    let mut sink = StdSink::new(&mut written);
    put_all(&mut sink, b"abc")?;
    drop(sink);
    assert_eq!(rt; written.as_slice(), b"abc".as_slice());
    Ok(())
}

/// A reader and writer that fails at its first call, and from then on hands on what `inner` does.
#[derive(Drop)]
struct FailsOnce<T> {
    inner: T,
    has_failed: bool,
}

impl<T> FailsOnce<T> {
    fn new(inner: T) -> FailsOnce<T> {
        FailsOnce {
            inner,
            has_failed: false,
        }
    }
}

impl<T: Read> Read for FailsOnce<T> {
    fn read(&mut self, buf: &mut [u8]) -> io::Result<usize> {
        if self.has_failed {
            return self.inner.read(buf);
        }
        self.has_failed = true;
        Err(io::Error::from(ErrorKind::Other))
    }
}

impl<T: Write> Write for FailsOnce<T> {
    fn write(&mut self, bytes: &[u8]) -> io::Result<usize> {
        if self.has_failed {
            return self.inner.write(bytes);
        }
        self.has_failed = true;
        Err(io::Error::from(ErrorKind::Other))
    }

    fn flush(&mut self) -> io::Result<()> {
        self.inner.flush()
    }
}

#[test]
fn an_error_of_a_reader_is_one_fault_and_is_not_tried_again(rt: HostRuntime) -> Result<(), Fail> {
    let mut source = StdSource::new(FailsOnce::new(b"abc".as_slice()));
    let mut buf = [0; 6];
    assert_eq!(rt; source.read(&mut buf), Err(Failed));
    assert_eq!(rt; read_once(&mut source, &mut buf)?, b"abc".as_slice());
    Ok(())
}

#[test]
fn an_error_of_a_writer_is_one_fault_and_is_not_tried_again(rt: HostRuntime) -> Result<(), Fail> {
    let mut written = Vec::new(rt.alloc());
    let mut sink = StdSink::new(FailsOnce::new(&mut written));
    assert_eq!(rt; sink.write(b"abc"), Err(Failed));
    assert_eq!(rt; sink.write(b"defg")?, 4);
    drop(sink);
    assert_eq!(rt; written.as_slice(), b"defg".as_slice());
    Ok(())
}

#[test]
fn a_long_piece_goes_through_at_once(rt: HostRuntime) -> Result<(), Fail> {
    let piece = vec![in rt.alloc(); 7u8; 70_000]?;
    let mut source = StdSource::new(piece.as_slice());
    let mut bytes = vec![in rt.alloc(); 0u8; 70_000]?;
    assert_eq!(rt; source.read(bytes.as_mut_slice())?, 70_000);
    let mut written = Vec::new(rt.alloc());
    let mut sink = StdSink::new(&mut written);
    assert_eq!(rt; sink.write(bytes.as_slice())?, 70_000);
    drop(sink);
    assert_eq!(rt; written.as_slice(), piece.as_slice());
    Ok(())
}

#[test]
fn an_open_gate_lets_all_through() {
    OpenGate.enter(0, 0);
    OpenGate.leave(0, 0);
}
