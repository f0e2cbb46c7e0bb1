use super::*;
use crate::{ReadFault, read_all, write_all};
use std::io::{self, ErrorKind};
use std::test::Fail;

// A reader with no bytes that fails.
#[derive(Drop)]
struct NoReader;

impl Read for NoReader {
    fn read(&mut self, _buf: &mut [u8]) -> io::Result<usize> {
        Err(ErrorKind::Other.into())
    }
}

// A writer that takes `most` bytes a call, and fails at a flush if it is `stuck`.
#[derive(Drop)]
struct SlowWriter {
    bytes: Vec<u8>,
    most: usize,
    stuck: bool,
}

impl Write for SlowWriter {
    fn write(&mut self, buf: &[u8]) -> io::Result<usize> {
        let count = self.most.min(buf.len());
        self.bytes.extend_from_slice(&buf[..count])?;
        Ok(count)
    }

    fn flush(&mut self) -> io::Result<()> {
        if self.stuck {
            return Err(ErrorKind::Other.into());
        }
        Ok(())
    }
}

#[test]
fn reads_over_std(rt: HostRuntime) -> Result<(), Fail> {
    let mut source = StdSource::new(b"bytes".as_slice());
    let bytes = read_all(rt.alloc(), &mut source, 5)?;
    assert_eq!(rt; bytes.as_slice(), b"bytes".as_slice());

    let mut source = StdSource::new(NoReader);
    let result = read_all(rt.alloc(), &mut source, 5);
    assert_eq!(rt; result.err(), Some(ReadFault::Failed));
    assert_eq!(rt; source.errors, 1);
    Ok(())
}

#[test]
fn writes_over_std(rt: HostRuntime) -> Result<(), Fail> {
    let mut sink = StdSink::new(Vec::new(rt.alloc()));
    assert_eq!(rt; write_all(&mut sink, b"bytes"), Ok(()));
    assert_eq!(rt; sink.inner.as_slice(), b"bytes".as_slice());
    Ok(())
}

#[test]
fn a_failed_flush_and_a_write_of_nothing_are_errors(rt: HostRuntime) -> Result<(), Fail> {
    let cases = [
        (3, false, 0, "bytes"),
        (3, true, 1, "byt"),
        (0, false, 1, ""),
    ];
    for (most, stuck, errors, kept) in cases {
        let mut sink = StdSink::new(SlowWriter {
            bytes: Vec::new(rt.alloc()),
            most,
            stuck,
        });
        let result = write_all(&mut sink, b"bytes");
        assert_eq!(rt; result.is_err(), errors == 1);
        assert_eq!(rt; sink.errors, errors);
        assert_eq!(rt; sink.inner.bytes.as_slice(), kept.as_bytes());
    }
    Ok(())
}
