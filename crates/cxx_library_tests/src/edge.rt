//! `cxx_edge`: streams in memory, some of whose calls fail.

use cxx_edge::{Failed, MemorySink, MemorySource, ReadFault, Sink, read_all, write_all};
use std::test::Fail;

const TEXT: &[u8] = b"twenty bytes of text";

#[test]
fn reads_up_to_the_limit(rt: HostRuntime) -> Result<(), Fail> {
    let mut source = MemorySource::new(rt.alloc(), TEXT, 7, &[])?;
    let bytes = read_all(rt.alloc(), &mut source, 20)?;
    assert_eq!(rt; bytes.as_slice(), TEXT);

    let mut source = MemorySource::new(rt.alloc(), TEXT, 7, &[])?;
    let result = read_all(rt.alloc(), &mut source, 19);
    assert_eq!(rt; result.err(), Some(ReadFault::TooLong));
    Ok(())
}

#[test]
fn a_listed_read_fails(rt: HostRuntime) -> Result<(), Fail> {
    let mut source = MemorySource::new(rt.alloc(), TEXT, 7, &[2])?;
    let result = read_all(rt.alloc(), &mut source, 20);
    assert_eq!(rt; result.err(), Some(ReadFault::Failed));

    let rest = read_all(rt.alloc(), &mut source, 13)?;
    assert_eq!(rt; rest.as_slice(), b"bytes of text".as_slice());
    Ok(())
}

#[test]
fn a_listed_write_fails(rt: HostRuntime) -> Result<(), Fail> {
    let mut sink = MemorySink::new(rt.alloc(), 40, 7, &[3])?;
    assert_eq!(rt; write_all(&mut sink, TEXT), Err(Failed));
    assert_eq!(rt; sink.bytes(), b"twenty bytes o".as_slice());
    assert_eq!(rt; write_all(&mut sink, TEXT), Ok(()));
    assert_eq!(rt;
        sink.bytes(),
        b"twenty bytes otwenty bytes of text".as_slice()
    );
    Ok(())
}

#[test]
fn a_full_sink_fails(rt: HostRuntime) -> Result<(), Fail> {
    let mut sink = MemorySink::new(rt.alloc(), 20, 7, &[])?;
    assert_eq!(rt; write_all(&mut sink, TEXT), Ok(()));
    assert_eq!(rt; sink.bytes(), TEXT);
    assert_eq!(rt; sink.write(b"!"), Err(Failed));

    let mut sink = MemorySink::new(rt.alloc(), 10, 7, &[])?;
    assert_eq!(rt; write_all(&mut sink, TEXT), Err(Failed));
    assert_eq!(rt; sink.bytes(), b"twenty byt".as_slice());
    Ok(())
}
