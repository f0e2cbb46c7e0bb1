//! `cxx_command`: runs over streams in memory.

use cxx_command::run;
use cxx_edge::{MemorySink, MemorySource};
use std::alloc::Global;
use std::test::Fail;

const UNIT: &[u8] = b"int f(int); int f(char); int x = f('a');";

const ROOM: usize = 4096;

/// How a run ends: its status, and what it writes.
#[derive(Clone, Copy)]
struct End {
    status: u8,
    out: &'static [u8],
    err: &'static [u8],
}

/// Whether a run with no words over a source whose listed calls fail ends so.
fn ends(alloc: Global, unit: &[u8], failing: &[u64], end: &End) -> Result<bool, Fail> {
    let mut source = MemorySource::new(alloc, unit, 16, failing)?;
    let mut out = MemorySink::new(alloc, ROOM, ROOM, &[])?;
    let mut err = MemorySink::new(alloc, ROOM, ROOM, &[])?;
    let status = run(alloc, &[], &mut source, &mut out, &mut err);
    Ok(status == end.status && out.bytes() == end.out && err.bytes() == end.err)
}

#[test]
fn writes_the_plain_form(rt: HostRuntime) -> Result<(), Fail> {
    let end = End {
        status: 0,
        out: b"int f__1(int);\nint f__2(char);\nint x__3 = f__2('a');\n",
        err: b"",
    };
    assert!(rt; ends(rt.alloc(), UNIT, &[], &end)?);
    Ok(())
}

#[test]
fn reports_a_fault(rt: HostRuntime) -> Result<(), Fail> {
    let end = End {
        status: 1,
        out: b"",
        err: b"1:26: no viable function\n  candidate 1 at 1:5: too few arguments\n",
    };
    assert!(rt; ends(rt.alloc(), b"int f(int, int); int x = f(1);", &[], &end)?);
    Ok(())
}

#[test]
fn writes_a_body(rt: HostRuntime) -> Result<(), Fail> {
    let end = End {
        status: 0,
        out: b"int f__1(int);\nint f__1(int x__2) {\n  return f__1(x__2);\n}\n",
        err: b"",
    };
    assert!(rt; ends(rt.alloc(), b"int f(int x) { return f(x); }", &[], &end)?);
    Ok(())
}

#[test]
fn reports_what_is_not_built(rt: HostRuntime) -> Result<(), Fail> {
    let end = End {
        status: 1,
        out: b"",
        err: b"1:12: not built\n",
    };
    assert!(rt; ends(rt.alloc(), b"int *xxx = new int;", &[], &end)?);
    Ok(())
}

#[test]
fn writes_a_negative_value(rt: HostRuntime) -> Result<(), Fail> {
    let end = End {
        status: 0,
        out: b"enum E__1 { a__2 = -1 };\n",
        err: b"",
    };
    assert!(rt; ends(rt.alloc(), b"enum E { a = '\\377' };", &[], &end)?);
    Ok(())
}

#[test]
fn says_that_a_source_failed(rt: HostRuntime) -> Result<(), Fail> {
    let end = End {
        status: 3,
        out: b"",
        err: b"cannot read\n",
    };
    assert!(rt; ends(rt.alloc(), UNIT, &[3], &end)?);
    Ok(())
}

#[test]
fn leaves_a_part_where_a_sink_failed(rt: HostRuntime) -> Result<(), Fail> {
    assert!(rt; leaves_a_part(rt.alloc())?);
    Ok(())
}

fn leaves_a_part(alloc: Global) -> Result<bool, Fail> {
    let mut source = MemorySource::new(alloc, UNIT, ROOM, &[])?;
    let mut out = MemorySink::new(alloc, ROOM, 10, &[2])?;
    let mut err = MemorySink::new(alloc, ROOM, ROOM, &[])?;
    let status = run(alloc, &[], &mut source, &mut out, &mut err);
    Ok(status == 4 && out.bytes() == b"int f__1(i".as_slice() && err.bytes().is_empty())
}

#[test]
fn a_report_that_cannot_be_written_leaves_a_part(rt: HostRuntime) -> Result<(), Fail> {
    assert!(rt; leaves_a_part_of_a_report(rt.alloc())?);
    Ok(())
}

fn leaves_a_part_of_a_report(alloc: Global) -> Result<bool, Fail> {
    let mut source = MemorySource::new(alloc, b"int *xxx = new int;", ROOM, &[])?;
    let mut out = MemorySink::new(alloc, ROOM, ROOM, &[])?;
    let mut err = MemorySink::new(alloc, 3, ROOM, &[])?;
    let status = run(alloc, &[], &mut source, &mut out, &mut err);
    Ok(status == 4 && err.bytes() == b"1:1".as_slice() && out.bytes().is_empty())
}

#[test]
fn refuses_other_words(rt: HostRuntime) -> Result<(), Fail> {
    let end = End {
        status: 2,
        out: b"",
        err: b"words not understood\n",
    };
    assert!(rt; says(rt.alloc(), "--depth=0", &end)?);
    Ok(())
}

#[test]
fn lists_the_calls(rt: HostRuntime) -> Result<(), Fail> {
    let end = End {
        status: 0,
        out: b"1:34: candidate 2 at 1:17\n  candidate 1 at 1:5: beaten\n",
        err: b"",
    };
    assert!(rt; says(rt.alloc(), "--mode=calls", &end)?);
    Ok(())
}

/// Whether a run with one word ends so.
fn says(alloc: Global, word: &str, end: &End) -> Result<bool, Fail> {
    let mut source = MemorySource::new(alloc, UNIT, ROOM, &[])?;
    let mut out = MemorySink::new(alloc, ROOM, ROOM, &[])?;
    let mut err = MemorySink::new(alloc, ROOM, ROOM, &[])?;
    let words = vec![in alloc; String::from_str(alloc, word)?]?;
    let status = run(alloc, &words, &mut source, &mut out, &mut err);
    Ok(status == end.status && out.bytes() == end.out && err.bytes() == end.err)
}
