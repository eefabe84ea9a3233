//! Lines that are read from a buffer of few bytes.

use line_service::{LineBreak, LineBuffer, read_line};
use std::alloc::Global;
use std::io::{BufRead, BufReader, Read};
use std::process::Abort;
use std::test::Fail;

/// Asserts that the next line of a reader is this one, with this after it.
fn check_line<R: BufRead>(
    rt: &impl Abort,
    alloc: Global,
    reader: &mut R,
    line: &[u8],
    after: LineBreak,
) -> Result<(), Fail> {
    let mut held = LineBuffer::new(alloc)?;
    let end = read_line(reader, &mut held)?;
    assert_eq!(rt; held.bytes.as_slice(), line);
    assert_eq!(rt; end, after);
    Ok(())
}

/// Checks that a line is read whole of which the buffer has a part at a time, and nothing after its line feed.
#[test]
fn lines_are_read_in_parts(rt: HostRuntime) -> Result<(), Fail> {
    let alloc = rt.alloc();
    let mut reader = BufReader::with_capacity(alloc, 3, b"T A\n\nlonger\nT".as_slice())?;
    check_line(&rt, alloc, &mut reader, b"T A", LineBreak::Another)?;
    check_line(&rt, alloc, &mut reader, b"", LineBreak::Another)?;
    check_line(&rt, alloc, &mut reader, b"longer", LineBreak::Another)?;
    check_line(&rt, alloc, &mut reader, b"T", LineBreak::End)
}

/// A line of 4,097 bytes is too long, one of 4,096 is not, and the line after it is read from its beginning.
#[test]
fn a_line_is_too_long(rt: HostRuntime) -> Result<(), Fail> {
    let alloc = rt.alloc();
    for (bytes, is_long) in [(4096, false), (4097, true), (9000, true)] {
        let line = vec![in alloc; b'X'; bytes]?;
        let script = line.as_slice().chain(b"\nT A".as_slice());
        let mut reader = BufReader::with_capacity(alloc, 1000, script)?;
        let mut held = LineBuffer::new(alloc)?;
        let end = read_line(&mut reader, &mut held)?;
        assert_eq!(rt; (held.is_long, end), (is_long, LineBreak::Another));
        check_line(&rt, alloc, &mut reader, b"T A", LineBreak::End)?;
    }
    Ok(())
}
