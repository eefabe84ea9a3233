//! Lines as they are read: half lines, lines that are too long, and binary bytes.

use fair_queue::Line;
use line_intake::read_line;
use std::alloc::Global;
use std::io;
use std::process::Abort;

/// Returns whether the next line has these bytes.
fn is_next(alloc: Global, text: &mut &[u8], wanted: &[u8]) -> io::Result<bool> {
    match read_line(alloc, text)? {
        Some(line) => Ok(line.as_slice() == wanted),
        None => Ok(false),
    }
}

/// Returns whether what follows the last line feed is a line, and nothing after it.
fn reads_half_line(alloc: Global) -> io::Result<bool> {
    let mut text = b"\xff\0a\n\nhal".as_slice();
    Ok(
        is_next(alloc, &mut text, b"\xff\0a")?
            && is_next(alloc, &mut text, b"")?
            && is_next(alloc, &mut text, b"hal")?
            && read_line(alloc, &mut text)?.is_none(),
    )
}

#[test]
fn a_half_line_is_the_last_line(rt: HostRuntime) -> io::Result<()> {
    assert!(rt; reads_half_line(rt.alloc())?);
    Ok(())
}

/// Returns whether a line of so many bytes is too long, and the line after it is read.
fn is_too_long(alloc: Global, count: usize) -> io::Result<bool> {
    let mut text = Vec::new(alloc);
    for _ in 0..count {
        text.push(b'a')?;
    }
    text.extend_from_slice(b"\nnext\n")?;
    let mut rest = text.as_slice();
    let Some(line) = read_line(alloc, &mut rest)? else {
        return Ok(false);
    };
    Ok(Line::new(line).is_long() && is_next(alloc, &mut rest, b"next")?)
}

#[test]
fn a_line_that_is_too_long_stays_so(rt: HostRuntime) -> io::Result<()> {
    assert!(rt; is_too_long(rt.alloc(), 4097)?);
    assert!(rt; is_too_long(rt.alloc(), 9000)?);
    assert!(rt; !is_too_long(rt.alloc(), 4096)?);
    Ok(())
}
