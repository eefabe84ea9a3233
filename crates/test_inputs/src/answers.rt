//! Answers to writers of which one fails, and answers in segments.

use own_answers::{MemorySegments, PlainWriter, Segmented, Segments, TextWriter, write_texts};
use std::alloc::{AllocError, Global};
use std::io;
use std::io::Write;
use std::process::Abort;

/// Takes bytes, or fails at each write.
#[derive(Drop)]
struct Disk {
    bytes: Vec<u8>,
    is_full: bool,
}

impl Write for Disk {
    fn write(&mut self, buf: &[u8]) -> io::Result<usize> {
        if self.is_full {
            return Err(io::Error::from(io::ErrorKind::StorageFull));
        }
        self.bytes.extend_from_slice(buf)?;
        Ok(buf.len())
    }

    fn flush(&mut self) -> io::Result<()> {
        Ok(())
    }
}

/// Returns whether a full disk of the first operator stops nobody.
fn goes_on(alloc: Global) -> Result<bool, AllocError> {
    let mut writers = Vec::with_capacity(alloc, 2)?;
    let mut texts = Vec::with_capacity(alloc, 2)?;
    for is_full in [true, false] {
        writers.push(PlainWriter {
            writer: Disk {
                bytes: Vec::new(alloc),
                is_full,
            },
        })?;
        texts.push(b"R 1\n".to_vec(alloc)?)?;
    }
    let mut is_written = [true, false];
    if writers.len() != 2 || texts.len() != 2 {
        return Ok(false);
    }
    write_texts(writers.as_mut_slice(), texts.as_slice(), &mut is_written);
    Ok(
        is_written == [false, true]
            && writers[0].writer.bytes.is_empty()
            && writers[1].writer.bytes.as_slice() == b"R 1\n".as_slice(),
    )
}

#[test]
fn a_full_disk_stops_nobody_else(rt: HostRuntime) -> Result<(), AllocError> {
    assert!(rt; goes_on(rt.alloc())?);
    Ok(())
}

/// Returns whether texts of 3, 0, 4, 9 and 1 bytes are in segments of at most 7 bytes.
fn are_in_segments(alloc: Global) -> bool {
    let mut writer = Segmented::new(MemorySegments::new(alloc), 7);
    let texts = [
        b"abc".as_slice(),
        b"".as_slice(),
        b"defg".as_slice(),
        b"012345678".as_slice(),
        b"h".as_slice(),
    ];
    for text in texts {
        if !writer.write_text(text) {
            return false;
        }
    }
    let files = writer.files();
    match files.closed.as_slice() {
        [first, second] => {
            first.as_slice() == b"abcdefg".as_slice()
                && second.as_slice() == b"012345678".as_slice()
                && files.current.as_slice() == b"h".as_slice()
                && writer.failures() == 0
        }
        _ => false,
    }
}

#[test]
fn texts_are_whole_in_segments(rt: HostRuntime) {
    assert!(rt; are_in_segments(rt.alloc()));
}

/// Fails at each of its calls.
#[derive(Drop)]
struct FullDisk;

impl Segments for FullDisk {
    ghost use Rattle.std.specs.Prelude.{[]};

    ghost closed = { λ _. [] };

    ghost current = { λ _. [] };

    fn append(&mut self, _bytes: &[u8]) -> io::Result<()> {
        Err(io::Error::from(io::ErrorKind::StorageFull))
    }

    fn begin_next(&mut self) -> io::Result<()> {
        Err(io::Error::from(io::ErrorKind::StorageFull))
    }
}

#[test]
fn texts_that_fail_are_counted(rt: HostRuntime) {
    let mut writer = Segmented::new(FullDisk, 7);
    assert!(rt; !writer.write_text(b"abc"));
    assert!(rt; !writer.write_text(b""));
    assert!(rt; writer.failures() == 2);
}
