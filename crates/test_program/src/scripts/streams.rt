//! Readers and writers that fail, and a reader without end.

use std::alloc::Global;
use std::io;
use std::io::{Read, Write};

/// Gives one byte at each read, and fails at one read: tried again, it would go on.
#[derive(Drop)]
pub(crate) struct Dripping<'a> {
    pub bytes: &'a [u8],
    pub reads: usize,
    pub fails_at: usize,
    pub kind: io::ErrorKind,
}

impl Read for Dripping<'_> {
    fn read(&mut self, buf: &mut [u8]) -> io::Result<usize> {
        let fails = self.reads == self.fails_at;
        self.reads = self.reads.saturating_add(1);
        if fails {
            return Err(io::Error::from(self.kind));
        }
        match (self.bytes, buf) {
            ([first, rest @ ..], [place, ..]) => {
                *place = *first;
                self.bytes = rest;
                Ok(1)
            }
            _ => Ok(0),
        }
    }
}

/// Gives one byte at each read, without end.
#[derive(Drop)]
pub(crate) struct Endless {
    pub reads: usize,
}

impl Read for Endless {
    fn read(&mut self, buf: &mut [u8]) -> io::Result<usize> {
        self.reads = self.reads.saturating_add(1);
        match buf {
            [place, ..] => {
                *place = b'\n';
                Ok(1)
            }
            [] => Ok(0),
        }
    }
}

/// Takes so many bytes at each write, and fails at the writes from one on and before another.
#[derive(Drop)]
pub(crate) struct Narrow {
    pub held: Vec<u8>,
    pub takes: usize,
    pub writes: usize,
    pub fails_at: usize,
    pub goes_on_at: usize,
}

impl Narrow {
    /// Fails at one write: the next would go on.
    pub(crate) fn failing_once(alloc: Global, takes: usize, fails_at: usize) -> Narrow {
        Narrow {
            held: Vec::new(alloc),
            takes,
            writes: 0,
            fails_at,
            goes_on_at: fails_at.saturating_add(1),
        }
    }

    /// Fails at one write and at all after it.
    pub(crate) fn failing_from(alloc: Global, takes: usize, fails_at: usize) -> Narrow {
        Narrow {
            held: Vec::new(alloc),
            takes,
            writes: 0,
            fails_at,
            goes_on_at: usize::MAX,
        }
    }
}

impl Write for Narrow {
    fn write(&mut self, buf: &[u8]) -> io::Result<usize> {
        let fails = self.fails_at <= self.writes && self.writes < self.goes_on_at;
        self.writes = self.writes.saturating_add(1);
        if fails {
            return Err(io::Error::from(io::ErrorKind::Other));
        }
        let count = buf.len().min(self.takes);
        self.held.extend_from_slice(&buf[..count])?;
        Ok(count)
    }

    fn flush(&mut self) -> io::Result<()> {
        Ok(())
    }
}

/// Takes all bytes, and fails where it is flushed.
#[derive(Drop)]
pub(crate) struct Unflushed {
    pub held: Vec<u8>,
}

impl Write for Unflushed {
    fn write(&mut self, buf: &[u8]) -> io::Result<usize> {
        self.held.extend_from_slice(buf)?;
        Ok(buf.len())
    }

    fn flush(&mut self) -> io::Result<()> {
        Err(io::Error::from(io::ErrorKind::Other))
    }
}
