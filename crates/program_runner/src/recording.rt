//! A reader that keeps what was read.

use std::alloc::Global;
use std::io;
use std::io::Read;

/// A reader that keeps what was read of another.
#[derive(Drop)]
pub(crate) struct RecordingReader<'a, R> {
    reader: &'a mut R,
    /// What was read.
    record: Vec<u8>,
    /// Whether an allocation for it failed.
    is_full: bool,
}

impl<'a, R: Read> RecordingReader<'a, R> {
    /// Returns that nothing was read.
    pub(crate) fn new(alloc: Global, reader: &'a mut R) -> RecordingReader<'a, R> {
        RecordingReader {
            reader,
            record: Vec::new(alloc),
            is_full: false,
        }
    }

    /// Returns what was read. None where an allocation for it failed.
    pub(crate) fn record(&self) -> Option<&[u8]> {
        if self.is_full {
            None
        } else {
            Some(self.record.as_slice())
        }
    }
}

impl<R: Read> Read for RecordingReader<'_, R> {
    fn read(&mut self, buf: &mut [u8]) -> io::Result<usize> {
        let count = self.reader.read(buf)?;
        if self.record.extend_from_slice(&buf[..count]).is_err() {
            self.is_full = true;
        }
        Ok(count)
    }
}
