//! A writer that counts the answers that are faults, and drops all answers.

use std::alloc::{AllocError, Global};
use std::io;
use std::io::Write;

/// The most bytes of a line `fault: line n` or `fault: memory`, without its line feed.
const MOST_BYTES: usize = 32;

/// A writer that drops answers, and counts the lines `fault:` among them.
#[derive(Drop)]
pub(crate) struct FaultCount {
    /// The first bytes of the line that is written.
    line: [u8; MOST_BYTES],
    /// How many bytes the line has so far.
    length: usize,
    /// The first line `fault:`.
    first: [u8; MOST_BYTES],
    /// How many bytes that line has.
    first_length: usize,
    /// How many lines `fault:` there were.
    count: u64,
}

impl FaultCount {
    /// Returns a writer to which nothing was written.
    pub(crate) fn new() -> FaultCount {
        FaultCount {
            line: [0; MOST_BYTES],
            length: 0,
            first: [0; MOST_BYTES],
            first_length: 0,
            count: 0,
        }
    }

    /// Ends a line, and counts it if it is a line `fault:`.
    fn end_line(&mut self) {
        let length = self.length;
        self.length = 0;
        let Some(line) = self.line.get(..length) else {
            return;
        };
        if !line.starts_with(b"fault: ") {
            return;
        }
        if self.count == 0 {
            self.first = self.line;
            self.first_length = length;
        }
        self.count = self.count.saturating_add(1);
    }

    /// Takes another byte of an answer.
    fn take(&mut self, byte: u8) {
        if byte == b'\n' {
            self.end_line();
            return;
        }
        if let Some(place) = self.line.get_mut(self.length) {
            *place = byte;
        }
        self.length = self.length.saturating_add(1);
    }

    /// Returns how many answers were faults, and which was the first, if there was one.
    pub(crate) fn reason(&self, alloc: Global) -> Option<Result<String, AllocError>> {
        if self.count == 0 {
            return None;
        }
        let bytes = self.first.get(..self.first_length).unwrap_or(b"");
        let first = str::from_utf8(bytes).unwrap_or("");
        if self.count == 1 {
            return Some(format!(in alloc;
                "1 line was answered by `{first}`; `plant_script resume` on the same input prints all answers\n"
            ));
        }
        let count = self.count;
        Some(format!(in alloc;
            "{count} lines were answered by a fault, the first by `{first}`; `plant_script resume` on the same input prints all answers\n"
        ))
    }
}

impl Write for FaultCount {
    fn write(&mut self, buf: &[u8]) -> io::Result<usize> {
        for byte in buf {
            self.take(*byte);
        }
        Ok(buf.len())
    }

    fn flush(&mut self) -> io::Result<()> {
        Ok(())
    }
}
