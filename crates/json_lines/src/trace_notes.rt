//! The notes of a whole trace: what is known of each output, in their order.

ghost use Rattle.std.specs.Prelude.{◌≡◌, ◌≤◌, [], false, true, None, Some, IfOk, length};

use crate::context::{OutputContext, OutputNote, TakenLine};
use crate::plain_line::plain_line;
use memchr::memchr;
use std::alloc::{AllocError, Global};
use std::io;
use std::io::Write;

/// A writer that takes a trace, and keeps a note of each output.
#[derive(Drop)]
pub struct TraceNotes {
    alloc: Global,
    context: OutputContext,
    /// The line so far.
    held: Vec<u8>,
    /// The notes, in the order of the outputs.
    notes: Vec<OutputNote>,
    /// Whether an allocation failed.
    is_full: bool,
}

impl TraceNotes {
    /// Returns that nothing was written.
    pub fn new(alloc: Global) -> TraceNotes
        ensures { (result.notes.items ≡ []) × (result.is_full ≡ false) }
    {
        TraceNotes {
            alloc,
            context: OutputContext::new(),
            held: Vec::new(alloc),
            notes: Vec::new(alloc),
            is_full: false,
        }
    }

    /// Returns the notes, in the order of the outputs. None where an allocation for one failed.
    pub fn into_notes(self) -> Option<Vec<OutputNote>>
        ensures all { self.is_full ≡ false → result ≡ Some self.notes }
        ensures none { self.is_full ≡ true → result ≡ None }
    {
        if self.is_full { None } else { Some(self.notes) }
    }

    /// Takes the line that is held.
    fn end_line(&mut self) -> Result<(), AllocError> {
        let text = str::from_utf8(self.held.as_slice()).unwrap_or("");
        match self.context.take_line(self.alloc, plain_line(text))? {
            TakenLine::Output(note) => self.notes.push(note)?,
            TakenLine::Comparison { .. } | TakenLine::Other => {}
        }
        self.held.clear();
        Ok(())
    }

    /// Takes bytes up to the end of a line, or all. Returns how many it took.
    fn take(&mut self, buf: &[u8]) -> Result<usize, AllocError>
        ensures { IfOk result (λ count. count ≤ length buf.now) }
    {
        match memchr(b'\n', buf) {
            Some(place) => {
                self.held.extend_from_slice(&buf[..place])?;
                self.end_line()?;
                Ok(place + 1)
            }
            None => {
                self.held.extend_from_slice(buf)?;
                Ok(buf.len())
            }
        }
    }
}

impl Write for TraceNotes {
    fn write(&mut self, buf: &[u8]) -> io::Result<usize> {
        match self.take(buf) {
            Ok(count) => Ok(count),
            Err(full) => {
                self.is_full = true;
                Err(io::Error::from(full))
            }
        }
    }

    fn flush(&mut self) -> io::Result<()> {
        Ok(())
    }
}
