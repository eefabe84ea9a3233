//! A writer that takes the lines of the program, and writes an object of JSON for each.

ghost use Rattle.std.specs.Prelude.{◌≡◌, ◌≤◌, [], false, None, Some, IfOk, length};
ghost use Rattle.json_lines.specs.declared.writer.LineSource.TheVariants as sources;
ghost use Rattle.json_lines.specs.Sources.{begun_line, with_next_check};

use crate::context::{DecidingCheck, OutputContext, OutputNote, TakenLine};
use crate::members::{put_comparison_line, put_line, put_note};
use crate::object::{JsonObject, write_object};
use crate::plain_line::{PlainLine, plain_line};
use memchr::memchr;
use std::alloc::{AllocError, Global};
use std::io::Write;
use std::vec::IntoIter;
use std::{io, mem};

/// Where lines come from, and so what is known of an output besides its own line.
#[derive(Drop)]
pub enum LineSource {
    /// A command whose lines say all.
    Alone,
    /// A trace: its lines say from which line of the script an output comes, and which check decided it.
    Trace(OutputContext),
    /// A run whose outputs have these notes.
    Run(IntoIter<OutputNote>),
    /// A service, which says of each output from which line of the script it comes, and which check decides it.
    Service(OutputContext),
}

/// A writer that takes the lines of the program, and writes an object of JSON for each. An allocation that fails for an object
/// fails the write.
#[derive(Drop)]
pub struct JsonLines<'a, W> {
    alloc: Global,
    writer: &'a mut W,
    source: LineSource,
    /// The line so far.
    held: Vec<u8>,
    /// Whether an allocation failed.
    is_full: bool,
}

impl LineSource {
    /// Returns the source of a trace.
    pub fn trace() -> LineSource
        ensures { result ≡ sources.Trace (record { line = None; check = None }) }
    {
        LineSource::Trace(OutputContext::new())
    }

    /// Returns the source of a service, before its first line.
    pub fn service() -> LineSource
        ensures { result ≡ sources.Service (record { line = Some 1; check = None }) }
    {
        let mut context = OutputContext::new();
        context.begin_line(1);
        LineSource::Service(context)
    }

    /// Takes a line. Returns what is known of it.
    fn take_line(&mut self, alloc: Global, line: PlainLine<'_>) -> Result<TakenLine, AllocError> {
        match self {
            LineSource::Alone => Ok(TakenLine::Other),
            LineSource::Trace(context) => match context.take_line(alloc, line)? {
                TakenLine::Other => Ok(TakenLine::Output(context.note_of_line())),
                taken => Ok(taken),
            },
            LineSource::Run(notes) => Ok(note_of_run(notes, line)),
            LineSource::Service(context) => Ok(note_of_service(context, line)),
        }
    }
}

/// Returns the next note where a line of a run is an output.
fn note_of_run(notes: &mut IntoIter<OutputNote>, line: PlainLine<'_>) -> TakenLine {
    match line {
        PlainLine::Reply { .. }
        | PlainLine::Drop { .. }
        | PlainLine::Frame { .. }
        | PlainLine::Map { .. } => match notes.next() {
            Some(note) => TakenLine::Output(note),
            None => TakenLine::Other,
        },
        _ => TakenLine::Other,
    }
}

/// Returns what the service has said of an output. Of a fault that is the line of the script, except for one that comes before the
/// first line.
fn note_of_service(context: &mut OutputContext, line: PlainLine<'_>) -> TakenLine {
    match line {
        PlainLine::Fault { fault } if fault != "memory" => TakenLine::Other,
        PlainLine::Fault { fault: _ } => TakenLine::Output(context.note_of_line()),
        _ => TakenLine::Output(context.take_note()),
    }
}

/// Returns the object of a line.
fn object_of(
    alloc: Global,
    line: PlainLine<'_>,
    taken: &TakenLine,
) -> Result<JsonObject, AllocError> {
    let mut object = JsonObject::new(alloc);
    match taken {
        TakenLine::Output(note) => {
            put_note(&mut object, note)?;
            put_line(&mut object, line)?;
        }
        TakenLine::Comparison { line, comparison } => {
            put_comparison_line(&mut object, *line, *comparison)?;
        }
        TakenLine::Other => put_line(&mut object, line)?,
    }
    Ok(object)
}

impl<'a, W: Write> JsonLines<'a, W> {
    /// Returns that no line was written.
    pub fn new(alloc: Global, writer: &'a mut W, source: LineSource) -> JsonLines<'a, W>
        ensures { (result.source ≡ source) × (result.held.items ≡ []) × (result.is_full ≡ false) }
    {
        JsonLines {
            alloc,
            writer,
            source,
            held: Vec::new(alloc),
            is_full: false,
        }
    }

    /// Begins a line of the script of a service. Has no effect on another source.
    pub fn begin_line(&mut self, number: u64)
        ensures source { self.new.source ≡ begun_line number self.old.source }
        ensures same { (self.new.held.items ≡ self.old.held.items) × (self.new.is_full ≡ self.old.is_full) }
    {
        if let LineSource::Service(context) = &mut self.source {
            context.begin_line(number);
        }
    }

    /// Says which check decides the next output of a service, if one does. Has no effect on another source.
    pub fn say_check(&mut self, check: Option<DecidingCheck>)
        ensures source { self.new.source ≡ with_next_check check self.old.source }
        ensures same { (self.new.held.items ≡ self.old.held.items) × (self.new.is_full ≡ self.old.is_full) }
    {
        if let LineSource::Service(context) = &mut self.source {
            context.say_check(check);
        }
    }

    /// Returns whether an allocation failed for an object.
    pub fn is_full(&self) -> bool
        ensures { result ≡ self.now.is_full }
    {
        self.is_full
    }

    /// Notes whether an allocation failed.
    fn note_memory<T>(&mut self, outcome: &io::Result<T>) {
        if let Err(error) = outcome {
            self.is_full = self.is_full || error.kind() == io::ErrorKind::OutOfMemory;
        }
    }

    /// Returns the object of a line.
    fn take_object(&mut self, text: &str) -> Result<JsonObject, AllocError> {
        let line = plain_line(text);
        let taken = self.source.take_line(self.alloc, line)?;
        object_of(self.alloc, line, &taken)
    }

    /// Writes the object of a line.
    fn write_line(&mut self, line: &[u8]) -> io::Result<()> {
        let Ok(text) = str::from_utf8(line) else {
            return Err(io::Error::from(io::ErrorKind::InvalidData));
        };
        let object = self.take_object(text)?;
        write_object(self.writer, object, text)
    }

    /// Writes the object of the line that is held.
    fn end_line(&mut self) -> io::Result<()> {
        let mut held = mem::replace(&mut self.held, Vec::new(self.alloc));
        let outcome = self.write_line(held.as_slice());
        held.clear();
        self.held = held;
        outcome
    }

    /// Takes bytes up to the end of a line, or all. Returns how many it took.
    fn take(&mut self, buf: &[u8]) -> io::Result<usize>
        ensures { IfOk result (λ count. count ≤ length buf.now) }
    {
        match memchr(b'\n', buf) {
            Some(place) => {
                self.held.extend_from_slice(&buf[..place])?;
                self.end_line()?;
                Ok(place + 1)
            }
            None => {
                self.held.extend_from_slice(buf)?;
                Ok(buf.len())
            }
        }
    }
}

impl<W: Write> Write for JsonLines<'_, W> {
    fn write(&mut self, buf: &[u8]) -> io::Result<usize> {
        let outcome = self.take(buf);
        self.note_memory(&outcome);
        outcome
    }

    fn flush(&mut self) -> io::Result<()> {
        self.writer.flush()
    }
}
