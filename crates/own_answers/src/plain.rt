//! A writer without segments.

ghost use Rattle.std.specs.Io.KnownBytes.{Appends};

use crate::text_writer::TextWriter;
use std::io::Write;

/// Holds a writer that gets one text after the other, in no segments.
#[derive(Drop)]
pub struct PlainWriter<W: Write> {
    pub writer: W,
}

impl<W: Write> TextWriter for PlainWriter<W> {
    ghost puts = { λ text old new. Appends (W.contents old.writer) (W.contents new.writer) text };

    fn write_text(&mut self, text: &[u8]) -> bool {
        match self.writer.write_all(text) {
            Ok(()) => true,
            Err(_failed) => false,
        }
    }
}
