//! Texts to a writer of each operator.

ghost use Rattle.std.specs.Prelude.{◌≡◌, length};
ghost use Rattle.own_answers.specs.Writing.{AreWritten, byte_lists};

use crate::text_writer::TextWriter;

/// Writes to each operator's writer its own text, and notes of each whether all of it is written. A writer that fails stops no other one.
pub fn write_texts<W: TextWriter>(writers: &mut [W], texts: &[Vec<u8>], is_written: &mut [bool])
    requires texts { length writers.old ≡ length texts.now }
    requires notes { length is_written.old ≡ length writers.old }
    ensures { AreWritten W.puts (byte_lists texts.now) is_written.new writers.old writers.new }
{
    for place in 0..writers.len() {
        let written = writers[place].write_text(texts[place].as_slice());
        is_written[place] = written;
    }
}
