//! Answers that the program does not give itself: to an invalid command line, and to unknown keys.

ghost use Rattle.std.specs.Prelude.{◌≡◌, ◌≢◌};
ghost use Rattle.std.specs.Io.KnownBytes.{Appends};
ghost use Rattle.plant_script.specs.Run.{memory_line};
ghost use Rattle.command_line.specs.declared.options.OutputFormat.TheVariants.{Plain};
ghost use Rattle.program_runner.specs.Answered.{words_line};

use command_line::{OutputFormat, text_of_wrong};
use json_lines::{JsonLines, LineSource};
use std::alloc::{AllocError, Global};
use std::io::Write;

/// Writes the text, and answers the status. Where that fails, it tries to write the line of a failed write, which may be lost
/// too, and answers 6.
pub(crate) fn finish<W: Write>(writer: &mut W, status: u8, text: &[u8]) -> u8
    ensures { result ≢ 6 → (result ≡ status) × Appends (W.contents writer.old) (W.contents writer.new) text.now }
{
    if writer.write_all(text).is_ok() && writer.flush().is_ok() {
        status
    } else {
        let _lost = writer.write_all(b"fault: io\n");
        6
    }
}

/// Writes a message. What fails in it is lost.
pub(crate) fn tell<E: Write>(reasons: &mut E, message: Result<String, AllocError>) {
    let _lost = match message {
        Ok(text) => reasons.write_all(text.as_bytes()),
        Err(_full) => reasons.write_all(b"out of memory: no message can be written\n"),
    };
    let _lost = reasons.flush();
}

/// Answers a command line that is invalid: the line `fault: words`, or its object. Returns the status.
pub(crate) fn refuse<'a, W: Write, E: Write>(
    alloc: Global,
    words: &'a [&'a str],
    output: OutputFormat,
    writer: &mut W,
    reasons: &mut E,
) -> u8
    ensures { output ≡ Plain → result ≢ 6 → (result ≡ 2) × Appends (W.contents writer.old) (W.contents writer.new) words_line }
{
    tell(reasons, text_of_wrong(alloc, words));
    match output {
        OutputFormat::Plain => finish(writer, 2, b"fault: words\n"),
        OutputFormat::JsonLines => {
            let mut lines = JsonLines::new(alloc, writer, LineSource::Alone);
            finish(&mut lines, 2, b"fault: words\n")
        }
    }
}

/// Answers that memory ran out. Returns the status.
pub(crate) fn answer_out_of_memory<W: Write, E: Write>(writer: &mut W, reasons: &mut E) -> u8
    ensures { result ≢ 6 → (result ≡ 5) × Appends (W.contents writer.old) (W.contents writer.new) memory_line }
{
    tell(reasons, Err(AllocError));
    finish(writer, 5, b"fault: memory\n")
}

/// Writes a message that was kept. What fails in it is lost.
pub(crate) fn pass_on<E: Write>(message: &[u8], reasons: &mut E) {
    let _lost = reasons.write_all(message);
    let _lost = reasons.flush();
}
