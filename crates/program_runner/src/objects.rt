//! Commands with the option `--json`.

use crate::answering::finish;
use crate::command::Command;
use crate::noted_service::serve_objects;
use crate::recording::RecordingReader;
use crate::strict::run_keys;
use command_line::{BatchWord, CommandWord, RunReport, Word};
use json_lines::{JsonLines, LineSource, OutputNote, TraceNotes};
use plant_script::run_program_with_reasons;
use std::alloc::Global;
use std::io::{BufRead, BufReader, Write};
use std::sync::Wait;
use std::thread::Threads;

/// Performs a command, and writes an object for each of its lines. Returns the status: 5 where an allocation failed for an
/// object.
fn run_lines<H: Threads + Wait + Sync, R: BufRead, W: Write, E: Write>(
    command: &Command<'_, H>,
    source: LineSource,
    reader: &mut R,
    writer: &mut W,
    reasons: &mut E,
) -> u8 {
    let mut lines = JsonLines::new(command.alloc, writer, source);
    let status = run_keys(command, reader, &mut lines, reasons);
    if lines.is_full() { 5 } else { status }
}

/// Writes the object of a last line. Returns the status.
fn finish_line<W: Write>(alloc: Global, writer: &mut W, status: u8, line: &[u8]) -> u8 {
    let mut lines = JsonLines::new(alloc, writer, LineSource::Alone);
    finish(&mut lines, status, line)
}

/// Returns what is known of each output of a run: it is performed as a trace. None where an allocation failed, or a read.
fn notes_of<H: Threads + Wait + Sync, R: BufRead, E: Write>(
    command: &Command<'_, H>,
    reader: &mut R,
    reasons: &mut E,
) -> Result<Vec<OutputNote>, u8> {
    let words = ["trace"];
    let mut notes = TraceNotes::new(command.alloc);
    let mut message = Vec::new(command.alloc);
    let status = run_program_with_reasons(
        command.rt,
        command.alloc,
        words.as_slice(),
        reader,
        &mut notes,
        &mut message,
        command.ending,
    );
    let status = match notes.into_notes() {
        Some(notes) if status != 5 && status != 6 => return Ok(notes),
        Some(_notes) => status,
        None => 5,
    };
    let _lost = reasons.write_all(message.as_slice());
    Err(status)
}

/// Performs `run`, and writes an object for each output, with the line of the script and the check that decided it. Returns the
/// status.
fn run_noted<H: Threads + Wait + Sync, R: BufRead, W: Write, E: Write>(
    command: &Command<'_, H>,
    reader: &mut R,
    writer: &mut W,
    reasons: &mut E,
) -> u8 {
    let alloc = command.alloc;
    let Ok(mut recording) = BufReader::new(alloc, RecordingReader::new(alloc, reader)) else {
        return finish_line(alloc, writer, 5, b"fault: memory\n");
    };
    let noted = notes_of(command, &mut recording, reasons);
    match (noted, recording.get_ref().record()) {
        (Ok(notes), Some(mut input)) => {
            let source = LineSource::Run(notes.into_iter());
            run_lines(command, source, &mut input, writer, reasons)
        }
        (Err(6), Some(_input)) => finish_line(alloc, writer, 6, b"fault: io\n"),
        _ => finish_line(alloc, writer, 5, b"fault: memory\n"),
    }
}

/// Performs a command, and writes objects in place of lines. Returns the status.
pub(crate) fn run_objects<H: Threads + Wait + Sync, R: BufRead, W: Write, E: Write>(
    command: &Command<'_, H>,
    reader: &mut R,
    writer: &mut W,
    reasons: &mut E,
) -> u8 {
    match command.word {
        CommandWord::Order(Word::Batch(BatchWord::Run(RunReport::Outputs))) => {
            run_noted(command, reader, writer, reasons)
        }
        CommandWord::Order(Word::Batch(BatchWord::Run(RunReport::Trace))) => {
            run_lines(command, LineSource::trace(), reader, writer, reasons)
        }
        CommandWord::Order(Word::Serve) => serve_objects(command, reader, writer, reasons),
        _ => run_lines(command, LineSource::Alone, reader, writer, reasons),
    }
}
