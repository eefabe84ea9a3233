//! The command `serve` with the option `--json`: a plant that is kept running, and answers each line of a script by objects that
//! say which check decided a message.

use crate::answering::{finish, tell};
use crate::command::Command;
use command_line::Word;
use diagnostics::{Trouble, reason_of, reason_of_trouble};
use json_lines::{JsonLines, LineSource};
use json_service::{CheckNotes, ServiceFault, serve_opened};
use line_service::read_plant_text;
use plant::Plant;
use slice_table::{PlantFault, read_plant};
use std::alloc::Global;
use std::io;
use std::io::{BufRead, Write};
use std::sync::Wait;
use std::thread::Threads;

/// Answers that there was no memory, or that a read or a write failed. Returns the status.
fn answer_trouble<W: Write, E: Write>(
    alloc: Global,
    trouble: Trouble,
    lines: &mut JsonLines<'_, W>,
    reasons: &mut E,
) -> u8 {
    let status = match trouble {
        Trouble::Memory => finish(lines, 5, b"fault: memory\n"),
        _ => finish(lines, 6, b"fault: io\n"),
    };
    tell(reasons, reason_of_trouble(alloc, trouble));
    status
}

/// Returns why a plant file could not be read.
fn trouble_of(error: &io::Error) -> Trouble {
    match error.kind() {
        io::ErrorKind::OutOfMemory => Trouble::Memory,
        io::ErrorKind::FileTooLarge => Trouble::TooLong,
        _ => Trouble::Read,
    }
}

/// Serves the plant of a plant file, and reports how that ended. Returns the status.
fn serve_valid<R: BufRead, W: Write, E: Write>(
    alloc: Global,
    plant: Plant,
    text: &str,
    reader: &mut R,
    lines: &mut JsonLines<'_, W>,
    reasons: &mut E,
) -> u8 {
    match serve_opened(alloc, plant, reader, &CheckNotes, lines) {
        Ok(()) => {
            tell(reasons, reason_of(alloc, Word::Serve, text, 0));
            0
        }
        Err(ServiceFault::Io) if !lines.is_full() => {
            answer_trouble(alloc, Trouble::Write, lines, reasons)
        }
        Err(_fault) => answer_trouble(alloc, Trouble::Memory, lines, reasons),
    }
}

/// Serves the plant of a plant file. What is answered to an invalid file needs no script: `serve` answers it, as it does without
/// the option. Returns the status.
fn serve_file<H: Threads + Wait + Sync, R: BufRead, W: Write, E: Write>(
    command: &Command<'_, H>,
    mut file: &[u8],
    reader: &mut R,
    lines: &mut JsonLines<'_, W>,
    reasons: &mut E,
) -> u8 {
    let alloc = command.alloc;
    if let Ok(text) = str::from_utf8(file) {
        match read_plant(alloc, text) {
            Ok(plant) => return serve_valid(alloc, plant, text, reader, lines, reasons),
            Err(PlantFault::NoMemory) => {
                return answer_trouble(alloc, Trouble::Memory, lines, reasons);
            }
            Err(_fault) => {}
        }
    }
    command.run(&mut file, lines, reasons)
}

/// Performs `serve`, and writes an object for each output, with the line of the script, the check that decided it, and the numbers
/// that the check compared. Returns the status: 5 where an allocation failed for an object.
pub(crate) fn serve_objects<H: Threads + Wait + Sync, R: BufRead, W: Write, E: Write>(
    command: &Command<'_, H>,
    reader: &mut R,
    writer: &mut W,
    reasons: &mut E,
) -> u8 {
    let mut lines = JsonLines::new(command.alloc, writer, LineSource::service());
    let status = match read_plant_text(command.alloc, reader) {
        Ok(file) => serve_file(command, file.as_slice(), reader, &mut lines, reasons),
        Err(error) => answer_trouble(command.alloc, trouble_of(&error), &mut lines, reasons),
    };
    if lines.is_full() { 5 } else { status }
}
