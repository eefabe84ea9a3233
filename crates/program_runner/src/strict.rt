//! The command `check` with the option `--strict`: what `check` warns of is a fault of the plant file.

ghost use Rattle.std.specs.Prelude.{◌≡◌};
ghost use Rattle.clap.specs.Walk.{texts};
ghost use Rattle.command_line.specs.Order.{asked_of};
ghost use Rattle.command_line.specs.declared.options.UnknownKeyHandling.TheVariants.{Warn};
ghost use Rattle.program_runner.specs.Answered.{IsWordAnswer};

use crate::answering::{answer_out_of_memory, finish, pass_on, tell};
use crate::command::Command;
use crate::recording::RecordingReader;
use command_line::UnknownKeyHandling;
use diagnostics::{StrictFault, strict_fault_of};
use std::alloc::{AllocError, Global};
use std::io::{BufRead, BufReader, Write};
use std::sync::Wait;
use std::thread::Threads;

/// Returns what is refused of an input whose plant file is valid otherwise.
fn strict_fault_in(
    alloc: Global,
    record: Option<&[u8]>,
    status: u8,
) -> Result<Option<StrictFault>, AllocError> {
    match (status, record) {
        (0 | 4, Some(record)) => strict_fault_of(alloc, str::from_utf8(record).unwrap_or("")),
        (0 | 4, None) => Err(AllocError),
        _ => Ok(None),
    }
}

/// Answers that a plant file is refused. Returns the status.
fn refuse_strictly<W: Write, E: Write>(
    alloc: Global,
    fault: StrictFault,
    writer: &mut W,
    reasons: &mut E,
) -> u8 {
    let StrictFault { first, reason } = fault;
    let status = match format!(in alloc; "fault: plant 12 {first}\n") {
        Ok(line) => finish(writer, 3, line.as_bytes()),
        Err(_full) => finish(writer, 5, b"fault: memory\n"),
    };
    tell(reasons, Ok(reason));
    status
}

/// Performs `check`, and answers as it does, except where the plant file is valid and `check` would warn of it: then that is a
/// fault of it. Returns the status.
pub(crate) fn check_strictly<H: Threads + Wait + Sync, R: BufRead, W: Write, E: Write>(
    command: &Command<'_, H>,
    reader: &mut R,
    writer: &mut W,
    reasons: &mut E,
) -> u8 {
    let alloc = command.alloc;
    let Ok(mut recording) = BufReader::new(alloc, RecordingReader::new(alloc, reader)) else {
        return answer_out_of_memory(writer, reasons);
    };
    let (mut answer, mut message) = (Vec::new(alloc), Vec::new(alloc));
    let status = command.run(&mut recording, &mut answer, &mut message);
    match strict_fault_in(alloc, recording.get_ref().record(), status) {
        Ok(Some(fault)) => refuse_strictly(alloc, fault, writer, reasons),
        Ok(None) => {
            pass_on(message.as_slice(), reasons);
            finish(writer, status, answer.as_slice())
        }
        Err(_full) => answer_out_of_memory(writer, reasons),
    }
}

/// Performs a command, `run` as on a plant file, with warnings of the file, or with what is warned of as a fault. Returns the status.
pub(crate) fn run_keys<H: Threads + Wait + Sync, R: BufRead, W: Write, E: Write>(
    command: &Command<'_, H>,
    reader: &mut R,
    writer: &mut W,
    reasons: &mut E,
) -> u8
    ensures answered { command.now.unknown_keys ≡ Warn → IsWordAnswer (asked_of command.now.word) (texts command.now.words.now)
        (R.remaining reader.old) result (W.contents writer.old) (W.contents writer.new) }
{
    match command.unknown_keys {
        UnknownKeyHandling::Warn => command.run(reader, writer, reasons),
        UnknownKeyHandling::Refuse => check_strictly(command, reader, writer, reasons),
    }
}
