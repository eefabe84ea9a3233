//! The command `restore`: a service that begins with a snapshot. And `run`, which may begin with one.

ghost use Rattle.std.specs.Prelude.{◌≡◌, ◌≢◌};
ghost use Rattle.std.specs.Io.KnownBytes.{Appends};
ghost use Rattle.clap.specs.Walk.{texts};
ghost use Rattle.plant_script.specs.Run.{memory_line};
ghost use Rattle.program_runner.specs.Answered.{IsRunAnswer};
ghost use Rattle.program_runner.specs.Resume.{IsRestoreAnswer};

use crate::answering::{finish, tell};
use crate::command::Command;
use crate::head_reading::read_head;
use crate::resuming::{answer_io_error, run_resume, write_begin_fault};
use plant_script::run_program_with_reasons;
use snapshot_format::Wrong;
use state_service::{BeginFault, is_snapshot_head};
use std::alloc::{AllocError, Global};
use std::io;
use std::io::{BufRead, Read, Write};
use std::sync::Wait;
use std::thread::Threads;

/// Why an input is refused that does not begin as a snapshot does.
const NO_SNAPSHOT: &str =
    "the input is not a snapshot: it does not begin with melfjits-snapshot; write one with `plant_script snapshot`, \
     or begin with a plant file under `run` or `resume`\n";

/// Answers that the first bytes of an input are not read: out of memory, or a read that failed. Returns the status.
fn refuse_unread<W: Write, E: Write>(
    alloc: Global,
    error: &io::Error,
    writer: &mut W,
    reasons: &mut E,
) -> u8
    ensures { result ≢ 6 → (result ≡ 5) × Appends (W.contents writer.old) (W.contents writer.new) memory_line }
{
    match error.kind() {
        io::ErrorKind::OutOfMemory => {
            tell(reasons, Err(AllocError));
            finish(writer, 5, b"fault: memory\n")
        }
        _ => answer_io_error(alloc, error, writer, reasons),
    }
}

/// Performs the command `restore`: as `resume`, if the input begins as a snapshot does. Returns the status.
pub(crate) fn run_restore<R: BufRead, W: Write, E: Write>(
    alloc: Global,
    reader: &mut R,
    writer: &mut W,
    reasons: &mut E,
) -> u8
    ensures { IsRestoreAnswer (R.remaining reader.old) result (W.contents writer.old) (W.contents writer.new) }
{
    let head = match read_head(alloc, reader) {
        Ok(head) => head,
        Err(error) => return refuse_unread(alloc, &error, writer, reasons),
    };
    if !is_snapshot_head(head.as_slice()) {
        tell(reasons, String::from_str(alloc, NO_SNAPSHOT));
        let fault = BeginFault::InvalidSnapshot {
            number: 1,
            wrong: Wrong::Version,
        };
        return write_begin_fault(alloc, &fault, writer);
    }
    let mut whole = head.as_slice().chain(reader);
    run_resume(alloc, &mut whole, writer, reasons)
}

/// Performs the command `run`: as `resume`, if the input begins as a snapshot does. Returns the status.
pub(crate) fn run_input<H: Threads + Wait + Sync, R: BufRead, W: Write, E: Write>(
    command: &Command<'_, H>,
    reader: &mut R,
    writer: &mut W,
    reasons: &mut E,
) -> u8
    ensures { IsRunAnswer (texts command.now.words.now) (R.remaining reader.old) result (W.contents writer.old) (W.contents writer.new) }
{
    let alloc = command.alloc;
    let head = match read_head(alloc, reader) {
        Ok(head) => head,
        Err(error) => return refuse_unread(alloc, &error, writer, reasons),
    };
    let mut whole = head.as_slice().chain(reader);
    if is_snapshot_head(head.as_slice()) {
        return run_resume(alloc, &mut whole, writer, reasons);
    }
    let (rt, words, ending) = (command.rt, command.words, command.ending);
    run_program_with_reasons(rt, alloc, words, &mut whole, writer, reasons, ending)
}
