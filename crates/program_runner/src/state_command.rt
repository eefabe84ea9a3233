//! The command `serve` with the option `--state`: a service whose lines are in the journal of a folder before they are answered.

ghost use Rattle.std.specs.Prelude.{◌≡◌, ◌≢◌};
ghost use Rattle.program_runner.specs.StateCommand.{journal_kind, stream_kind, state_kind, opening_kind, WritesFault, StateServiceEnds, StateFolderEnds};
ghost use Rattle.line_journal.specs.Device.{Only};
ghost use Rattle.journal_file.specs.Disk.{MayLeave};
ghost use Rattle.journal_file.specs.File.{seen_bytes, calls_made};
ghost use Rattle.std.specs.IoError.{error_kind};

use crate::answering::{answer_out_of_memory, finish, pass_on, tell};
use crate::command::Command;
use crate::file_input::FileInput;
use crate::front_reader::FrontReader;
use crate::refusal_reasons::RefusalReasons;
use crate::state_reasons::{PERIOD_REASON, opening_reason, plant_reason, state_reason};
use command_line::ProgramOptions;
use journal_file::{JournalFile, JournalOpenFault};
use line_journal::Journal;
use plant_script::plant_line;
use slice_table::PlantFault;
use state_service::{DurableFault, JournalStateFault, LineFailure, StateServiceFault, serve_state};
use std::alloc::Global;
use std::io;
use std::io::{BufRead, BufReader, Read, Write};
use std::rt::Files;
use std::sync::Wait;
use std::thread::Threads;

/// After how many lines the state is saved, if the option does not say it.
const USUAL_PERIOD: u64 = 10_000;

/// The greatest number of lines after which the state may be saved.
const MOST_PERIOD: u64 = 1 << 63;

/// What a fault is, as the last line of the output reports it.
#[derive(Clone, Copy, Debug)]
pub(crate) enum FaultKind {
    /// The plant file is invalid.
    Plant { fault: PlantFault },
    /// The state or the change of plant is refused.
    State,
    /// The process is out of memory.
    Memory,
    /// A read or a write failed, of a stream or of the disk.
    Io,
}

/// A folder with a journal, and when the state is saved in it.
#[derive(Clone, Copy)]
struct StateFolder<'a> {
    path: &'a str,
    /// After how many lines the state is saved.
    period: u64,
}

/// Returns after how many lines the state is saved, or nothing if the text is not such a number.
fn period_of(text: Option<&str>) -> Option<u64> {
    let Some(text) = text else {
        return Some(USUAL_PERIOD);
    };
    if text.starts_with("+") {
        return None;
    }
    let period = text.parse::<u64>().ok()?;
    if period == 0 || period > MOST_PERIOD {
        return None;
    }
    Some(period)
}

/// Returns what a fault of a journal is.
fn journal_kind(fault: &DurableFault) -> FaultKind
    ensures { result ≡ journal_kind fault.now }
{
    match fault {
        DurableFault::NoJournal => FaultKind::State,
        DurableFault::State {
            fault: JournalStateFault::NoMemory,
        } => FaultKind::Memory,
        DurableFault::State { .. } => FaultKind::State,
        DurableFault::Line {
            failure: LineFailure::NoMemory,
        } => FaultKind::Memory,
        DurableFault::Line {
            failure: LineFailure::TooManyLines,
        } => FaultKind::Io,
        DurableFault::Disk | DurableFault::Full => FaultKind::Io,
    }
}

/// Returns what a failed read or write is.
fn stream_kind(error: &io::Error) -> FaultKind
    ensures { result ≡ stream_kind (error_kind error.now) }
{
    match error.kind() {
        io::ErrorKind::OutOfMemory => FaultKind::Memory,
        _ => FaultKind::Io,
    }
}

/// Returns what a fault of a service with a journal is.
fn state_kind(fault: &StateServiceFault) -> FaultKind
    ensures { result ≡ state_kind fault.now }
{
    match fault {
        StateServiceFault::NotText => FaultKind::Io,
        StateServiceFault::InvalidPlant { fault } => FaultKind::Plant { fault: *fault },
        StateServiceFault::Journal { fault } => journal_kind(fault),
        StateServiceFault::NotRestored { .. } | StateServiceFault::NotChanged { .. } => {
            FaultKind::State
        }
        StateServiceFault::Stream { error } => stream_kind(error),
        StateServiceFault::NoMemory => FaultKind::Memory,
    }
}

/// Returns what a folder is whose journal is not opened.
fn opening_kind(fault: &JournalOpenFault) -> FaultKind
    ensures { result ≡ opening_kind fault.now }
{
    match fault {
        JournalOpenFault::NoMemory => FaultKind::Memory,
        JournalOpenFault::NotAFolder | JournalOpenFault::Io { .. } | JournalOpenFault::InUse =>
            FaultKind::Io,
    }
}

/// Writes the last line of a fault. Returns the status.
fn write_fault<W: Write>(alloc: Global, kind: FaultKind, writer: &mut W) -> u8
    ensures { result ≢ 6 → WritesFault kind result (W.contents writer.old) (W.contents writer.new) }
{
    match kind {
        FaultKind::Plant { fault } => match plant_line(alloc, fault) {
            Ok(line) => finish(writer, 3, line.as_bytes()),
            Err(_full) => finish(writer, 5, b"fault: memory\n"),
        },
        FaultKind::State => finish(writer, 3, b"fault: state\n"),
        FaultKind::Memory => finish(writer, 5, b"fault: memory\n"),
        FaultKind::Io => finish(writer, 6, b"fault: io\n"),
    }
}

/// Serves the lines of an input from the journal of a folder. Returns the status.
fn serve_journal<R: Read, W: Write, E: Write>(
    alloc: Global,
    folder: StateFolder<'_>,
    device: JournalFile,
    reader: &mut R,
    writer: &mut W,
    reasons: &mut E,
) -> u8
    requires { Only (seen_bytes device) (MayLeave (calls_made device)) }
    ensures { result ≢ 6 → StateServiceEnds (seen_bytes device) (R.remaining reader.old) result (W.contents writer.old) (W.contents writer.new) }
{
    let mut journal = Journal { device, gate: 0 };
    let mut reader = FrontReader::new(alloc, reader);
    let ended = serve_state(
        alloc,
        &mut journal,
        folder.period,
        &mut reader,
        writer,
        &mut RefusalReasons::new(reasons),
    );
    match ended {
        Ok(()) => {
            let file = reader.plant_file(alloc);
            tell(reasons, plant_reason(alloc, file, 0));
            0
        }
        Err(fault) => {
            let file = reader.plant_file(alloc);
            tell(reasons, state_reason(alloc, folder.path, file, &fault));
            write_fault(alloc, state_kind(&fault), writer)
        }
    }
}

/// Opens the journal of a folder, and serves the lines of an input from it. Nothing is read if it is not opened. Returns the status.
fn serve_folder<R: Read, W: Write, E: Write>(
    host: &HostRuntime,
    folder: StateFolder<'_>,
    reader: &mut R,
    writer: &mut W,
    reasons: &mut E,
) -> u8
    ensures { result ≢ 6 → StateFolderEnds (R.remaining reader.old) result (W.contents writer.old) (W.contents writer.new) }
{
    let alloc = host.alloc();
    match JournalFile::open(host, folder.path) {
        Ok(device) => serve_journal(alloc, folder, device, reader, writer, reasons),
        Err(fault) => {
            tell(reasons, opening_reason(alloc, folder.path, &fault));
            write_fault(alloc, opening_kind(&fault), writer)
        }
    }
}

/// Serves the lines of a file from the journal of a folder. Returns the status.
fn serve_file<H: Files, W: Write, E: Write>(
    rt: &H,
    host: &HostRuntime,
    folder: StateFolder<'_>,
    path: &str,
    writer: &mut W,
    reasons: &mut E,
) -> u8 {
    let alloc = host.alloc();
    let Ok(mut reader) = BufReader::new(alloc, FileInput::new(rt, path)) else {
        return answer_out_of_memory(writer, reasons);
    };
    let mut message = Vec::new(alloc);
    let status = serve_folder(host, folder, &mut reader, writer, &mut message);
    match reader.get_ref().reason(alloc) {
        Some(reason) => tell(reasons, reason),
        None => pass_on(message.as_slice(), reasons),
    }
    status
}

/// Performs `serve`, the only command with the option `--state`, which names a folder. Returns the status.
pub(crate) fn run_state<H: Files + Threads + Wait + Sync, R: BufRead, W: Write, E: Write>(
    command: &Command<'_, H>,
    path: &str,
    options: ProgramOptions<'_>,
    reader: &mut R,
    writer: &mut W,
    reasons: &mut E,
) -> u8 {
    let Some(period) = period_of(options.snapshot_every) else {
        tell(reasons, String::from_str(command.alloc, PERIOD_REASON));
        return finish(writer, 2, b"fault: words\n");
    };
    let folder = StateFolder { path, period };
    match options.input {
        None => serve_folder(command.host, folder, reader, writer, reasons),
        Some(file) => serve_file(command.rt, command.host, folder, file, writer, reasons),
    }
}
