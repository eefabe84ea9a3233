//! The command `resume`: a service that begins with a plant file or a snapshot.

ghost use Rattle.std.specs.Prelude.{◌≡◌, ◌≢◌, IfOk};
ghost use Rattle.std.specs.String.{string_bytes};
ghost use Rattle.program_runner.specs.Resume.{begin_status, begin_line, RefusesToBegin, IsResumeAnswer};

use crate::answering::{finish, tell};
use crate::begin_reasons::{begin_reason, io_reason};
use crate::refusal_reasons::RefusalReasons;
use plant_script::plant_line;
use state_service::{BeginFault, ServiceEnd, resume};
use std::alloc::{AllocError, Global};
use std::io;
use std::io::{BufRead, Write};

/// Returns the status of a service that does not begin.
fn begin_status(fault: &BeginFault) -> u8
    ensures { result ≡ begin_status fault.now }
{
    match fault {
        BeginFault::NotText => 6,
        BeginFault::InvalidSnapshot { .. }
        | BeginFault::InvalidPlant { .. }
        | BeginFault::NotRestored { .. } => 3,
        BeginFault::NoMemory => 5,
    }
}

/// Returns the line of a service that does not begin.
fn begin_line(alloc: Global, fault: &BeginFault) -> Result<String, AllocError>
    ensures { IfOk result (λ line. string_bytes line ≡ begin_line fault.now) }
{
    match fault {
        BeginFault::NotText => String::from_str(alloc, "fault: io\n"),
        BeginFault::InvalidSnapshot { number, wrong: _ } => format!(in alloc;
            "fault: snapshot {number}\n"
        ),
        BeginFault::InvalidPlant { fault } => plant_line(alloc, *fault),
        BeginFault::NotRestored { why: _ } => String::from_str(alloc, "fault: state\n"),
        BeginFault::NoMemory => String::from_str(alloc, "fault: memory\n"),
    }
}

/// Writes the line of a service that does not begin. Returns the status.
pub(crate) fn write_begin_fault<W: Write>(alloc: Global, fault: &BeginFault, writer: &mut W) -> u8
    ensures { result ≢ 6 → RefusesToBegin fault.now result (W.contents writer.old) (W.contents writer.new) }
{
    match begin_line(alloc, fault) {
        Ok(line) => finish(writer, begin_status(fault), line.as_bytes()),
        Err(_full) => finish(writer, 5, b"fault: memory\n"),
    }
}

/// Writes why a service does not begin. Returns the status.
pub(crate) fn refuse_to_begin<W: Write, E: Write>(
    alloc: Global,
    fault: &BeginFault,
    writer: &mut W,
    reasons: &mut E,
) -> u8
    ensures { result ≢ 6 → RefusesToBegin fault.now result (W.contents writer.old) (W.contents writer.new) }
{
    tell(reasons, begin_reason(alloc, fault));
    write_begin_fault(alloc, fault, writer)
}

/// Answers a read or a write that failed. Returns the status.
pub(crate) fn answer_io_error<W: Write, E: Write>(
    alloc: Global,
    error: &io::Error,
    writer: &mut W,
    reasons: &mut E,
) -> u8
    ensures { result ≡ 6 }
{
    tell(reasons, io_reason(alloc, error));
    let _lost = finish(writer, 6, b"fault: io\n");
    6
}

/// Performs the command `resume`. Returns the status.
pub(crate) fn run_resume<R: BufRead, W: Write, E: Write>(
    alloc: Global,
    reader: &mut R,
    writer: &mut W,
    reasons: &mut E,
) -> u8
    ensures { IsResumeAnswer (R.remaining reader.old) result (W.contents writer.old) (W.contents writer.new) }
{
    let ended = resume(alloc, reader, writer, &mut RefusalReasons::new(reasons));
    match ended {
        Ok(ServiceEnd::Served) => 0,
        Ok(ServiceEnd::NotBegun { fault }) => refuse_to_begin(alloc, &fault, writer, reasons),
        Err(error) => answer_io_error(alloc, &error, writer, reasons),
    }
}
