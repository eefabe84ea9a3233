//! How a run ends: at which line, with which last line, and what becomes of what is left of it.

ghost use Rattle.std.specs.Prelude.{◌≡◌, ◌≢◌, Some, IfOk, OnOk};
ghost use Rattle.std.specs.Io.KnownBytes.{Appends};
ghost use Rattle.plant_core.specs.declared.live.core_fault.CoreFault.TheVariants.{NoMemory};
ghost use Rattle.plant_script.specs.Task.{WritesOutcome};
ghost use Rattle.plant_script.specs.Ends.{status_of, line_of, fault_status, fault_line};
ghost use Rattle.plant_script.specs.Statuses.{status_code};

use crate::answer::Answer;
use crate::input::AnswerFault;
use crate::status::Status;
use line_service::StepsEnd;
use plant_core::CoreFault;
use std::alloc::AllocError;
use std::io;
use std::io::Write;
use std::mem::{drop, forget};

/// Returns the number of a line whose step is refused, other than for out of memory.
pub(crate) fn refused_line(number: u64, fault: CoreFault) -> Result<Option<u64>, AllocError>
    ensures { IfOk result (λ refused. (refused ≡ Some number) × (fault ≢ NoMemory)) }
{
    match fault {
        CoreFault::NoMemory => Err(AllocError),
        _ => Ok(Some(number)),
    }
}

/// What becomes of a core, or of a settled run, after its last step.
#[derive(Clone, Copy, Debug, PartialEq, Eq)]
pub enum Ending {
    /// It is taken apart, and gives its memory back.
    GoesOn,
    /// It is left as it is: the process ends after the answer, and its memory is freed with it.
    Ends,
}

/// Takes a core or a settled run apart, or leaves it to the end of the process.
pub(crate) fn put_away<C: Drop>(ended: C, ending: Ending) {
    match ending {
        Ending::GoesOn => drop(ended),
        Ending::Ends => forget(ended),
    }
}

/// Writes the last line of a run whose steps ended so, if it has one. Returns the status.
pub(crate) fn write_end<W: Write>(writer: &mut W, end: StepsEnd) -> io::Result<Status>
    ensures status { IfOk result (λ status. status_code status ≡ status_of end) }
    ensures written { OnOk result (Appends (W.contents writer.old) (W.contents writer.new) (line_of end)) }
{
    match end {
        StepsEnd::Done => Ok(Status::Success),
        StepsEnd::Refused { number } => {
            write!(writer, "fault: line {number}\n")?;
            Ok(Status::InvalidLine)
        }
        StepsEnd::NoMemory => {
            writer.write_all(b"fault: memory\n")?;
            Ok(Status::OutOfMemory)
        }
    }
}

/// Writes a text, and returns the status that it is written with.
pub(crate) fn write_answer<W: Write>(
    writer: &mut W,
    status: Status,
    text: &[u8],
) -> io::Result<Status>
    ensures { IfOk result (λ told. (told ≡ status) × Appends (W.contents writer.old) (W.contents writer.new) text.now) }
{
    writer.write_all(text)?;
    writer.flush()?;
    Ok(status)
}

/// Writes why there is no answer, and returns the status of that.
pub(crate) fn write_fault<W: Write>(writer: &mut W, fault: AnswerFault) -> io::Result<Status>
    ensures { IfOk result (λ status. (status_code status ≡ fault_status fault)
        × Appends (W.contents writer.old) (W.contents writer.new) (fault_line fault)) }
{
    match fault {
        AnswerFault::Memory => write_answer(writer, Status::OutOfMemory, b"fault: memory\n"),
        AnswerFault::Io => write_answer(writer, Status::IoError, b"fault: io\n"),
    }
}

/// Writes the answer of a run, or that the process is out of memory. Returns the status.
pub(crate) fn write_outcome<W: Write>(
    writer: &mut W,
    outcome: Result<Answer, AllocError>,
) -> io::Result<Status>
    ensures { IfOk result (λ status. WritesOutcome outcome (status_code status)
        (λ text. Appends (W.contents writer.old) (W.contents writer.new) text)) }
{
    match outcome {
        Ok(answer) => write_answer(writer, answer.status, answer.text.as_slice()),
        Err(_full) => write_fault(writer, AnswerFault::Memory),
    }
}
