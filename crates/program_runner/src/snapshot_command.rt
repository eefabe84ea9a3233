//! The command `snapshot`: performs the lines of a script, and writes the snapshot after them.

ghost use Rattle.program_runner.specs.Resume.{IsSnapshotAnswer};

use crate::answering::{finish, tell};
use crate::fault_count::FaultCount;
use crate::refusal_reasons::RefusalReasons;
use crate::resuming::{answer_io_error, refuse_to_begin};
use plant::OperatorName;
use plant_core::RestFault;
use state_service::{SnapshotEnd, snapshot_after};
use std::alloc::{AllocError, Global};
use std::io::{BufRead, Write};

/// Returns why there is no snapshot of a plant, and what to do.
fn unfinished_reason(
    alloc: Global,
    why: RestFault,
    operator: Option<OperatorName>,
) -> Result<String, AllocError> {
    let name = match operator {
        Some(name) => format!(in alloc; "{name}")?,
        None => String::new(alloc),
    };
    match why {
        RestFault::FrameWaits { op: _ } => format!(in alloc;
            "no snapshot: operator {name} has ticked and others have not; add a line T OPERATOR for each of them, or end with a line T\n"
        ),
        RestFault::NotAtFrame { op: _ } => format!(in alloc;
            "no snapshot: operator {name} is at another frame than the first operator; add lines T OPERATOR until all have ticked as often\n"
        ),
    }
}

/// Performs the command `snapshot`. Returns the status.
pub(crate) fn run_snapshot<R: BufRead, W: Write, E: Write>(
    alloc: Global,
    reader: &mut R,
    writer: &mut W,
    reasons: &mut E,
) -> u8
    ensures { IsSnapshotAnswer (R.remaining reader.old) result (W.contents writer.old) (W.contents writer.new) }
{
    let mut answers = FaultCount::new();
    let mut notes = RefusalReasons::new(reasons);
    let ended = snapshot_after(alloc, reader, &mut answers, writer, &mut notes);
    if let Some(reason) = answers.reason(alloc) {
        tell(reasons, reason);
    }
    match ended {
        Ok(SnapshotEnd::Saved) => 0,
        Ok(SnapshotEnd::Unfinished { why, operator }) => {
            tell(reasons, unfinished_reason(alloc, why, operator));
            finish(writer, 3, b"fault: state\n")
        }
        Ok(SnapshotEnd::NoMemory) => {
            tell(reasons, Err(AllocError));
            finish(writer, 5, b"fault: memory\n")
        }
        Ok(SnapshotEnd::NotBegun { fault }) => refuse_to_begin(alloc, &fault, writer, reasons),
        Err(error) => answer_io_error(alloc, &error, writer, reasons),
    }
}
