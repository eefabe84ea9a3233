//! A service whose lines are performed for the snapshot after them.

ghost use Rattle.std.specs.Prelude.{List, ℕ, IfOk};
ghost use Rattle.run_model.specs.IsStateAfter.{CoreView};
ghost use Rattle.state_service.specs.declared.resumed.last_state.AtEnd.TheVariants.{Snapshot};
ghost use Rattle.state_service.specs.resumed.LastStates.{IsLastState};
ghost use Rattle.state_service.specs.resumed.SavedAfter.{IsSnapshotWritten, EndsWithSnapshot};

use crate::resumed::begin_fault::BeginFault;
use crate::resumed::beginning::read_beginning;
use crate::resumed::last_state::{AtEnd, BegunEnd, LastState};
use crate::resumed::notes::RefusalNotes;
use crate::resumed::serving::serve_begun;
use plant::OperatorName;
use plant_core::RestFault;
use std::alloc::Global;
use std::io;
use std::io::{BufRead, Write};

/// How a service ended whose lines are performed for the snapshot after them.
#[derive(Debug, Drop)]
pub enum SnapshotEnd {
    /// All lines are performed, and the snapshot of the plant after them is written.
    Saved,
    /// All lines are performed, and the plant does not rest before a frame then, because of the operator of this name. No snapshot
    /// is written.
    Unfinished {
        why: RestFault,
        operator: Option<OperatorName>,
    },
    /// All lines are performed, and memory ran out for the snapshot. None is written.
    NoMemory,
    /// The service did not begin, for this reason. Nothing is written.
    NotBegun {
        fault: BeginFault,
    },
}

/// Writes the snapshot of the core after the last line, if there is one.
fn write_last<W: Write>(last: LastState, writer: &mut W) -> io::Result<SnapshotEnd>
    ensures { IfOk result (λ end. (file : List ℕ) (live : CoreView) → IsLastState Snapshot file live last
        → IsSnapshotWritten file live (W.contents writer.old) (W.contents writer.new) end) }
{
    match last {
        LastState::Saved { text } => {
            writer.write_all(text.as_slice())?;
            writer.flush()?;
            Ok(SnapshotEnd::Saved)
        }
        LastState::Unfinished { why, operator } => Ok(SnapshotEnd::Unfinished { why, operator }),
        LastState::NoSnapshot => Ok(SnapshotEnd::NoMemory),
    }
}

/// Performs the lines of an input as `resume` does, and writes the snapshot of the plant after the last one. The answers to the lines
/// go to `answers`, and the snapshot alone to `writer`. It is what `resume` would answer to a line `K` there. Its plant file is the one
/// in force after the last line.
///
/// If the plant does not rest before a frame then, no snapshot is written. So it is where memory runs out for the snapshot, and where
/// the service does not begin. An error is one of the reader's or of a writer's; then no clause says what is written.
pub fn snapshot_after<R: BufRead, A: Write, W: Write, N: RefusalNotes>(
    alloc: Global,
    reader: &mut R,
    answers: &mut A,
    writer: &mut W,
    notes: &mut N,
) -> io::Result<SnapshotEnd>
    // The lines have the answers of `resume`, and the snapshot is that of the core after the last one. If it does not
    // rest, the reason and the operator's name are returned.
    ensures { IfOk result (λ end. EndsWithSnapshot (R.remaining reader.old) (A.contents answers.old) (A.contents answers.new)
        (W.contents writer.old) (W.contents writer.new) end) }
{
    let begun = match read_beginning(alloc, reader)? {
        Ok(begun) => begun,
        Err(fault) => return Ok(SnapshotEnd::NotBegun { fault }),
    };
    match serve_begun(alloc, begun, AtEnd::Snapshot, reader, answers, notes)? {
        BegunEnd::Served { last } => write_last(last, writer),
        BegunEnd::NotBegun { fault } => Ok(SnapshotEnd::NotBegun { fault }),
    }
}
