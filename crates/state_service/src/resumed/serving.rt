//! The service, from what it begins with to the end of the input.

ghost use Rattle.std.specs.Prelude.{◌≡◌, ◌↔◌, ◌∷◌, List, ℕ, Option, codes, Ok, IsTrue, IfOk, OnOk};
ghost use Rattle.plant_core.specs.live.After.{IsReachableFromStart};
ghost use Rattle.plant_core.specs.live.LiveView.{live_view};
ghost use Rattle.line_service.specs.Bytes.{WhereKnown};
ghost use Rattle.line_service.specs.Lines.{lines_left};
ghost use Rattle.line_service.specs.script.Lines.{lines_of};
ghost use Rattle.plant.specs.declared.plant.PlantFields.{PlantFields};
ghost use Rattle.snapshot_format.specs.declared.saved.Snapshot.{Snapshot};
ghost use Rattle.snapshot_format.specs.States.{states_of};
ghost use Rattle.plant_restart.specs.declared.fault.RestoreFault.TheVariants as restore;
ghost use Rattle.plant_restart.specs.declared.fault.RestartFault.TheVariants as restart;
ghost use Rattle.plant_restart.specs.Restarted.{IsRestoreFault};
ghost use Rattle.state_service.specs.declared.resumed.begin_fault.BeginFault.TheVariants as faults;
ghost use Rattle.state_service.specs.declared.resumed.last_state.BegunEnd.TheVariants as ends;
ghost use Rattle.state_service.specs.resumed.Beginning.{IsRestoringFault};
ghost use Rattle.state_service.specs.resumed.Items.{InService};
ghost use Rattle.state_service.specs.resumed.LastStates.{EndsBegun};
ghost use Rattle.state_service.specs.resumed.Resumed.{EndsInput};
ghost use Rattle.state_service.specs.resumed.Served.{AreServedSoFar, IsAfterItem};

use crate::resumed::begin_fault::BeginFault;
use crate::resumed::beginning::{Beginning, read_beginning};
use crate::resumed::changing::{answer_change, answer_refusal};
use crate::resumed::holding::is_held;
use crate::resumed::items::answer_item;
use crate::resumed::kept_text::KeptText;
use crate::resumed::last_state::{AtEnd, BegunEnd, last_state};
use crate::resumed::new_frame::{answer_frame, asks_frame, take_frame};
use crate::resumed::new_plant::{ItemOutcome, WaitingItem, WaitingLine};
use crate::resumed::notes::RefusalNotes;
use crate::resumed::plant_file::{break_after, plant_of_file, read_plant_file};
use crate::resumed::service::{ServiceState, number_after};
use line_service::{LineBreak, LineBuffer, read_line};
use plant_restart::{RestartFault, RestoreFault, change, restore};
use std::alloc::Global;
use std::io;
use std::io::{BufRead, Write};

/// How a service ended that was to begin with a plant file or a snapshot.
#[derive(Debug, Drop)]
pub enum ServiceEnd {
    /// All lines of the input are answered.
    Served,
    /// It did not begin, for this reason. Nothing is written.
    NotBegun { fault: BeginFault },
}

/// Reads the plant file after a line `P`, and answers that line unless the file is valid.
fn take_plant_file<R: BufRead, W: Write, N: RefusalNotes>(
    alloc: Global,
    service: &mut ServiceState,
    after: LineBreak,
    reader: &mut R,
    writer: &mut W,
    notes: &mut N,
) -> io::Result<ItemOutcome>
    ensures core { OnOk result (service.new.core ≡ service.old.core) }
    ensures on { IfOk result (λ outcome. (first : InService) (known written : Option (List ℕ))
        → WhereKnown known (R.remaining reader.old) (λ input rest. AreServedSoFar first input (codes "P" ∷ lines_left after rest)
        service.old.number (live_view service.old.core) service.old.file written (W.contents writer.old))
        → WhereKnown known (R.remaining reader.new) (λ input rest. IsAfterItem first input rest service.new.after service.new.number
        (live_view service.new.core) service.new.file written (W.contents writer.new) outcome)) }
{
    let number = service.number;
    let mut text = KeptText::new(alloc);
    let end = read_plant_file(
        after,
        reader,
        &mut service.held,
        &mut text,
        &mut service.number,
    )?;
    service.after = break_after(end);
    match plant_of_file(alloc, &text, end) {
        Ok(plant) => Ok(ItemOutcome::Awaits {
            waiting: WaitingItem::NewPlant {
                line: WaitingLine {
                    number,
                    text: text.bytes,
                },
            },
            plant,
        }),
        Err(fault) => {
            let file = text.bytes.as_slice();
            answer_refusal(alloc, &service.core, number, file, &fault, writer, notes)?;
            Ok(ItemOutcome::Answered)
        }
    }
}

/// Reads an item of the input, and answers it unless it waits for another core.
fn serve_item<R: BufRead, W: Write, N: RefusalNotes>(
    alloc: Global,
    service: &mut ServiceState,
    reader: &mut R,
    writer: &mut W,
    notes: &mut N,
) -> io::Result<ItemOutcome>
    requires reached { IsReachableFromStart (live_view service.old.core) }
    ensures reached { OnOk result (IsReachableFromStart (live_view service.new.core)) }
    ensures on { IfOk result (λ outcome. (first : InService) (known written : Option (List ℕ))
        → WhereKnown known (R.remaining reader.old) (λ input rest. AreServedSoFar first input (lines_of rest)
        service.old.number (live_view service.old.core) service.old.file written (W.contents writer.old))
        → WhereKnown known (R.remaining reader.new) (λ input rest. IsAfterItem first input rest service.new.after service.new.number
        (live_view service.new.core) service.new.file written (W.contents writer.new) outcome)) }
{
    service.held.clear();
    let after = read_line(reader, &mut service.held)?;
    if is_held(&service.held, b"P") {
        return take_plant_file(alloc, service, after, reader, writer, notes);
    }
    if asks_frame(&service.held) {
        return take_frame(alloc, service, after, writer, notes);
    }
    answer_item(
        alloc,
        &mut service.core,
        &service.file,
        service.number,
        &service.held,
        writer,
    )?;
    service.number = number_after(after, service.number)?;
    service.after = after;
    Ok(ItemOutcome::Answered)
}

/// Returns whether memory ran out as states were restored.
fn is_memory(why: &RestoreFault) -> bool
    ensures { IsTrue result ↔ (why.now ≡ restore.Restart restart.NoMemory) }
{
    matches!(
        why,
        RestoreFault::Restart {
            why: RestartFault::NoMemory,
        }
    )
}

/// Returns the reason for which a service does not begin, if its states are refused.
fn restore_fault(why: RestoreFault) -> BeginFault
    ensures { (plant : PlantFields) (saved : Snapshot)
        → IsRestoreFault plant saved.frame (states_of saved) why → IsRestoringFault plant saved result }
{
    if is_memory(&why) {
        BeginFault::NoMemory
    } else {
        BeginFault::NotRestored { why }
    }
}

/// Reports that a service does not begin because memory ran out.
fn end_without_memory() -> io::Result<BegunEnd>
    ensures { result ≡ Ok (ends.NotBegun faults.NoMemory) }
{
    Ok(BegunEnd::NotBegun {
        fault: BeginFault::NoMemory,
    })
}

/// Serves a plant that goes on in its saved states, each operator by the policy of its row. Makes of the last core what `at_end`
/// says.
pub(crate) fn serve_begun<R: BufRead, W: Write, N: RefusalNotes>(
    alloc: Global,
    begun: Beginning,
    at_end: AtEnd,
    reader: &mut R,
    writer: &mut W,
    notes: &mut N,
) -> io::Result<BegunEnd>
    ensures { IfOk result (λ end. EndsBegun at_end begun.plant begun.saved (R.remaining reader.old) (W.contents writer.old)
        (W.contents writer.new) end) }
{
    let Beginning { plant, saved } = begun;
    let Ok(held) = LineBuffer::new(alloc) else {
        return end_without_memory();
    };
    let mut service = match restore(alloc, plant, &saved) {
        Ok(core) => ServiceState::new(core, saved.plant, held),
        Err(why) => {
            return Ok(BegunEnd::NotBegun {
                fault: restore_fault(why),
            });
        }
    };
    for _ in 0..u64::MAX {
        match service.after {
            LineBreak::End => {
                return Ok(BegunEnd::Served {
                    last: last_state(alloc, &service, at_end),
                });
            }
            LineBreak::Another => {}
        }
        let (waiting, plant) = match serve_item(alloc, &mut service, reader, writer, notes)? {
            ItemOutcome::Answered => continue,
            ItemOutcome::Awaits { waiting, plant } => (waiting, plant),
        };
        let line = match waiting {
            WaitingItem::NewPlant { line } => line,
            WaitingItem::NewFrame { line } => {
                let restored = restore(alloc, plant, &line.saved);
                answer_frame(alloc, &mut service, line, restored, writer, notes)?;
                continue;
            }
        };
        let changed = change(alloc, &service.core, plant);
        answer_change(alloc, &mut service, line, changed, writer, notes)?;
    }
    Err(io::Error::from(io::ErrorKind::Other))
}

/// Serves a plant that begins with a plant file or with a snapshot, up to the end of the input. Reads the text before the first
/// line of three dashes, and if it is a snapshot, that before the second one. Answers each line after it before it reads the
/// next. A line of a script is answered as `serve` does, and the line `K` by a snapshot with the text of the plant file. Lines are counted
/// from 1, empty ones too.
///
/// The line `P` begins a plant file, up to the next line of three dashes. The plant is changed to that of the file, with `change`,
/// and `P frame N` is answered. If it cannot be changed, it stays as it is: `notes` has the reason, and the answer is the
/// line `P` as an invalid line, or `fault: memory`. In each case the lines of the file are counted and no lines of a script.
///
/// A line that begins with `N` names a number, which the next frame gets: the plant goes on from its snapshot under that number,
/// with `renumber`, and `N frame n` is answered. If it cannot have that number, all stays as it is, `notes` has the reason, and
/// the line is answered as an invalid one, or by `fault: memory`.
///
/// Where the service does not begin, nothing is written. An error is one of the reader's or of the writer's; then no clause says
/// what is written.
pub fn resume<R: BufRead, W: Write, N: RefusalNotes>(
    alloc: Global,
    reader: &mut R,
    writer: &mut W,
    notes: &mut N,
) -> io::Result<ServiceEnd>
    // The service runs, or it does not begin and the fault holds. This is if no read and no write fails. No clause says
    // which reasons `notes` gets, or which texts before the lines are too long.
    ensures { IfOk result (λ end. EndsInput (R.remaining reader.old) (W.contents writer.old) (W.contents writer.new) end) }
{
    let begun = match read_beginning(alloc, reader)? {
        Ok(begun) => begun,
        Err(fault) => return Ok(ServiceEnd::NotBegun { fault }),
    };
    match serve_begun(alloc, begun, AtEnd::Nothing, reader, writer, notes)? {
        BegunEnd::Served { last: _last } => Ok(ServiceEnd::Served),
        BegunEnd::NotBegun { fault } => Ok(ServiceEnd::NotBegun { fault }),
    }
}
