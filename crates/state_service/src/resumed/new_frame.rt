//! Giving the next frame of the plant in service another number.

ghost use Rattle.std.specs.Prelude.{◌≡◌, true, false, ℕ, List, Option, None, IfOk, IfErr, IfSome, OnOk};
ghost use Rattle.std.specs.Io.KnownBytes.{Appends};
ghost use Rattle.plant.specs.declared.plant.PlantFields.{PlantFields};
ghost use Rattle.plant.specs.Plant.{IsPlant};
ghost use Rattle.operator_model.specs.State.{OperatorState};
ghost use Rattle.plant_core.specs.live.After.{IsReachableFromStart};
ghost use Rattle.plant_core.specs.live.LiveView.{live_view};
ghost use Rattle.line_service.specs.Bytes.{WhereKnown};
ghost use Rattle.line_service.specs.Lines.{lines_left};
ghost use Rattle.line_service.specs.SoFar.{IsHeld};
ghost use Rattle.snapshot_format.specs.States.{states_of};
ghost use Rattle.plant_restart.specs.Restarted.{IsRestarted, IsRestoreFault};
ghost use Rattle.state_service.specs.resumed.Items.{InService};
ghost use Rattle.state_service.specs.resumed.NewFrames.{asks_frame, NamesFrame, IsCoreRenumbered, IsNewFrameFault, IsStartRefusal, frame_text, frame_refusal_outcome, frame_refusal_text};
ghost use Rattle.state_service.specs.resumed.Served.{AreServedSoFar, HoldsLine, AwaitsFrame, IsAfterItem};

use crate::resumed::items::saved_core;
use crate::resumed::new_frame_fault::NewFrameFault;
use crate::resumed::new_plant::{ItemOutcome, WaitingFrame, WaitingItem};
use crate::resumed::notes::RefusalNotes;
use crate::resumed::service::{ServiceState, number_after};
use frame_numbers::{RenumberFault, renumber};
use itoa::Buffer;
use line_service::{LineBreak, LineBuffer, LineOutcome, write_end};
use plant::Plant;
use plant_core::LiveCore;
use plant_restart::{RestartFault, RestoreFault, SaveFault};
use snapshot_format::Snapshot;
use std::alloc::Global;
use std::io;
use std::io::Write;
use tlv24::Bytes;

// ---- the line

/// Returns whether the line that was read requests another number for the next frame.
pub(crate) fn asks_frame(held: &LineBuffer) -> bool
    ensures asks { (line : List ℕ) → IsHeld held.now.bytes.items held.now.is_long line → result ≡ asks_frame line }
    ensures whole { result ≡ true → held.now.is_long ≡ false }
{
    if held.is_long {
        return false;
    }
    held.bytes.as_slice().strip_prefix(b"N").is_some()
}

/// Returns the frame number that a line names: after `N` and a space the number in its one spelling.
#[tactic(auto, using(crate::proofs::ResumedLemmas::FrameLemmas::parsed))]
fn named_frame(line: &[u8]) -> Option<u32>
    ensures some { IfSome result (NamesFrame line.now) }
    ensures none { result ≡ None → (to : ℕ) → NamesFrame line.now to → ⊥ }
{
    let Some(digits) = line.strip_prefix(b"N ") else {
        return None;
    };
    let Ok(text) = str::from_utf8(digits) else {
        return None;
    };
    let Ok(to) = text.parse::<u32>() else {
        return None;
    };
    // A number has one spelling.
    let mut buffer = Buffer::new();
    if buffer.format(to).as_bytes() == digits {
        Some(to)
    } else {
        None
    }
}

// ---- the snapshot under that number

/// A plant whose next frame is to get another number.
#[derive(Drop)]
pub struct Renumbered {
    pub plant: Plant,
    /// Its states before the frame of that number.
    pub saved: Snapshot,
}

/// Returns the snapshot of a core under the number that a line names, or why there is none. The core stays as it is.
pub fn renumbered_core(
    alloc: Global,
    core: &LiveCore,
    file: &Bytes,
    line: &[u8],
) -> Result<Renumbered, NewFrameFault>
    ensures plant { IfOk result (λ other. other.plant ≡ (live_view core.now).plant) }
    ensures valid { IfOk result (λ other. IsPlant other.plant) }
    ensures names { IfOk result (λ other. NamesFrame line.now other.saved.frame) }
    ensures ok { IfOk result (λ other. IsCoreRenumbered file.now (live_view core.now) other.saved.frame other.saved) }
    // This fault holds, and those before it in the order do not.
    ensures fault { IfErr result (IsNewFrameFault file.now (live_view core.now) line.now) }
{
    let Some(to) = named_frame(line) else {
        return Err(NewFrameFault::NoNumber);
    };
    let saved = match saved_core(alloc, core, file) {
        Ok(saved) => saved,
        Err(SaveFault::Unfinished { why }) => return Err(NewFrameFault::Unfinished { why }),
        Err(SaveFault::NoMemory) => return Err(NewFrameFault::NoMemory),
    };
    let from = saved.frame;
    let Ok(plant) = core.plant().copy(alloc) else {
        return Err(NewFrameFault::NoMemory);
    };
    let first_frame = plant.consts().get_fields().channel.first_frame;
    match renumber(alloc, plant.consts(), &saved, to) {
        Ok(_other) if to < first_frame => Err(NewFrameFault::BeforeFirstFrame),
        Ok(other) => Ok(Renumbered {
            plant,
            saved: other,
        }),
        Err(RenumberFault::NoMemory) => Err(NewFrameFault::NoMemory),
        Err(why) => Err(NewFrameFault::NotRenumbered { from, to, why }),
    }
}

// ---- the answer

/// Returns how the line `N` ends if the frame does not get the number.
fn frame_refusal_outcome(fault: &NewFrameFault) -> LineOutcome
    ensures { result ≡ frame_refusal_outcome fault.now }
{
    match fault {
        NewFrameFault::NoMemory => LineOutcome::NoMemory,
        _ => LineOutcome::AtFault,
    }
}

/// Notes why the next frame does not get the number, and writes `fault: line n` or `fault: memory`.
fn answer_frame_refusal<W: Write, N: RefusalNotes>(
    alloc: Global,
    number: u64,
    plant: &Plant,
    fault: &NewFrameFault,
    writer: &mut W,
    notes: &mut N,
) -> io::Result<()>
    ensures { OnOk result (Appends (W.contents writer.old) (W.contents writer.new) (frame_refusal_text number fault.now)) }
{
    notes.note_frame_refused(alloc, number, plant, fault);
    write_end(writer, number, frame_refusal_outcome(fault))?;
    writer.flush()
}

/// Answers the line `N` that was read, unless the core can have the number that it names.
pub(crate) fn take_frame<W: Write, N: RefusalNotes>(
    alloc: Global,
    service: &mut ServiceState,
    after: LineBreak,
    writer: &mut W,
    notes: &mut N,
) -> io::Result<ItemOutcome>
    requires asks { (line : List ℕ) → IsHeld service.old.held.bytes.items service.old.held.is_long line → asks_frame line ≡ true }
    requires whole { service.old.held.is_long ≡ false }
    ensures core { OnOk result (service.new.core ≡ service.old.core) }
    ensures on { IfOk result (λ outcome. (first : InService) (known read written : Option (List ℕ))
        → WhereKnown known read (λ input rest. HoldsLine first input rest after service.old.number (live_view service.old.core)
        service.old.file service.old.held.bytes.items service.old.held.is_long written (W.contents writer.old))
        → WhereKnown known read (λ input rest. IsAfterItem first input rest service.new.after service.new.number
        (live_view service.new.core) service.new.file written (W.contents writer.new) outcome)) }
{
    let number = service.number;
    service.number = number_after(after, number)?;
    service.after = after;
    match renumbered_core(
        alloc,
        &service.core,
        &service.file,
        service.held.bytes.as_slice(),
    ) {
        Ok(other) => Ok(ItemOutcome::Awaits {
            waiting: WaitingItem::NewFrame {
                line: WaitingFrame {
                    number,
                    saved: other.saved,
                },
            },
            plant: other.plant,
        }),
        Err(fault) => {
            answer_frame_refusal(alloc, number, service.core.plant(), &fault, writer, notes)?;
            Ok(ItemOutcome::Answered)
        }
    }
}

/// Returns the reason for which the plant does not start before the frame of the number.
fn start_refusal(why: RestoreFault) -> NewFrameFault
    ensures { (plant : PlantFields) (frame : ℕ) (states : List (List ℕ × OperatorState))
        → IsRestoreFault plant frame states why → IsStartRefusal plant frame states result }
{
    match why {
        RestoreFault::Restart {
            why: RestartFault::NoMemory,
        } => NewFrameFault::NoMemory,
        _ => NewFrameFault::NotRestored { why },
    }
}

/// Writes `N frame n`, n being the number that the next frame has got.
fn write_frame<W: Write>(frame: u32, writer: &mut W) -> io::Result<()>
    ensures { OnOk result (Appends (W.contents writer.old) (W.contents writer.new) (frame_text frame)) }
{
    write!(writer, "N frame {frame}\n")?;
    writer.flush()
}

/// Answers the line `N` of this number, of which this is the snapshot of the core under the number that it names. If a core is
/// restored from it, that core takes the place of the old one, and `N frame n` is written. Otherwise all stays as it is, and the
/// fault is written.
pub(crate) fn answer_frame<W: Write, N: RefusalNotes>(
    alloc: Global,
    service: &mut ServiceState,
    waiting: WaitingFrame,
    restored: Result<LiveCore, RestoreFault>,
    writer: &mut W,
    notes: &mut N,
) -> io::Result<()>
    requires reached { IsReachableFromStart (live_view service.old.core) }
    requires core { IfOk restored (λ core. IsReachableFromStart (live_view core)) }
    ensures reached { OnOk result (IsReachableFromStart (live_view service.new.core)) }
    ensures on { OnOk result ((first : InService) (known read written : Option (List ℕ)) (plant : PlantFields)
        → IfOk restored (λ core. IsRestarted plant waiting.saved.frame (states_of waiting.saved) (live_view core))
        → IfErr restored (IsRestoreFault plant waiting.saved.frame (states_of waiting.saved))
        → WhereKnown known read (λ input rest. AwaitsFrame first input rest service.old.after waiting.number service.old.number
        (live_view service.old.core) service.old.file waiting.saved plant written (W.contents writer.old))
        → WhereKnown known read (λ input rest. AreServedSoFar first input (lines_left service.new.after rest) service.new.number
        (live_view service.new.core) service.new.file written (W.contents writer.new))) }
{
    match restored {
        Ok(core) => {
            write_frame(waiting.saved.frame, writer)?;
            service.core = core;
            Ok(())
        }
        Err(why) => answer_frame_refusal(
            alloc,
            waiting.number,
            service.core.plant(),
            &start_refusal(why),
            writer,
            notes,
        ),
    }
}
