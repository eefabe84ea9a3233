//! A saved state in the journal, in place of the lines before it.

ghost use Rattle.std.specs.Prelude.{◌≡◌, ◌<◌, ◌≤◌, ◌⊎◌, [], Err, IsTrue, IfOk, OnOk};
ghost use Rattle.plant.specs.declared.plant.PlantFields.{PlantFields};
ghost use Rattle.plant_core.specs.live.After.{IsAfterFrom};
ghost use Rattle.plant_core.specs.live.LiveView.{live_view};
ghost use Rattle.snapshot_format.specs.declared.saved.Snapshot.{Snapshot};
ghost use Rattle.snapshot_format.specs.Text.{text_of_snapshot};
ghost use Rattle.plant_restart.specs.Saving.{IsCoreSnapshot};
ghost use Rattle.line_journal.specs.Device.{LeavesOnly};
ghost use Rattle.line_journal.specs.Found.{texts};
ghost use Rattle.line_journal.specs.Journal.{journal_content, fresh, IsJournalSettled, IsBeforeOrAfter};
ghost use Rattle.state_service.specs.declared.durable.fault.DurableFault.TheVariants as faults;
ghost use Rattle.state_service.specs.durable.Durable.{joined_text, saved_start, SaysState, StandsForState, IsOpeningState, IsBegunWith, IsLeading, IsKeptSnapshot, IsKeptState};

use crate::durable::fault::{DurableFault, JournalStateFault};
use crate::durable::lines::{join_lines, snapshot_lines, split_lines};
use crate::durable::opening::DurableState;
use crate::durable::reading::{SavedState, StartState, plant_of_file, start_of};
use line_journal::{Device, Journal, SnapshotLines, begin};
use lists::Listed;
use plant_core::LiveCore;
use plant_restart::{SaveFault, save};
use snapshot_format::{Snapshot, write_snapshot};
use std::alloc::Global;
use tlv24::Bytes;

/// Holds the state of a service, as lines and as it is read from them.
#[derive(Drop)]
pub struct KeptState {
    pub start: StartState,
    pub snapshot: SnapshotLines,
}

/// Returns the lines of a snapshot's text.
fn lines_of_snapshot(alloc: Global, saved: &Snapshot) -> Result<Vec<Vec<u8>>, JournalStateFault>
    ensures { IfOk result (λ lines. joined_text (texts lines.items) ≡ text_of_snapshot saved.now) }
{
    let mut text = Vec::new(alloc);
    match write_snapshot(alloc, &mut text, saved) {
        Ok(()) => {}
        Err(_error) => return Err(JournalStateFault::NoMemory),
    }
    let lines = split_lines(alloc, text.as_slice())?;
    if join_lines(alloc, lines.as_slice())?.as_slice() != text.as_slice() {
        return Err(JournalStateFault::NotKept);
    }
    Ok(lines)
}

/// Returns the state of a core.
fn state_of_core(
    alloc: Global,
    core: &LiveCore,
    file: &Bytes,
) -> Result<Snapshot, JournalStateFault>
    ensures { IfOk result (λ saved. IsCoreSnapshot (live_view core.now) file.now saved) }
{
    match save(alloc, core, file.copy(alloc)?) {
        Ok(saved) => Ok(saved),
        Err(SaveFault::Unfinished { why }) => Err(JournalStateFault::Unfinished { why }),
        Err(SaveFault::NoMemory) => Err(JournalStateFault::NoMemory),
    }
}

/// Returns whether the state is that of a plant file before any line.
#[tactic(auto, using(crate::proofs::DurableLemmas::LeadLemmas::opening_state))]
fn is_opening(start: &StartState, file: &[u8]) -> bool
    ensures { IsTrue result → IsOpeningState file.now start.now.plant start.now.saved }
{
    if start.saved.plant.as_slice() != file {
        return false;
    }
    if start.saved.frame != start.plant.consts().get_fields().channel.first_frame {
        return false;
    }
    start.saved.operators.is_empty()
}

/// Begins a journal with a plant file, in place of whatever the file has: no operator is saved, so each is opened before the plant's
/// first frame.
pub fn begin_state<D: Device>(
    alloc: Global,
    device: &mut D,
    file: Bytes,
) -> Result<SavedState, DurableFault>
    // The file has the state that is returned, and no line since.
    ensures found { IfOk result (λ state. StandsForState (journal_content (D.seen device.new)) 0 state.start.plant state.start.saved []) }
    ensures settled { IfOk result (λ state. IsJournalSettled D.seen D.may_leave device.new state.gate) }
    ensures new { IfOk result (λ state. (state.start.count ≡ 0) × (state.lines.items ≡ [])) }
    // The state opens the plant of the plant file.
    ensures opening { IfOk result (λ state. IsOpeningState file state.start.plant state.start.saved) }

    // A crash at any moment leaves what it might have left before, or a journal that opens the plant and has no line.
    ensures any_moment { LeavesOnly D.moment D.left_since device.old device.new (λ c. D.may_leave device.old c
        ⊎ IsBegunWith file (journal_content c)) }

    // `Disk` comes only if the disk has failed.
    ensures disk { result ≡ Err faults.Disk → D.faults device.old < D.faults device.new }
    ensures no_journal { result ≡ Err faults.NoJournal → ⊥ }
    ensures counted { D.faults device.old ≤ D.faults device.new }
{
    let plant = plant_of_file(alloc, file.as_slice())?;
    let saved = Snapshot {
        plant: file.copy(alloc)?,
        frame: plant.consts().get_fields().channel.first_frame,
        operators: Listed::new(alloc),
    };
    let lines = lines_of_snapshot(alloc, &saved)?;
    let lines = lines.as_slice();
    let start = start_of(alloc, 0, lines)?;
    if !is_opening(&start, file.as_slice()) {
        return Err(DurableFault::from(JournalStateFault::NotKept));
    }
    let snapshot = snapshot_lines(alloc, 0, lines)?;
    let gate = begin(alloc, device, &snapshot)?;
    Ok(SavedState {
        start,
        lines: Vec::new(alloc),
        gate,
    })
}

/// Returns a snapshot as a state that is to take the place of the lines before it, which are so many. What is returned was read back
/// from its lines.
pub fn snapshot_to_keep(
    alloc: Global,
    count: u64,
    saved: &Snapshot,
) -> Result<KeptState, JournalStateFault>
    ensures { IfOk result (λ kept. IsKeptSnapshot saved.now count kept.snapshot kept.start.plant kept.start.saved) }
{
    let lines = lines_of_snapshot(alloc, saved)?;
    Ok(KeptState {
        start: start_of(alloc, count, lines.as_slice())?,
        snapshot: snapshot_lines(alloc, count, lines.as_slice())?,
    })
}

/// Returns the state of a service that is to take the place of the lines before it, or that its core does not rest. What is returned was
/// read back from its lines.
pub fn state_to_keep(alloc: Global, service: &DurableState) -> Result<KeptState, JournalStateFault>
    // The state is that of the core, as it was read back. It is what the core has, if the values fit the types of a
    // machine.
    ensures { IfOk result (λ kept. IsKeptState (live_view service.now.core) service.now.file service.now.count kept.snapshot
        kept.start.plant kept.start.saved) }
{
    let saved = state_of_core(alloc, &service.core, &service.file)?;
    snapshot_to_keep(alloc, service.count, &saved)
}

/// Puts the state of a service in the journal, in the place of the state that was saved and of all lines since. Its core has to be one that was
/// restored from these lines, so that the journal leads to it. At `Err` the file has the old state with its lines or the new one: end,
/// and open the state again.
pub fn put_snapshot<D: Device>(
    alloc: Global,
    journal: &mut Journal<D>,
    service: &DurableState,
    snapshot: &SnapshotLines,
) -> Result<(), DurableFault>
    requires settled { IsJournalSettled D.seen D.may_leave journal.old.device journal.old.gate }

    // The state is on the disk.
    ensures acknowledged { OnOk result (IsJournalSettled D.seen D.may_leave journal.new.device journal.new.gate
        × (journal_content (D.seen journal.new.device) ≡ fresh snapshot.now)) }
    // And it leads to the core.
    ensures leads { OnOk result ((plant : PlantFields) (saved : Snapshot) → SaysState snapshot.now service.now.count plant saved
        → IsAfterFrom plant (saved_start plant saved) [] [] (live_view service.now.core)
        → IsLeading (journal_content (D.seen journal.new.device)) plant (live_view service.now.core) service.now.count) }

    // A crash at any moment leaves the old state with all its lines, or the new one with none.
    ensures any_moment { LeavesOnly D.moment D.left_since journal.old.device journal.new.device
        (IsBeforeOrAfter (journal_content (D.seen journal.old.device)) (fresh snapshot.now)) }

    // `Disk` comes only if the disk has failed.
    ensures disk { result ≡ Err faults.Disk → D.faults journal.old.device < D.faults journal.new.device }
    ensures no_journal { result ≡ Err faults.NoJournal → ⊥ }
    ensures counted { D.faults journal.old.device ≤ D.faults journal.new.device }
{
    journal.replace_snapshot(alloc, snapshot)?;
    Ok(())
}
