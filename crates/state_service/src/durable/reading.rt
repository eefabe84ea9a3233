//! The state that a journal has.

ghost use Rattle.std.specs.Prelude.{◌≡◌, ◌<◌, ◌≤◌, ◌∷◌, ℕ, List, Ok, Err, None, Some, IfOk, OnOk};
ghost use Rattle.toml.specs.Parse.{parse_document};
ghost use Rattle.slice_table.specs.ReadPlant.{text_plant};
ghost use Rattle.snapshot_format.specs.Snapshot.{snapshot_of};
ghost use Rattle.line_journal.specs.Device.{Only, LeavesOnly};
ghost use Rattle.line_journal.specs.Found.{texts};
ghost use Rattle.line_journal.specs.Journal.{journal_content, IsJournalSettled};
ghost use Rattle.state_service.specs.declared.durable.fault.DurableFault.TheVariants as faults;
ghost use Rattle.state_service.specs.durable.Durable.{count_line, SaysState, StandsForState};

use crate::durable::fault::{DurableFault, JournalStateFault};
use crate::durable::lines::{count_of_line, join_lines};
use line_journal::{Device, recover};
use plant::Plant;
use slice_table::{PlantFault, read_plant};
use snapshot_format::{Snapshot, SnapshotFault, read_snapshot};
use std::alloc::Global;

/// Holds a state that was saved, and how many lines were done before.
#[derive(Drop)]
pub struct StartState {
    pub count: u64,
    pub plant: Plant,
    pub saved: Snapshot,
}

/// Holds what a journal has: a saved state, and the lines since.
#[derive(Drop)]
pub struct SavedState {
    pub start: StartState,
    pub lines: Vec<Vec<u8>>,
    /// The offset of the journal's gate.
    pub gate: usize,
}

/// Parses the plant file in a snapshot.
pub(crate) fn plant_of_file(alloc: Global, file: &[u8]) -> Result<Plant, JournalStateFault>
    ensures { IfOk result (λ plant. text_plant (parse_document file.now) ≡ Ok plant) }
{
    let Ok(text) = str::from_utf8(file) else {
        return Err(JournalStateFault::NotText);
    };
    match read_plant(alloc, text) {
        Ok(plant) => Ok(plant),
        Err(PlantFault::NoMemory) => Err(JournalStateFault::NoMemory),
        Err(fault) => Err(JournalStateFault::InvalidPlant { fault }),
    }
}

/// Parses the text of a snapshot, without its plant file.
fn snapshot_of_text(alloc: Global, text: &[u8]) -> Result<Snapshot, JournalStateFault>
    ensures { IfOk result (λ saved. snapshot_of text.now ≡ Ok saved) }
{
    match read_snapshot(alloc, text) {
        Ok(saved) => Ok(saved),
        Err(SnapshotFault::NoMemory) => Err(JournalStateFault::NoMemory),
        Err(SnapshotFault::Line { number, wrong }) => {
            Err(JournalStateFault::InvalidSnapshot { number, wrong })
        }
    }
}

/// Parses the lines of a snapshot, before which so many lines were done.
pub(crate) fn start_of(
    alloc: Global,
    count: u64,
    lines: &[Vec<u8>],
) -> Result<StartState, JournalStateFault>
    ensures count { IfOk result (λ start. start.count ≡ count) }
    ensures says { IfOk result (λ start. SaysState (count_line count ∷ texts lines.now) count start.plant start.saved) }
{
    let saved = snapshot_of_text(alloc, join_lines(alloc, lines)?.as_slice())?;
    let plant = plant_of_file(alloc, saved.plant.as_slice())?;
    Ok(StartState {
        count,
        plant,
        saved,
    })
}

/// Parses the lines of a journal's snapshot.
fn start_of_journal(alloc: Global, snapshot: &[Vec<u8>]) -> Result<StartState, JournalStateFault>
    ensures { IfOk result (λ start. SaysState (texts snapshot.now) start.count start.plant start.saved) }
{
    let [first, lines @ ..] = snapshot else {
        return Err(JournalStateFault::InvalidCount);
    };
    start_of(alloc, count_of_line(alloc, first)?, lines)
}

/// Reads the state of a journal that a crash may have left, and repairs the end of the file. It may crash too.
pub fn read_state<D: Device>(alloc: Global, device: &mut D) -> Result<SavedState, DurableFault>
    // After a restart, what is read is what is on the disk.
    requires { Only (D.seen device.old) (D.may_leave device.old) }

    // The state and the lines that the journal has.
    ensures found { IfOk result (λ state. StandsForState (journal_content (D.seen device.new)) state.start.count state.start.plant
        state.start.saved (texts state.lines.items)) }
    ensures same { OnOk result (journal_content (D.seen device.new) ≡ journal_content (D.seen device.old)) }
    ensures settled { IfOk result (λ state. IsJournalSettled D.seen D.may_leave device.new state.gate) }

    // A crash at any moment leaves the same state and the same lines.
    ensures any_moment { LeavesOnly D.moment D.left_since device.old device.new
        (λ c. journal_content c ≡ journal_content (D.seen device.old)) }

    // Only for a file that is not a journal.
    ensures no_journal { result ≡ Err faults.NoJournal → journal_content (D.seen device.old) ≡ None }
    // `Disk` comes only if the disk has failed.
    ensures disk { result ≡ Err faults.Disk → D.faults device.old < D.faults device.new }
    ensures counted { D.faults device.old ≤ D.faults device.new }
{
    let Some(found) = recover(alloc, device)? else {
        return Err(DurableFault::NoJournal);
    };
    Ok(SavedState {
        start: start_of_journal(alloc, found.snapshot.as_slice())?,
        lines: found.lines,
        gate: found.gate,
    })
}
