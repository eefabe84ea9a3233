//! A service with a journal, from its beginning on.

ghost use Rattle.std.specs.Prelude.{◌≡◌, ◌≤◌, Ok, Some, IfOk, IfErr, OnOk, IfSome};
ghost use Rattle.toml.specs.Parse.{parse_document};
ghost use Rattle.line_service.specs.script.Input.{plant_text, script_text};
ghost use Rattle.slice_table.specs.ReadPlant.{text_plant};
ghost use Rattle.line_journal.specs.Device.{Only, LeavesOnly};
ghost use Rattle.line_journal.specs.Found.{texts};
ghost use Rattle.line_journal.specs.Journal.{journal_content, IsJournalSettled};
ghost use Rattle.state_service.specs.durable.Durable.{StandsForState};
ghost use Rattle.state_service.specs.Faults.{IsGivenFault, IsJournalFault, IsServiceFault};
ghost use Rattle.state_service.specs.Beginning.{IsFoundIn, IsStateService, IsUnharmed, IsLeftByOpening, IsLeftAt};

use crate::durable::{DurableFault, SavedState, begin_state, read_state};
use crate::fault::StateServiceFault;
use crate::resumed::RefusalNotes;
use crate::serving::serve_restored;
use crate::starting::GivenPlant;
use line_journal::{Device, Journal};
use line_service::read_plant_text;
use slice_table::{PlantFault, read_plant};
use std::alloc::Global;
use std::io::{BufReader, Read, Write};
use tlv24::Bytes;

/// The most bytes of a read.
const READ_BYTES: usize = 16_384;

/// Reads the plant file of an input.
fn read_given<R: Read>(alloc: Global, reader: &mut R) -> Result<GivenPlant, StateServiceFault>
    ensures file { IfOk result (λ given. IfSome (R.remaining reader.old) (λ input. given.file.items ≡ plant_text input)) }
    ensures lines { OnOk result (IfSome (R.remaining reader.old) (λ input. R.remaining reader.new ≡ Some (script_text input))) }
    ensures plant { IfOk result (λ given. text_plant (parse_document given.file.items) ≡ Ok given.plant) }
    ensures fault { IfErr result (IsGivenFault (R.remaining reader.old)) }
{
    let file = read_plant_text(alloc, reader)?;
    let Ok(text) = str::from_utf8(file.as_slice()) else {
        return Err(StateServiceFault::NotText);
    };
    match read_plant(alloc, text) {
        Ok(plant) => Ok(GivenPlant { file, plant }),
        Err(PlantFault::NoMemory) => Err(StateServiceFault::NoMemory),
        Err(fault) => Err(StateServiceFault::InvalidPlant { fault }),
    }
}

/// Reads the state of a journal. If the file has no byte, a journal is begun with the plant file.
fn open_state<D: Device>(
    alloc: Global,
    device: &mut D,
    file: &[u8],
) -> Result<SavedState, DurableFault>
    requires { Only (D.seen device.old) (D.may_leave device.old) }
    ensures found { IfOk result (λ state. StandsForState (journal_content (D.seen device.new)) state.start.count state.start.plant
        state.start.saved (texts state.lines.items)) }
    ensures settled { IfOk result (λ state. IsJournalSettled D.seen D.may_leave device.new state.gate) }
    ensures is_found { OnOk result (IsFoundIn (D.seen device.old) file.now (journal_content (D.seen device.new))) }
    ensures any_moment { LeavesOnly D.moment D.left_since device.old device.new (λ c. IsLeftByOpening (D.seen device.old) file.now (journal_content c)) }
    ensures fault { IfErr result (IsJournalFault (D.seen device.old) (D.faults device.old) (D.faults device.new)) }
    ensures counted { D.faults device.old ≤ D.faults device.new }
{
    if !device.read(alloc)?.is_empty() {
        return read_state(alloc, device);
    }
    let mut copy = Vec::new(alloc);
    copy.extend_from_slice(file)?;
    begin_state(alloc, device, Bytes::from_vec(copy))
}

/// Serves the lines of an input from the state of a journal. The input has a plant file, a line of three dashes, and lines of a script.
///
/// If the file of the journal has no byte, a journal is begun with the plant file, and its plant is opened. Otherwise the journal's
/// state is restored, and its lines are done again. If the plant file is not the one that was saved, the plant is then changed to it, as
/// `change` does, and the state is saved. The first line of the output says with which line and before which frame the service goes on.
///
/// The lines of the input are put in the journal in batches, done, and then answered as `answer_line` does. Of a line that is too
/// long 4,097 bytes are kept. After each `period` lines the state takes the place of the lines, as soon as the core rests.
///
/// The line `K` is answered by a snapshot of the core, and a line that begins with `N` gives the next frame the number that it names, as
/// in `resume`. The state takes the place of the lines, and is on the disk before such a line is answered. If the line is refused,
/// `notes` has the reason of a line `N`, and the line is put in the journal and answered as an invalid line.
///
/// A fault ends the service: nothing that was answered is lost, and another start goes on from the journal.
pub fn serve_state<D: Device, R: Read, W: Write, N: RefusalNotes>(
    alloc: Global,
    journal: &mut Journal<D>,
    period: u64,
    reader: &mut R,
    writer: &mut W,
    notes: &mut N,
) -> Result<(), StateServiceFault>
    // After a restart, what is read is what is on the disk.
    requires { Only (D.seen journal.old.device) (D.may_leave journal.old.device) }

    // All lines of the input are in the journal, done and answered, in batches one after the other. No clause says when
    // a state is saved, except for a command.
    ensures served { OnOk result (IfSome (R.remaining reader.old) (λ input. IsStateService (D.seen journal.old.device) (plant_text input)
        (script_text input) (journal_content (D.seen journal.new.device)) (W.contents writer.old) (W.contents writer.new))) }
    // The journal is at rest and on the disk, so the next process finds it as this one left it.
    ensures settled { OnOk result (IsJournalSettled D.seen D.may_leave journal.new.device journal.new.gate) }

    // A crash at any moment leaves the journal as it was, or one with a state and no fewer lines.
    ensures any_moment { LeavesOnly D.moment D.left_since journal.old.device journal.new.device
        (λ c. IsUnharmed (D.seen journal.old.device) (journal_content c)) }
    // It leaves a journal of the first lines of the input: a state to which they led, and those that follow.
    ensures named { IfSome (R.remaining reader.old) (λ input. LeavesOnly D.moment D.left_since journal.old.device journal.new.device
        (λ c. IsLeftAt (D.seen journal.old.device) (plant_text input) (script_text input) (journal_content c))) }

    // A fault of these comes only for its reason: `NotText`, `InvalidPlant`, `Disk`, `NoJournal`, `NotChanged`. No
    // clause says which other fault is returned, and when.
    ensures fault { IfErr result (IsServiceFault (R.remaining reader.old) (D.seen journal.old.device) (D.faults journal.old.device)
        (D.faults journal.new.device)) }
{
    let given = read_given(alloc, reader)?;
    let mut lines = BufReader::with_capacity(alloc, READ_BYTES, reader)?;
    let state = open_state(alloc, &mut journal.device, given.file.as_slice())?;
    serve_restored(
        alloc, journal, state, given, period, &mut lines, writer, notes,
    )
}
