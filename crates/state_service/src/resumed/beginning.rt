//! The plant and the states that a service begins with.

ghost use Rattle.std.specs.Prelude.{◌≡◌, true, Ok, IfOk, IfErr, IfSome};
ghost use Rattle.toml.specs.Parse.{parse_document};
ghost use Rattle.slice_table.specs.ReadPlant.{text_plant};
ghost use Rattle.state_service.specs.declared.resumed.begin_fault.BeginFault.TheVariants.{NoMemory};
ghost use Rattle.state_service.specs.resumed.Beginning.{is_snapshot_head, front_text, IsBeginning, BeginsAnew, GoesOnFrom, IsFileFault, IsTextFault, IsBeginningRead};

use crate::resumed::begin_fault::BeginFault;
use crate::resumed::reading::read_front;
use lists::Listed;
use plant::Plant;
use slice_table::{PlantFault, read_plant};
use snapshot_format::{Snapshot, SnapshotFault, read_snapshot};
use std::alloc::Global;
use std::io;
use std::io::Read;
use tlv24::Bytes;

/// The first bytes of a snapshot of any version.
const SNAPSHOT_HEAD: &[u8; 18] = b"melfjits-snapshot ";

/// The plant and the states that a service begins with.
#[derive(Drop)]
pub(crate) struct Beginning {
    pub(crate) plant: Plant,
    /// The states; of a plant file none, before the plant's first frame.
    pub(crate) saved: Snapshot,
}

/// Returns whether a text begins as a snapshot does.
pub fn is_snapshot_head(text: &[u8]) -> bool
    ensures { result ≡ is_snapshot_head text.now }
{
    text.strip_prefix(SNAPSHOT_HEAD).is_some()
}

/// Parses a plant file, or returns why it has no plant.
#[tactic(auto, using(crate::proofs::ResumedLemmas::BeginLemmas::no_text))]
fn plant_of_file(alloc: Global, file: &[u8]) -> Result<Plant, BeginFault>
    ensures ok { IfOk result (λ plant. text_plant (parse_document file.now) ≡ Ok plant) }
    ensures fault { IfErr result (IsFileFault file.now) }
{
    let text = match str::from_utf8(file) {
        Ok(text) => text,
        Err(_error) => return Err(BeginFault::NotText),
    };
    match read_plant(alloc, text) {
        Ok(plant) => Ok(plant),
        Err(PlantFault::NoMemory) => Err(BeginFault::NoMemory),
        Err(fault) => Err(BeginFault::InvalidPlant { fault }),
    }
}

/// Returns what a plant file begins with.
fn begin_anew(alloc: Global, text: Vec<u8>) -> Result<Beginning, BeginFault>
    ensures ok { IfOk result (λ begun. BeginsAnew text.items begun.plant begun.saved) }
    ensures fault { IfErr result (IsFileFault text.items) }
{
    let plant = plant_of_file(alloc, text.as_slice())?;
    let frame = plant.consts().get_fields().channel.first_frame;
    let saved = Snapshot {
        plant: Bytes::from_vec(text),
        frame,
        operators: Listed::new(alloc),
    };
    Ok(Beginning { plant, saved })
}

/// Returns what a snapshot begins with.
#[tactic(auto, using(crate::proofs::ResumedLemmas::BeginLemmas::file_fault, crate::proofs::ResumedLemmas::BeginLemmas::saved_file))]
fn go_on_from(alloc: Global, text: &[u8]) -> Result<Beginning, BeginFault>
    requires { is_snapshot_head text.now ≡ true }
    ensures ok { IfOk result (λ begun. GoesOnFrom text.now begun.plant begun.saved) }
    ensures fault { IfErr result (IsTextFault text.now) }
{
    match read_snapshot(alloc, text) {
        Ok(saved) => {
            let plant = plant_of_file(alloc, saved.plant.as_slice())?;
            Ok(Beginning { plant, saved })
        }
        Err(SnapshotFault::NoMemory) => Err(BeginFault::NoMemory),
        Err(SnapshotFault::Line { number, wrong }) => Err(BeginFault::InvalidSnapshot {
            number,
            wrong,
        }),
    }
}

/// Returns the plant and the states that a text says: a snapshot where it begins as one, else a plant file.
#[tactic(auto, using(crate::proofs::ResumedLemmas::BeginLemmas::file_fault, crate::proofs::ResumedLemmas::BeginLemmas::own_file, crate::proofs::ResumedLemmas::BeginLemmas::goes_on, crate::proofs::ResumedLemmas::BeginLemmas::anew))]
pub(crate) fn beginning_of(alloc: Global, text: Vec<u8>) -> Result<Beginning, BeginFault>
    ensures ok { IfOk result (λ begun. IsBeginning text.items begun.plant begun.saved) }
    ensures fault { IfErr result (IsTextFault text.items) }
{
    if is_snapshot_head(text.as_slice()) {
        go_on_from(alloc, text.as_slice())
    } else {
        begin_anew(alloc, text)
    }
}

/// Returns the fault of a text that cannot be read: out of memory. Any other error stays one.
fn fault_of_failed_read(error: io::Error) -> io::Result<BeginFault>
    ensures { IfOk result (λ fault. fault ≡ NoMemory) }
{
    if error.kind() == io::ErrorKind::OutOfMemory {
        return Ok(BeginFault::NoMemory);
    }
    Err(error)
}

/// Reads the text before the lines. Returns the plant and the states that it says, or why it says none.
pub(crate) fn read_beginning<R: Read>(
    alloc: Global,
    reader: &mut R,
) -> io::Result<Result<Beginning, BeginFault>>
    ensures begun { IfOk result (λ read. IfOk read (λ begun. IfSome (R.remaining reader.old) (λ input.
        IsBeginningRead input (R.remaining reader.new) begun.plant begun.saved))) }
    ensures fault { IfOk result (λ read. IfErr read (λ fault. IfSome (R.remaining reader.old) (λ input. IsTextFault (front_text input) fault))) }
{
    match read_front(alloc, reader) {
        Ok(text) => Ok(beginning_of(alloc, text)),
        Err(error) => Ok(Err(fault_of_failed_read(error)?)),
    }
}
