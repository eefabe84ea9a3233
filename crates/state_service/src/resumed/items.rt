//! The answers to lines that ask for no other core, `K` among them.

ghost use Rattle.std.specs.Prelude.{◌≡◌, List, ℕ, false, Err, IfOk, OnOk};
ghost use Rattle.plant_core.specs.live.After.{BehindEachRun, IsReachableFromStart};
ghost use Rattle.plant_core.specs.live.LiveView.{live_view};
ghost use Rattle.line_service.specs.SoFar.{IsHeld};
ghost use Rattle.plant_core.specs.declared.live.rest_fault.RestFault.{RestFault};
ghost use Rattle.plant_core.specs.live.Resting.{Rests, IsRestFault};
ghost use Rattle.plant_restart.specs.declared.fault.SaveFault.TheVariants as save_faults;
ghost use Rattle.state_service.specs.resumed.Items.{begins_plant, SnapshotIsGiven};
ghost use Rattle.state_service.specs.resumed.NewFrames.{asks_frame, IsSavedCore};
ghost use Rattle.state_service.specs.resumed.Served.{in_service, ItemIsAnswered, WritesSnapshot};

use crate::resumed::holding::is_held;
use line_service::{LineBuffer, LineOutcome, NoNotes, answer_held, write_end};
use plant_core::LiveCore;
use plant_restart::{SaveFault, save};
use snapshot_format::{Snapshot, write_snapshot};
use std::alloc::Global;
use std::io;
use std::io::Write;
use tlv24::Bytes;

/// Returns a snapshot of a core, with this plant file. It fails if the core does not rest, or if memory runs out.
pub fn saved_core(alloc: Global, core: &LiveCore, file: &Bytes) -> Result<Snapshot, SaveFault>
    ensures ok { IfOk result (IsSavedCore file.now (live_view core.now)) }
    ensures fault { (why : RestFault) → result ≡ Err (save_faults.Unfinished why) → IsRestFault (live_view core.now) why }
    ensures none { (why : RestFault) → result ≡ Err (save_faults.Unfinished why)
        → (frame : ℕ) → Rests (live_view core.now) frame → ⊥ }
    // Memory runs out only if the core rests.
    ensures memory { result ≡ Err save_faults.NoMemory → (frame : ℕ) × Rests (live_view core.now) frame }
{
    // A core that does not rest is reported as such, also without memory.
    if let Err(why) = core.resting_frame() {
        return Err(SaveFault::Unfinished { why });
    }
    save(alloc, core, file.copy(alloc)?)
}

/// Returns the text of a snapshot of a core, with this plant file. It fails if the core does not rest, or if memory runs out.
pub(crate) fn snapshot_of_core(
    alloc: Global,
    core: &LiveCore,
    file: &Bytes,
) -> Result<Vec<u8>, SaveFault>
    ensures ok { IfOk result (λ text. SnapshotIsGiven file.now (live_view core.now) text.items) }
    ensures fault { (why : RestFault) → result ≡ Err (save_faults.Unfinished why) → IsRestFault (live_view core.now) why }
    ensures none { (why : RestFault) → result ≡ Err (save_faults.Unfinished why)
        → (frame : ℕ) → Rests (live_view core.now) frame → ⊥ }
    ensures memory { result ≡ Err save_faults.NoMemory → (frame : ℕ) × Rests (live_view core.now) frame }
{
    let saved = saved_core(alloc, core, file)?;
    let mut text = Vec::new(alloc);
    match write_snapshot(alloc, &mut text, &saved) {
        Ok(()) => Ok(text),
        Err(_full) => Err(SaveFault::NoMemory),
    }
}

/// Writes a snapshot of the core with this plant file, or `fault: line n` if the core does not rest, or `fault: memory`.
fn answer_snapshot<W: Write>(
    alloc: Global,
    core: &LiveCore,
    file: &Bytes,
    number: u64,
    writer: &mut W,
) -> io::Result<()>
    ensures { OnOk result (WritesSnapshot file.now (live_view core.now) number (W.contents writer.old) (W.contents writer.new)) }
{
    match snapshot_of_core(alloc, core, file) {
        Ok(text) => writer.write_all(text.as_slice())?,
        Err(SaveFault::Unfinished { why: _ }) => write_end(writer, number, LineOutcome::AtFault)?,
        Err(SaveFault::NoMemory) => write_end(writer, number, LineOutcome::NoMemory)?,
    }
    writer.flush()
}

/// Answers a line that asks for no other core: `K` by a snapshot of the core, any other as `answer_held` does.
pub(crate) fn answer_item<W: Write>(
    alloc: Global,
    core: &mut LiveCore,
    file: &Bytes,
    number: u64,
    held: &LineBuffer,
    writer: &mut W,
) -> io::Result<()>
    requires reached { IsReachableFromStart (live_view core.old) }
    requires no_plant { (line : List ℕ) → IsHeld held.now.bytes.items held.now.is_long line → begins_plant line ≡ false }
    requires no_frame { (line : List ℕ) → IsHeld held.now.bytes.items held.now.is_long line → asks_frame line ≡ false }
    ensures reached { OnOk result (IsReachableFromStart (live_view core.new)) }
    ensures answered { OnOk result (BehindEachRun (live_view core.old) (λ plant start before shown. (line : List ℕ)
        → IsHeld held.now.bytes.items held.now.is_long line
        → ItemIsAnswered (in_service file.now plant start before shown) number line (live_view core.new)
        (W.contents writer.old) (W.contents writer.new))) }
{
    if is_held(held, b"K") {
        answer_snapshot(alloc, core, file, number, writer)
    } else {
        answer_held(alloc, core, number, held, &NoNotes, writer)
    }
}
