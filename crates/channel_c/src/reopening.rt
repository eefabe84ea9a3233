//! Opening a channel that was saved.

ghost use Rattle.std.specs.Prelude.{◌≡◌, ◌≢◌, IfErr, IfOk};
ghost use Rattle.channel_c.specs.Codes.{snapshot_code};
ghost use Rattle.channel_c.specs.Saved.{IsReopenCode, IsReopenedFrom, IsRestoreCode, IsRestoredFrom};

use crate::channel::OpenChannel;
use crate::codes::{NO_MEMORY, NOT_SNAPSHOT, plant_code, restore_code};
use crate::performing::plant_of_bytes;
use plant_restart::restore;
use snapshot_format::{Snapshot, SnapshotFault, read_snapshot};
use std::alloc::Global;

/// Returns the number by which a text is not read as a snapshot: 45, or 1 if memory ran out.
fn snapshot_code(fault: SnapshotFault) -> u32
    ensures { result ≡ snapshot_code fault }
{
    match fault {
        SnapshotFault::Line {
            number: _,
            wrong: _,
        } => NOT_SNAPSHOT,
        SnapshotFault::NoMemory => NO_MEMORY,
    }
}

/// Returns the channel of a snapshot, before the snapshot's frame, or the number of what is wrong.
#[tactic(auto, using(crate::proofs::SavedLemmas::restore_unread))]
fn channel_of(alloc: Global, saved: Snapshot) -> Result<OpenChannel, u32>
    ensures opened { IfOk result (IsRestoredFrom saved) }
    ensures fault { IfErr result (λ code. (code ≢ 0) × IsRestoreCode code saved) }
{
    let plant = match plant_of_bytes(alloc, saved.plant.as_slice()) {
        Ok(plant) => plant,
        Err(fault) => return Err(plant_code(fault)),
    };
    match restore(alloc, plant, &saved) {
        Ok(core) => Ok(OpenChannel {
            core,
            text: saved.plant,
            outs: Vec::new(alloc),
            fetched: 0,
        }),
        Err(fault) => Err(restore_code(fault)),
    }
}

impl OpenChannel {
    /// Opens a channel that was saved: it goes on before the frame of its snapshot. Fails with the
    /// number of what is wrong.
    #[tactic(auto, using(crate::proofs::SavedLemmas::reopen_unread, crate::proofs::SavedLemmas::reopen_refused))]
    pub fn reopen(alloc: Global, text: &[u8]) -> Result<OpenChannel, u32>
        ensures opened { IfOk result (IsReopenedFrom text.now) }
        ensures fault { IfErr result (λ code. (code ≢ 0) × IsReopenCode code text.now) }
    {
        match read_snapshot(alloc, text) {
            Ok(saved) => channel_of(alloc, saved),
            Err(fault) => Err(snapshot_code(fault)),
        }
    }
}
