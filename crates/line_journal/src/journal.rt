//! A snapshot and the lines since. Lines are added at the end of the file, a batch at a time.
ghost use Rattle.std.specs.Prelude.{◌≡◌, ◌⊎◌, ◌<◌, ◌≤◌, ◌^◌, ◌++◌, List, ℕ, length, OnOk, OnErr, IfOk, IsErrOf};
ghost use Rattle.line_journal.specs.Device.{LeavesOnly, Only};
ghost use Rattle.line_journal.specs.Journal.{journal_content, with_lines, fresh, IsJournalSettled, IsBeforeOrAfter};

use crate::{Batch, Device, DeviceError, SnapshotLines};
use std::alloc::Global;

/// The number of bytes before the closed gate from which on no line is added.
const MAX_GATE: usize = 1 << 60;

/// Holds a file with a closed gate at its end, and the offset of that gate. What is before it counts.
#[derive(Drop)]
pub struct Journal<D: Device> {
    pub device: D,
    pub gate: usize,
}

/// Begins a journal with a snapshot and no line, in place of whatever the file has, and returns where its gate is.
pub fn begin<D: Device>(
    alloc: Global,
    device: &mut D,
    snapshot: &SnapshotLines,
) -> Result<usize, DeviceError>
    // The file has this snapshot and no line, and all of it is on the disk.
    ensures begun { IfOk result (λ gate. IsJournalSettled D.seen D.may_leave device.new gate
        × (journal_content (D.seen device.new) ≡ fresh snapshot.now)) }

    // A crash at any moment of the call leaves what it might have left before, or this snapshot with no line.
    ensures any_moment { LeavesOnly D.moment D.left_since device.old device.new
        (λ c. D.may_leave device.old c ⊎ (journal_content c ≡ fresh snapshot.now)) }

    // `Failed` comes only if the disk has failed.
    ensures failed { IsErrOf result DeviceError.Failed → D.faults device.old < D.faults device.new }
    ensures full { IsErrOf result DeviceError.Full → ⊥ }
    ensures counted { D.faults device.old ≤ D.faults device.new }
{
    let text = snapshot.file(alloc)?;
    device.replace(&text)?;
    Ok(text.len() - 1)
}

impl<D: Device> Journal<D> {
    /// Adds the lines of a batch. At `Ok` they are acknowledged: from then on each crash leaves a file that has them.
    /// At `Err`, recover the file again.
    pub fn append(&mut self, alloc: Global, batch: &Batch) -> Result<(), DeviceError>
        requires { IsJournalSettled D.seen D.may_leave self.old.device self.old.gate }

        // All lines of the batch are on the disk, so every later crash leaves them.
        ensures acknowledged { OnOk result (IsJournalSettled D.seen D.may_leave self.new.device self.new.gate
            × (journal_content (D.seen self.new.device) ≡ with_lines batch.now (journal_content (D.seen self.old.device)))) }

        // A crash at any moment of the call leaves the lines from before it, with all the new ones or with none.
        ensures any_moment { LeavesOnly D.moment D.left_since self.old.device self.new.device
            (IsBeforeOrAfter (journal_content (D.seen self.old.device)) (with_lines batch.now (journal_content (D.seen self.old.device)))) }

        // `Failed` comes only if the disk has failed.
        ensures failed { IsErrOf result DeviceError.Failed → D.faults self.old.device < D.faults self.new.device }
        // `Full` comes only from 2^60 bytes on.
        ensures full { IsErrOf result DeviceError.Full → 2 ^ 60 ≤ self.old.gate }
        ensures counted { D.faults self.old.device ≤ D.faults self.new.device }
        ensures same_gate { OnErr result (self.new.gate ≡ self.old.gate) }
    {
        if self.gate >= MAX_GATE {
            return Err(DeviceError::Full);
        }
        let text = batch.closed_text(alloc)?;
        let (gate, behind) = text.split_at(1);
        self.device.write_at(self.gate + 1, behind)?;
        self.device.sync()?;
        self.device.write_at(self.gate, gate)?;
        self.device.sync()?;
        self.gate += behind.len();
        Ok(())
    }

    /// Puts another snapshot in the place of the old one and of all lines since. At `Ok` it is acknowledged.
    /// At `Err`, recover the file again.
    pub fn replace_snapshot(
        &mut self,
        alloc: Global,
        snapshot: &SnapshotLines,
    ) -> Result<(), DeviceError>
        requires { IsJournalSettled D.seen D.may_leave self.old.device self.old.gate }

        // The new snapshot is on the disk, with no line.
        ensures acknowledged { OnOk result (IsJournalSettled D.seen D.may_leave self.new.device self.new.gate
            × (journal_content (D.seen self.new.device) ≡ fresh snapshot.now)) }

        // A crash at any moment of the call leaves the old snapshot with all its lines, or the new one with none.
        ensures any_moment { LeavesOnly D.moment D.left_since self.old.device self.new.device
            (IsBeforeOrAfter (journal_content (D.seen self.old.device)) (fresh snapshot.now)) }

        // `Failed` comes only if the disk has failed.
        ensures failed { IsErrOf result DeviceError.Failed → D.faults self.old.device < D.faults self.new.device }
        ensures full { IsErrOf result DeviceError.Full → ⊥ }
        ensures counted { D.faults self.old.device ≤ D.faults self.new.device }
        ensures same_gate { OnErr result (self.new.gate ≡ self.old.gate) }
    {
        self.gate = begin(alloc, &mut self.device, snapshot)?;
        Ok(())
    }
}
