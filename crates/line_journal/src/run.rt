//! The changes of a journal, one after the other.
ghost use Rattle.std.specs.Prelude.{◌≡◌, ◌<◌, ◌≤◌, ◌^◌, ℕ, List, length, take, OnOk, OnErr, IsErrOf};
ghost use Rattle.line_journal.specs.Device.{LeavesOnly};
ghost use Rattle.line_journal.specs.Journal.{journal_content, IsJournalSettled, IsBeforeOrAfter};
ghost use Rattle.line_journal.specs.Run.{content_after, after_all, IsAfterSome};

use crate::{Batch, Device, DeviceError, Journal, SnapshotLines};
use std::alloc::Global;

/// Holds what is asked of a journal: lines at its end, or another snapshot in place of all that it has.
#[derive(Drop)]
pub enum JournalChange {
    Append(Batch),
    Replace(SnapshotLines),
}

impl<D: Device> Journal<D> {
    /// Makes a change. At `Ok` it is acknowledged. At `Err`, recover the file again.
    pub fn apply(&mut self, alloc: Global, change: &JournalChange) -> Result<(), DeviceError>
        requires { IsJournalSettled D.seen D.may_leave self.old.device self.old.gate }

        // The file has what the change makes of the journal, and all of it is on the disk.
        ensures acknowledged { OnOk result (IsJournalSettled D.seen D.may_leave self.new.device self.new.gate
            × (journal_content (D.seen self.new.device) ≡ content_after change.now (journal_content (D.seen self.old.device)))) }

        // A crash at any moment leaves what was there before, or what the change makes of it.
        ensures any_moment { LeavesOnly D.moment D.left_since self.old.device self.new.device
            (IsBeforeOrAfter (journal_content (D.seen self.old.device)) (content_after change.now (journal_content (D.seen self.old.device)))) }

        // `Failed` comes only if the disk has failed.
        ensures failed { IsErrOf result DeviceError.Failed → D.faults self.old.device < D.faults self.new.device }
        ensures full { IsErrOf result DeviceError.Full → 2 ^ 60 ≤ self.old.gate }
        ensures counted { D.faults self.old.device ≤ D.faults self.new.device }
        ensures same_gate { OnErr result (self.new.gate ≡ self.old.gate) }
    {
        match change {
            JournalChange::Append(batch) => self.append(alloc, batch),
            JournalChange::Replace(snapshot) => self.replace_snapshot(alloc, snapshot),
        }
    }

    /// Makes changes in order. At `Ok` all of them are acknowledged. At `Err`, recover the file again.
    pub fn apply_all(&mut self, alloc: Global, changes: &[JournalChange]) -> Result<(), DeviceError>
        requires { IsJournalSettled D.seen D.may_leave self.old.device self.old.gate }

        // Each change is on the disk, so every later crash leaves it.
        ensures acknowledged { OnOk result (IsJournalSettled D.seen D.may_leave self.new.device self.new.gate
            × (journal_content (D.seen self.new.device) ≡ after_all changes.now (journal_content (D.seen self.old.device)))) }

        // A crash at any moment leaves what the first changes made, none of them skipped and none in part.
        ensures any_moment { LeavesOnly D.moment D.left_since self.old.device self.new.device
            (IsAfterSome changes.now (journal_content (D.seen self.old.device))) }

        // `Failed` comes only if the disk has failed. The gate is that of the change that was not made.
        ensures failed { IsErrOf result DeviceError.Failed → D.faults self.old.device < D.faults self.new.device }
        ensures full { IsErrOf result DeviceError.Full → 2 ^ 60 ≤ self.new.gate }
    {
        for change in changes {
            self.apply(alloc, change)?;
        }
        Ok(())
    }
}
