//! Another slice and budget from a later frame on.

ghost use Rattle.std.specs.Prelude.{◌≡◌, None};
ghost use Rattle.operator_model.specs.Machine.{is_off_frame, unfit_from, reslice_result};
ghost use Rattle.operator_book.specs.Held.{with_state};

use crate::machine::MachineState;
use operator_model::{NextShare, Share, SliceRow, Unfit};
use slice_scheduler::Slice;

impl MachineState {
    /// Returns whether an offered slice has no minislot, begins within the head, or ends after the
    /// frame.
    fn is_off_frame(&self, row: SliceRow) -> bool
        ensures { result ≡ is_off_frame self.now.consts row }
    {
        let channel = self.consts.get_fields().channel;
        row.length == 0
            || row.start < channel.head
            || u32::from(row.start) + u32::from(row.length) > u32::from(channel.frame_minislots)
    }

    /// Returns why an offered slice cannot be taken from this frame on.
    pub(crate) fn unfit_from(&self, from: u32, row: SliceRow) -> Option<Unfit>
        ensures { result ≡ unfit_from self.now from row }
    {
        if from <= self.frame {
            return Some(Unfit::NotPast);
        }
        if self.next.is_some() {
            return Some(Unfit::Unfinished);
        }
        if self.is_off_frame(row) {
            return Some(Unfit::OffFrame);
        }
        if row.budget > row.length {
            return Some(Unfit::BudgetOverSlice);
        }
        if self.flows.committed_minislots() > u64::from(row.budget) {
            return Some(Unfit::OverBudget);
        }
        None
    }

    /// Takes another slice and budget from a later frame on. Takes no memory.
    pub(crate) fn reslice(&mut self, from: u32, row: SliceRow)
        requires { unfit_from self.old from row ≡ None }
        ensures { self.new ≡ with_state self.old (reslice_result self.old.state from row) }
    {
        // For the proof: what the type of `self.consts.get_fields()` keeps.
        let _consts = self.consts.get_fields();
        self.next = Some(NextShare {
            from,
            share: Share {
                slice: Slice::new(row.start, row.length),
                budget: row.budget,
            },
        });
    }
}
