//! A core next to the record of its run.

ghost use Rattle.std.specs.Prelude.{map};
ghost use Rattle.std.proofs.Props.{props};
ghost use Rattle.plant_core.specs.live.LiveView.{live_view};
ghost use Rattle.plant_core.specs.Recorded.{IsRecordOf};

use crate::live::LiveCore;
use crate::slice_change::SliceChange;
use operator_book::History;

/// A core next to the record of its run: each operator's history, and the slices that were given. Contracts speak of `record_view`
/// of it. The type keeps that there is a history for each operator, and that the core is what is held of it without its
/// histories, and without slices that no frame to come has.
pub struct RecordedCore {
    pub(crate) live: LiveCore,
    pub(crate) histories: Vec<History>,
    pub(crate) changes: Vec<SliceChange>,
    ghost belongs: { IsRecordOf (live_view live) (map (λ history. history.entries) histories.items) changes.items } by { Prim.hlevel props },
}

/// Written out, so that the crates above prove nothing of how the parts of a core are dropped.
impl Drop for RecordedCore {
    fn drop(self) {
        let RecordedCore {
            live: _,
            histories: _,
            changes: _,
        } = self;
    }
}
