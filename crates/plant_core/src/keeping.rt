//! What a core next to its record always keeps.

ghost use Rattle.std.specs.Prelude.{◌≡◌, option_map, slice_get};
ghost use Rattle.plant.specs.Plant.{IsPlant};
ghost use Rattle.map_assembly.specs.Gathering.{IsGathering};
ghost use Rattle.plant_core.specs.live.Performing.{IsOf};
ghost use Rattle.plant_core.specs.live.LiveView.{live_view};
ghost use Rattle.plant_core.specs.RecordView.{record_view};

use crate::live::LiveCore;
use crate::recorded::RecordedCore;
use operator_model::Entry;
use plant::{Op, Plant};

impl RecordedCore {
    /// States that the plant is valid, and what is gathered is as the assembly always keeps it.
    /// Does nothing.
    pub(crate) fn always(&self)
        ensures plant { IsPlant (record_view self.now).plant }
        ensures gathering { IsGathering (record_view self.now).gathering }
    {
        // For the proof: what always holds of `self.live`.
        self.live.always();
    }

    /// Returns the plant that was opened.
    pub(crate) fn plant(&self) -> &Plant
        ensures { result.now ≡ (record_view self.now).plant }
    {
        self.live.plant()
    }

    /// Returns the core without its histories.
    pub(crate) fn live(&self) -> &LiveCore
        ensures { IsOf (live_view result.now) (record_view self.now) }
    {
        // For the proof: what always holds of `self.live`.
        self.live.always();
        &self.live
    }

    /// Returns all that an operator did, in order; none past the last operator. Takes no memory.
    pub(crate) fn history(&self, op: Op) -> Option<&[Entry]>
        ensures { option_map (λ history. history.now) result
            ≡ option_map (λ book. book.history) (slice_get (record_view self.now).books op) }
    {
        if op >= self.histories.len() {
            return None;
        }
        Some(self.histories[op].as_slice())
    }
}
