//! What a core always keeps.

ghost use Rattle.std.specs.Prelude.{◌≡◌, option_map, slice_get};
ghost use Rattle.plant.specs.Plant.{IsPlant};
ghost use Rattle.map_assembly.specs.Gathering.{IsGathering};
ghost use Rattle.plant_core.specs.live.Performing.{IsOf};
ghost use Rattle.plant_core.specs.live.LiveView.{live_view};
ghost use Rattle.plant_core.specs.CoreView.{core_view};

use crate::held::PlantCore;
use crate::live::LiveCore;
use operator_model::Entry;
use plant::{Op, Plant};

impl PlantCore {
    /// States that the plant is valid, and what is gathered is as the assembly always keeps it.
    /// Does nothing.
    pub fn always(&self)
        ensures plant { IsPlant (core_view self.now).plant }
        ensures gathering { IsGathering (core_view self.now).gathering }
    {
        // For the proof: what always holds of `self.recorded`.
        self.recorded.always();
    }

    /// Returns the plant that was opened.
    pub fn plant(&self) -> &Plant
        ensures { result.now ≡ (core_view self.now).plant }
    {
        self.recorded.plant()
    }

    /// Returns the core without its histories, and without slices that no frame to come has.
    pub fn live(&self) -> &LiveCore
        ensures { IsOf (live_view result.now) (core_view self.now) }
    {
        self.recorded.live()
    }

    /// Returns all that an operator did, in order; none past the last operator. Takes no memory.
    pub fn history(&self, op: Op) -> Option<&[Entry]>
        // The history of this operator's book, if there is one.
        ensures { option_map (λ history. history.now) result
            ≡ option_map (λ book. book.history) (slice_get (core_view self.now).books op) }
    {
        self.recorded.history(op)
    }
}
