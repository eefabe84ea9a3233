//! What a live core always keeps.

ghost use Rattle.std.specs.Prelude.{◌≡◌, ◌≤◌, false, map, length, option_map, slice_get};
ghost use Rattle.plant.specs.Plant.{IsPlant};
ghost use Rattle.map_assembly.specs.Gathering.{IsGathering};
ghost use Rattle.map_assembly.specs.LettingGo.{has_begun};
ghost use Rattle.plant_core.specs.live.DeskView.{book_of};
ghost use Rattle.plant_core.specs.live.LiveView.{live_view};

use crate::live::held::LiveCore;
use operator_book::Machine;
use plant::{Op, Plant};

impl LiveCore {
    /// States that the plant is valid, what is gathered is as the assembly always keeps it, and no
    /// slices are held that only earlier frames than the one whose MAP comes next had. Does
    /// nothing.
    pub fn always(&self)
        ensures plant { IsPlant (live_view self.now).plant }
        ensures gathering { IsGathering (live_view self.now).gathering }
        ensures let_go { has_begun (live_view self.now).gathering ≡ false }
    {
        // For the proof: what the type of `self.routes.plant().rows()` keeps.
        let _rows = self.routes.plant().rows();
        self.gather.always();
    }

    /// States that there is a machine for each row of the plant, with a queue of its frames that
    /// wait, and at least one. Does nothing.
    pub fn always_one_each(&self)
        ensures books { length (live_view self.now).books ≡ length (live_view self.now).plant.rows }
        ensures queues { length (live_view self.now).queues ≡ length (live_view self.now).plant.rows }
        ensures some { 1 ≤ length (live_view self.now).books }
    {
        // For the proof: a plant has an operator.
        self.always();
    }

    /// States that each machine has the policy of the plant's row at its place. Does nothing.
    pub fn always_policies(&self)
        // Each machine has the policy of the row at its place.
        ensures { map (λ book. book.row.policy) (live_view self.now).books
            ≡ map (λ row. row.policy) (live_view self.now).plant.rows }
    {
        // For the proof: what the type keeps, which is known where a field is read.
        let _ = &self.desks;
    }

    /// Returns the plant that was opened.
    pub fn plant(&self) -> &Plant
        ensures { result.now ≡ (live_view self.now).plant }
    {
        self.routes.plant()
    }

    /// Returns the machine of the operator at this place, or nothing past the last operator.
    pub fn machine(&self, op: Op) -> Option<&Machine>
        ensures { option_map (λ machine. book_of machine.now.sound) result ≡ slice_get (live_view self.now).books op }
    {
        match self.desks.get(op) {
            Some(desk) => Some(&desk.live),
            None => None,
        }
    }
}
