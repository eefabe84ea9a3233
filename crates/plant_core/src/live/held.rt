//! What a live core holds.

ghost use Rattle.std.specs.Prelude.{◌≡◌, false, map};
ghost use Rattle.map_assembly.specs.LettingGo.{has_begun};
ghost use Rattle.plant_core.specs.live.Reachable.{core_of};
ghost use Rattle.plant_core.specs.live.DeskView.{slot_book, slot_waiting};
ghost use Rattle.plant_core.specs.live.After.{IsReachableFromStart};

use crate::live::core_memory::CoreMemory;
use crate::live::desk::LiveSlot;
use map_assembly::Gather;
use plant::Routes;

/// A plant's core with no history: the plant, each operator's machine with its frames that wait to
/// be collected, and what is gathered. Contracts speak of `live_view` of it. The type keeps that
/// some run of the plant leads to it, and that it holds no slices but those of the frame whose MAP
/// comes next, and of later frames.
///
/// No clause counts its memory. Besides the plant and the slices it holds of each operator flows,
/// cached responses and an inbox within the row's limits, the frames that were output and not
/// collected, and the parts that were collected and are in no MAP yet. However many steps lie after
/// it, that stays within bounds where the frames of all operators are collected, and slices are
/// given for few frames ahead.
pub struct LiveCore {
    pub(crate) routes: Routes,
    pub(crate) desks: Vec<LiveSlot>,
    pub(crate) gather: Gather,
    pub(crate) memory: CoreMemory,
    ghost let_go: { has_begun gather ≡ false },
    ghost reached: { ∥ IsReachableFromStart (core_of routes (map slot_book desks.items) (map slot_waiting desks.items) gather) ∥₁ },
}

/// Written out, so that the crates above prove nothing of how the parts of a core are dropped.
impl Drop for LiveCore {
    fn drop(self) {
        let LiveCore {
            routes: _,
            desks: _,
            gather: _,
            memory: _,
        } = self;
    }
}
