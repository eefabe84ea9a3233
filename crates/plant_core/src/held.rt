//! What a plant's core holds.

ghost use Rattle.std.specs.Prelude.{◌≡◌, map};
ghost use Rattle.plant_core.specs.live.Reachable.{IsReachable};
ghost use Rattle.plant_core.specs.RecordView.{record_view};

use crate::recorded::RecordedCore;
use grant_policy::Ranking;

/// A plant's core: the operators' machines, the frames that wait to be collected, what is gathered, the record of its run, and a
/// ranking for each operator, by which its ticks rank the flows. Contracts speak of `core_view` of it. The type keeps that it is
/// what some steps make of the plant's core as it is opened, and that each ranking follows the policy of its operator's row.
pub struct PlantCore {
    pub(crate) recorded: RecordedCore,
    pub(crate) rankings: Vec<Ranking>,
    ghost reached: { ∥ IsReachable (record_view recorded) ∥₁ },
    ghost follow: { map (λ ranking. ranking.policy) rankings.items
        ≡ map (λ row. row.policy) (record_view recorded).plant.rows },
}

/// Written out, so that the crates above prove nothing of how the parts of a core are dropped.
impl Drop for PlantCore {
    fn drop(self) {
        let PlantCore {
            recorded: _,
            rankings: _,
        } = self;
    }
}
