//! Whether rankings are those of a plant.

ghost use Rattle.std.specs.Prelude.{◌≡◌, ◌↔◌, map, IsTrue};
ghost use Rattle.operator_book.specs.ViewOf.{policy_of};

use grant_policy::Ranking;
use plant::Plant;
use plant_core::follow;

/// Returns whether there is one ranking for each operator of a plant, and each follows that
/// operator's policy. What `run_workers` asks for.
pub fn are_ranked(plant: &Plant, rankings: &[Ranking]) -> bool
    ensures { IsTrue result ↔ (map policy_of rankings.now ≡ map (λ row. row.policy) plant.now.rows) }
{
    follow(rankings, plant.rows())
}
