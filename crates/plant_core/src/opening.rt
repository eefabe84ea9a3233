//! Opening a plant's core.

ghost use Rattle.std.specs.Prelude.{◌≡◌, ◌≢◌, ◌↔◌, [], map, replicate, IsTrue, Err, IfOk};
ghost use Rattle.plant.specs.Plant.{IsPlant};
ghost use Rattle.run_model.specs.Opened.{opened_core};
ghost use Rattle.run_model.specs.IsStateAfter.{IsStateAfter};
ghost use Rattle.plant_core.specs.declared.core_fault.CoreOpenFault.{CoreOpenFault};
ghost use Rattle.plant_core.specs.CoreView.{core_view};
ghost use Rattle.plant_core.specs.RecordView.{record_view};

use crate::core_fault::CoreOpenFault;
use crate::held::PlantCore;
use crate::live::LiveCore;
use crate::recorded::RecordedCore;
use grant_policy::Ranking;
use operator_book::History;
use plant::{OperatorRow, Plant};
use std::alloc::{AllocError, Global};

/// Returns whether a ranking follows the row's policy.
fn follows(ranking: &Ranking, row: &OperatorRow) -> bool
    ensures { IsTrue result ↔ (ranking.now.policy ≡ row.now.policy) }
{
    ranking.policy() == row.get_fields().policy
}

/// Returns whether there is one ranking for each row, and each follows its row's policy.
pub fn follow(rankings: &[Ranking], rows: &[OperatorRow]) -> bool
    ensures { IsTrue result ↔ (map (λ ranking. ranking.policy) rankings.now ≡ map (λ row. row.policy) rows.now) }
{
    if rankings.len() != rows.len() {
        return false;
    }
    for (at, ranking) in rankings.iter().enumerate() {
        if !follows(ranking, &rows[at]) {
            return false;
        }
    }
    true
}

/// Returns so many histories of no entries.
fn no_histories(alloc: Global, count: usize) -> Result<Vec<History>, AllocError>
    ensures { IfOk result (λ histories. map (λ history. history.entries) histories.items ≡ replicate count []) }
{
    let mut histories = Vec::with_capacity(alloc, count)?;
    for _ in 0..count {
        histories.push(History::new(alloc))?;
    }
    Ok(histories)
}

impl RecordedCore {
    /// Returns the core of a plant with nothing done and nothing recorded. Fails only if memory runs out.
    fn open(alloc: Global, plant: Plant) -> Result<RecordedCore, AllocError>
        requires { IsPlant plant }
        ensures { IfOk result (λ core. record_view core ≡ opened_core plant) }
    {
        let live = LiveCore::open(alloc, plant)?;
        // For the proof: what always holds of `live`.
        live.always();
        let histories = no_histories(alloc, live.plant().rows().len())?;
        Ok(RecordedCore {
            live,
            histories,
            changes: Vec::new(alloc),
        })
    }
}

impl PlantCore {
    /// Returns the core of a plant with nothing done. The rankings are in the plant's order of
    /// operators.
    pub fn open(
        alloc: Global,
        plant: Plant,
        rankings: Vec<Ranking>,
    ) -> Result<PlantCore, CoreOpenFault>
        ensures ok { IfOk result (λ core. core_view core ≡ opened_core plant) }
        ensures reached { IfOk result (λ core. IsStateAfter plant [] [] (core_view core)) }
        // Rankings are refused exactly if they are not one for each operator, of its policy.
        ensures mismatch { (result ≡ Err CoreOpenFault.RankingsMismatch)
            ↔ (map (λ ranking. ranking.policy) rankings.items ≢ map (λ row. row.policy) plant.rows) }
    {
        if !follow(rankings.as_slice(), plant.rows()) {
            return Err(CoreOpenFault::RankingsMismatch);
        }
        let recorded = RecordedCore::open(alloc, plant)?;
        // For the proof: what always holds of `recorded`.
        recorded.always();
        Ok(PlantCore { recorded, rankings })
    }
}
