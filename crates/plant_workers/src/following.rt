//! Whether operators' books follow the first steps of a run.

ghost use Rattle.std.specs.Prelude.{◌≡◌, length, map, take, MatchOption};
ghost use Rattle.plant_workers.specs.audit.Straying.{AreOwnRuns, IsStrayHistory};
ghost use Rattle.plant_workers.specs.cell_state.HeldView.{cell_book};
ghost use Rattle.plant_core.specs.declared.live.core_fault.ResliceFault.{ResliceFault};
ghost use Rattle.plant_workers.specs.Faulting.{IsToldAt, IsOfReslice, IsRunFault};

use crate::audit::stray_at;
use crate::cell_state::Held;
use crate::receipts::RunFault;
use plant::{Op, Plant};
use plant_core::CoreFault;
use run_model::Step;

/// Finds the least operator whose history strays from its own steps, and where it does. Takes no memory.
fn first_stray(plant: &Plant, helds: &[Held], steps: &[Step]) -> Option<(Op, usize)>
    requires { length helds.now ≡ length plant.now.rows }
    ensures { MatchOption result (AreOwnRuns plant.now steps.now (map cell_book helds.now))
        (λ stray. IsStrayHistory plant.now steps.now (map cell_book helds.now) stray.0 stray.1) }
{
    for (op, held) in helds.iter().enumerate() {
        if let Some(index) = stray_at(plant, op, &held.book, steps) {
            return Some((op, index));
        }
    }
    None
}

/// Returns the fault of a run of which the slice change at this place was refused: that refusal if the books are what the
/// steps before it make of the plant, else where the first of them strays. Takes no memory.
pub(crate) fn fault_of_reslice(
    plant: &Plant,
    helds: &[Held],
    steps: &[Step],
    at: usize,
    fault: CoreFault,
) -> RunFault
    requires { IsToldAt steps.now at (map cell_book helds.now) fault }
    ensures of_run { IsRunFault plant.now steps.now result }
    // The change is reported as itself, or as `Strayed` if the books have strayed before.
    ensures refused { (refusal : ResliceFault) → fault ≡ CoreFault.Reslice refusal
        → length (map cell_book helds.now) ≡ length plant.now.rows
        → IsOfReslice plant.now steps.now at (map cell_book helds.now) refusal result }
{
    match fault {
        CoreFault::Reslice(fault) => {
            if helds.len() != plant.rows().len() {
                return RunFault::NoMemory;
            }
            match first_stray(plant, helds, &steps[..at]) {
                Some((op, index)) => RunFault::Strayed { op, index },
                None => RunFault::ResliceRefused { at, fault },
            }
        }
        _ => RunFault::NoMemory,
    }
}
