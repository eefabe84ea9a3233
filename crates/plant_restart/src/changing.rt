//! Changes the plant of a core that rests.

ghost use Rattle.std.specs.Prelude.{◌≡◌, IfOk, IfErr};
ghost use Rattle.plant_core.specs.live.LiveView.{live_view};
ghost use Rattle.plant_restart.specs.declared.fault.ChangeFault.TheVariants as change_faults;
ghost use Rattle.plant_restart.specs.declared.fault.RestartFault.TheVariants as restart_faults;
ghost use Rattle.plant_restart.specs.Changing.{IsChangeOf, IsChangeFault, CanChange};

use crate::fault::{ChangeFault, RestartFault};
use crate::restarting::restart;
use crate::saving::states_to_save;
use plant::{Plant, keeps_consts};
use plant_core::LiveCore;
use std::alloc::Global;

/// Returns the core of another plant that goes on from a core that rests, which is left as it is: an operator with the name of
/// one of the old core goes on in its state, under its row of the new plant. An operator with a new name is opened before the
/// frame. One whose name the new plant does not have leaves with its flows. What all operators share stays the same, except for
/// classes that are added.
///
/// Fails in the order of `ChangeFault` (implementation-specific).
pub fn change(alloc: Global, core: &LiveCore, plant: Plant) -> Result<LiveCore, ChangeFault>
    // Whatever run led to the old core, the new one is a change of its plant, of which `changes_are_not_noticed`
    // speaks.
    ensures ok { IfOk result (λ new. IsChangeOf (live_view core.now) plant (live_view new)) }
    // This fault holds. No clause says which one of several, or that it is one of `refused_states`.
    ensures fault { IfErr result (IsChangeFault (live_view core.now) plant) }

    // Where the core rests, and the operators can start in their states under the new plant, the only fault is out of memory.
    ensures only { CanChange (live_view core.now) plant
        → IfErr result (λ fault. fault ≡ change_faults.Restart restart_faults.NoMemory) }
{
    // For the proof: that the plants are valid.
    core.always();
    let _rows = plant.rows();
    if !keeps_consts(core.plant().consts(), plant.consts()) {
        return Err(ChangeFault::ConstantsDiffer);
    }
    let frame = match core.resting_frame() {
        Ok(frame) => frame,
        Err(why) => return Err(ChangeFault::Unfinished { why }),
    };
    let Ok(operators) = states_to_save(alloc, core) else {
        return Err(ChangeFault::Restart {
            why: RestartFault::NoMemory,
        });
    };
    match restart(alloc, plant, frame, operators.as_slice()) {
        Ok(new) => {
            // For the proof: what always holds of `new`.
            new.always();
            Ok(new)
        }
        Err(why) => Err(ChangeFault::Restart { why }),
    }
}
