//! Saves the states of a core.

ghost use Rattle.std.specs.Prelude.{◌≡◌, ℕ, map, Err, IfOk, IfErr};
ghost use Rattle.plant_restart.specs.declared.fault.SaveFault.TheVariants as save_faults;
ghost use Rattle.plant_core.specs.live.LiveView.{live_view};
ghost use Rattle.plant_core.specs.live.Resting.{Rests};
ghost use Rattle.plant_restart.specs.Saving.{saved_book, IsCoreSnapshot, IsSaveFault};

use crate::copying::state_to_save;
use crate::fault::SaveFault;
use lists::Listed;
use plant_core::LiveCore;
use snapshot_format::{SavedOperator, Snapshot};
use std::alloc::{AllocError, Global};
use tlv24::Bytes;

/// Returns the states of all operators, in the order of the rows.
pub(crate) fn states_to_save(
    alloc: Global,
    core: &LiveCore,
) -> Result<Vec<SavedOperator>, AllocError>
    ensures { IfOk result (λ operators. operators.items ≡ map saved_book (live_view core.now).books) }
{
    // For the proof: that there is a machine for each row.
    core.always_one_each();
    let count = core.plant().rows().len();
    let mut operators = Vec::with_capacity(alloc, count)?;
    for op in 0..count {
        let Some(machine) = core.machine(op) else {
            return Ok(operators);
        };
        operators.push(state_to_save(alloc, machine)?)?;
    }
    Ok(operators)
}

/// Returns the states of all operators of a core that rests before a frame, by their names, with the text of the plant file.
///
/// Fails with the first operator that does not rest, as `RestFault` names it, or if memory runs out.
pub fn save(alloc: Global, core: &LiveCore, plant_text: Bytes) -> Result<Snapshot, SaveFault>
    ensures ok { IfOk result (IsCoreSnapshot (live_view core.now) plant_text) }
    // This operator does not rest, or memory ran out.
    ensures fault { IfErr result (IsSaveFault (live_view core.now)) }

    // Memory is asked for where the core rests, and there the only fault is out of memory.
    ensures memory { result ≡ Err save_faults.NoMemory → (frame : ℕ) × Rests (live_view core.now) frame }
    // A core that rests is refused only if memory runs out.
    ensures only { (frame : ℕ) → Rests (live_view core.now) frame → IfErr result (λ fault. fault ≡ save_faults.NoMemory) }
{
    let frame = match core.resting_frame() {
        Ok(frame) => frame,
        Err(why) => return Err(SaveFault::Unfinished { why }),
    };
    let operators = states_to_save(alloc, core)?;
    Ok(Snapshot {
        plant: plant_text,
        frame,
        operators: Listed::from_vec(operators),
    })
}
