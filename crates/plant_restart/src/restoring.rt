//! Restores a core from a snapshot.

ghost use Rattle.std.specs.Prelude.{◌≡◌, ◌↔◌, IsTrue, map, Contains, IfOk, IfErr, OnOk, IfSome};
ghost use Rattle.snapshot_format.specs.States.{states_of};
ghost use Rattle.plant_core.specs.live.LiveView.{live_view};
ghost use Rattle.plant_restart.specs.declared.fault.RestoreFault.TheVariants as restore_faults;
ghost use Rattle.plant_restart.specs.declared.fault.RestartFault.TheVariants as restart_faults;
ghost use Rattle.plant_restart.specs.Restarted.{names_of, HasNoRow, HaveRows, IsRestarted, IsRestoreFault, CanRestart};

use crate::fault::RestoreFault;
use crate::restarting::restart;
use plant::{OperatorName, OperatorRow, Plant, is_same_name};
use plant_core::LiveCore;
use snapshot_format::{SavedOperator, Snapshot};
use std::alloc::Global;

/// Returns whether no operator of these rows has this name.
fn has_no_row(rows: &[OperatorRow], name: OperatorName) -> bool
    ensures { IsTrue result ↔ HasNoRow rows.now name }
{
    for row in rows {
        if is_same_name(row.get_fields().name, name) {
            return false;
        }
    }
    true
}

/// Checks that each saved operator has a row.
fn check_names(rows: &[OperatorRow], operators: &[SavedOperator]) -> Result<(), OperatorName>
    ensures ok { OnOk result (HaveRows rows.now (map (λ saved. saved.name) operators.now)) }
    ensures stranger { IfErr result (λ name. Contains (map (λ saved. saved.name) operators.now) name) }
    ensures no_row { IfErr result (HasNoRow rows.now) }
{
    for saved in operators {
        if has_no_row(rows, saved.name) {
            return Err(saved.name);
        }
    }
    Ok(())
}

/// Returns the core of a plant that goes on from a snapshot: it rests before the snapshot's frame, and each operator goes on in
/// the state that is saved under its name. An operator without one is opened before that frame.
///
/// Fails with a saved operator that the plant does not have, else with a `RestartFault`. No clause says which one of several
/// (implementation-specific).
pub fn restore(alloc: Global, plant: Plant, saved: &Snapshot) -> Result<LiveCore, RestoreFault>
    // Each operator is in the state saved under its name, or is opened before that frame.
    ensures ok { IfOk result (λ core. IsRestarted plant saved.now.frame (states_of saved.now) (live_view core)) }
    ensures names { OnOk result (HaveRows plant.rows (names_of (states_of saved.now))) }
    // This fault holds: a saved operator has no row, a state is not one of its row, or the operators do not go
    // together.
    ensures fault { IfErr result (IsRestoreFault plant saved.now.frame (states_of saved.now)) }

    // Where each saved operator has a row, and the operators can start in their states, the only fault is out of memory.
    ensures only { HaveRows plant.rows (names_of (states_of saved.now))
        → CanRestart plant saved.now.frame (states_of saved.now)
        → IfErr result (λ fault. fault ≡ restore_faults.Restart restart_faults.NoMemory) }
{
    let operators = saved.operators.as_slice();
    if let Err(name) = check_names(plant.rows(), operators) {
        return Err(RestoreFault::UnknownOperator { name });
    }
    match restart(alloc, plant, saved.frame, operators) {
        Ok(core) => Ok(core),
        Err(why) => Err(RestoreFault::Restart { why }),
    }
}
