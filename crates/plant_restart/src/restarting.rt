//! Starts a core in given states of its operators, by their names.

ghost use Rattle.std.specs.Prelude.{◌≡◌, ◌↔◌, map, All, IsTrue, IfOk, IfErr};
ghost use Rattle.plant.specs.Row.{IsRowOf};
ghost use Rattle.operator_model.specs.State.{operator};
ghost use Rattle.operator_book.specs.declared.state_fault.StateFault.TheVariants as state_faults;
ghost use Rattle.plant_core.specs.declared.live.resume_fault.ResumeFault.TheVariants as resume_faults;
ghost use Rattle.plant_core.specs.live.LiveOperator.{sound_of};
ghost use Rattle.plant_core.specs.live.LiveView.{live_view};
ghost use Rattle.plant_restart.specs.ByName.{state_under, operator_by_name};
ghost use Rattle.plant_restart.specs.Saving.{saved_by_name};
ghost use Rattle.plant_restart.specs.Restarted.{IsFaultOfState, IsRowFault, IsRowsFault, IsRestarted, IsRestartFault};

use crate::copying::state_to_resume;
use crate::fault::RestartFault;
use operator_book::{Machine, StateFault, StateView};
use plant::{Consts, Op, OperatorName, OperatorRow, Plant, is_same_name};
use plant_core::{LiveCore, ResumeFault};
use snapshot_format::SavedOperator;
use std::alloc::{AllocError, Global};

/// Returns whether memory ran out as a state was resumed.
fn is_state_memory(why: StateFault) -> bool
    ensures { IsTrue result ↔ (why ≡ state_faults.NoMemory) }
{
    matches!(why, StateFault::NoMemory)
}

/// Returns whether memory ran out as a core was made.
fn is_core_memory(why: ResumeFault) -> bool
    ensures { IsTrue result ↔ (why ≡ resume_faults.NoMemory) }
{
    matches!(why, ResumeFault::NoMemory)
}

/// Returns a copy of the state that is saved under a name, if there is one.
pub(crate) fn state_under(
    alloc: Global,
    operators: &[SavedOperator],
    frame: u32,
    name: OperatorName,
) -> Result<Option<StateView>, AllocError>
    ensures { IfOk result (λ state. state ≡ state_under (map (saved_by_name frame) operators.now) name) }
{
    for saved in operators {
        if is_same_name(saved.name, name) {
            let state = state_to_resume(alloc, saved, frame)?;
            return Ok(Some(state));
        }
    }
    Ok(None)
}

/// Returns the machine of an operator that goes on in this state.
fn machine_in_state(
    alloc: Global,
    op: Op,
    row: &OperatorRow,
    consts: &Consts,
    state: StateView,
) -> Result<Machine, RestartFault>
    ensures ok { IfOk result (λ machine. machine.sound ≡ operator consts.now row.now state) }
    ensures fault { IfErr result (IsFaultOfState consts.now op row.now state) }
{
    match Machine::resume(alloc, row, consts, state) {
        Ok(machine) => Ok(machine),
        Err(why) => {
            if is_state_memory(why) {
                Err(RestartFault::NoMemory)
            } else {
                Err(RestartFault::State { op, why })
            }
        }
    }
}

/// Returns the machine of an operator that goes on in the state that is saved under its name. Without one it is opened before
/// the frame.
fn machine_by_name(
    alloc: Global,
    op: Op,
    row: &OperatorRow,
    consts: &Consts,
    frame: u32,
    operators: &[SavedOperator],
) -> Result<Machine, RestartFault>
    requires { IsRowOf consts.now row.now }
    ensures ok { IfOk result (λ machine. machine.sound
        ≡ operator_by_name consts.now frame (map (saved_by_name frame) operators.now) row.now) }
    ensures fault { IfErr result (IsRowFault consts.now (map (saved_by_name frame) operators.now) op row.now) }
{
    let state = state_under(alloc, operators, frame, row.get_fields().name)?;
    match state {
        Some(state) => machine_in_state(alloc, op, row, consts, state),
        None => match Machine::open_before(alloc, row, consts, frame) {
            Ok(machine) => Ok(machine),
            Err(_) => Err(RestartFault::NoMemory),
        },
    }
}

/// Returns the machine of each row, in the order of the rows.
fn machines_by_name(
    alloc: Global,
    rows: &[OperatorRow],
    consts: &Consts,
    frame: u32,
    operators: &[SavedOperator],
) -> Result<Vec<Machine>, RestartFault>
    requires { All (IsRowOf consts.now) rows.now }
    ensures ok { IfOk result (λ machines. map sound_of machines.items
        ≡ map (operator_by_name consts.now frame (map (saved_by_name frame) operators.now)) rows.now) }
    ensures fault { IfErr result (IsRowsFault consts.now (map (saved_by_name frame) operators.now) rows.now) }
{
    let mut machines = Vec::with_capacity(alloc, rows.len())?;
    for op in 0..rows.len() {
        let machine = machine_by_name(alloc, op, &rows[op], consts, frame, operators)?;
        machines.push(machine)?;
    }
    Ok(machines)
}

/// Returns the core of a plant at this frame, of which each operator goes on in the state that is saved under its name. Without
/// one it is opened before that frame.
pub(crate) fn restart(
    alloc: Global,
    plant: Plant,
    frame: u32,
    operators: &[SavedOperator],
) -> Result<LiveCore, RestartFault>
    ensures ok { IfOk result (λ core. IsRestarted plant frame (map (saved_by_name frame) operators.now) (live_view core)) }
    ensures fault { IfErr result (IsRestartFault plant frame (map (saved_by_name frame) operators.now)) }
{
    let machines = machines_by_name(alloc, plant.rows(), plant.consts(), frame, operators)?;
    match LiveCore::resume(alloc, plant, frame, machines) {
        Ok(core) => Ok(core),
        Err(why) => {
            if is_core_memory(why) {
                Err(RestartFault::NoMemory)
            } else {
                Err(RestartFault::Core { why })
            }
        }
    }
}
