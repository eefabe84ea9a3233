//! All refusals of the states in which the operators of a core are to go on under another plant.

ghost use Rattle.std.specs.Prelude.{◌≡◌, ◌++◌, ℕ, [], map, OnOk, IfOk};
ghost use Rattle.plant_core.specs.live.LiveView.{live_view};
ghost use Rattle.plant_core.specs.live.Resting.{Rests};
ghost use Rattle.plant_restart.specs.ByName.{state_under};
ghost use Rattle.plant_restart.specs.Saving.{saved_by_name, states_by_name};
ghost use Rattle.plant_restart.specs.Refused.{refused_state, refused_under, refused_from, refused_states};

use crate::restarting::state_under;
use crate::saving::states_to_save;
use operator_book::{StateFault, row_faults};
use plant::{Consts, Op, OperatorRow, Plant};
use plant_core::LiveCore;
use snapshot_format::SavedOperator;
use std::alloc::{AllocError, Global};

/// Why an operator does not go on in its state under its row of another plant.
#[derive(Clone, Copy, Debug, PartialEq, Eq)]
pub struct RefusedState {
    /// The place of the operator in the other plant, counted from 0.
    pub op: Op,
    /// What the row does not allow of the state.
    pub why: StateFault,
}

/// Adds faults, each as one of the operator at this place.
fn push_faults(
    refused: &mut Vec<RefusedState>,
    op: Op,
    faults: &[StateFault],
) -> Result<(), AllocError>
    ensures { OnOk result (refused.new.items ≡ refused.old.items ++ map (refused_state op) faults.now) }
{
    for why in faults {
        refused.push(RefusedState { op, why: *why })?;
    }
    Ok(())
}

/// Adds each fault that the state saved under the row's name has under the row at this place.
fn push_row(
    alloc: Global,
    refused: &mut Vec<RefusedState>,
    consts: &Consts,
    op: Op,
    row: &OperatorRow,
    frame: u32,
    operators: &[SavedOperator],
) -> Result<(), AllocError>
    ensures { OnOk result (refused.new.items ≡ refused.old.items
        ++ refused_under consts.now op row.now (state_under (map (saved_by_name frame) operators.now) row.now.name)) }
{
    match state_under(alloc, operators, frame, row.get_fields().name)? {
        None => Ok(()),
        Some(state) => {
            let faults = row_faults(alloc, row, consts.get_fields().units, &state)?;
            push_faults(refused, op, faults.as_slice())
        }
    }
}

/// Returns each fault that a saved state has under the row of its name, in the order of the rows.
fn refused_by_name(
    alloc: Global,
    consts: &Consts,
    rows: &[OperatorRow],
    frame: u32,
    operators: &[SavedOperator],
) -> Result<Vec<RefusedState>, AllocError>
    ensures { IfOk result (λ refused. refused.items
        ≡ refused_from consts.now (map (saved_by_name frame) operators.now) 0 rows.now) }
{
    let mut refused = Vec::new(alloc);
    for (op, row) in rows.iter().enumerate() {
        push_row(alloc, &mut refused, consts, op, row, frame, operators)?;
    }
    Ok(refused)
}

/// Returns all that keeps the operators of a core that rests from going on in their states under another plant, as far as it is
/// for a key of the operator's table: for each row of the other plant, each fault of the state under its name, as `row_faults`
/// lists them. A core that does not rest has no refusals.
pub fn refused_states(
    alloc: Global,
    core: &LiveCore,
    plant: &Plant,
) -> Result<Vec<RefusedState>, AllocError>
    // If the core rests, these are the faults of all states under the rows of the plant.
    ensures rests { IfOk result (λ refused. (frame : ℕ) → Rests (live_view core.now) frame
        → refused.items ≡ refused_states plant.now (states_by_name (live_view core.now))) }
    ensures restless { IfOk result (λ refused. ((frame : ℕ) → ¬ Rests (live_view core.now) frame) → refused.items ≡ []) }
{
    let Ok(frame) = core.resting_frame() else {
        return Ok(Vec::new(alloc));
    };
    let operators = states_to_save(alloc, core)?;
    refused_by_name(
        alloc,
        plant.consts(),
        plant.rows(),
        frame,
        operators.as_slice(),
    )
}
