//! Gives the frames of a snapshot other numbers.

ghost use Rattle.std.specs.Prelude.{◌≡◌, ◌↔◌, true, map, IfOk, OnOk, Some, None, Err};
ghost use Rattle.std.specs.List.{list_all};
ghost use Rattle.frame_numbers.specs.declared.fault.RenumberFault.TheVariants as renumber_faults;
ghost use Rattle.frame_numbers.specs.Time.{KeepsTime};
ghost use Rattle.frame_numbers.specs.Numbering.{saved_flow_renumbered, next_renumbered, wait_fits, next_fits, operator_renumbered, renumber_refusal, IsRenumberedSnapshot};

use crate::fault::RenumberFault;
use crate::places::{age_before, place_before, wait_after};
use crate::refusing::refusal;
use flow_table::Flow;
use lists::Listed;
use operator_model::{Arrival, NextShare};
use param_sets::Units;
use plant::Consts;
use snapshot_format::{SavedFlow, SavedOperator, Snapshot};
use std::alloc::{AllocError, Global};
use transactions::KeptEntry;

/// Returns copies of cached responses.
fn copy_responses(alloc: Global, kept: &[KeptEntry]) -> Result<Vec<KeptEntry>, AllocError>
    ensures { IfOk result (λ copies. copies.items ≡ kept.now) }
{
    let mut copies = Vec::with_capacity(alloc, kept.len())?;
    for entry in kept {
        copies.push(entry.copy(alloc)?)?;
    }
    Ok(copies)
}

/// Returns copies of what was received.
fn copy_arrivals(alloc: Global, inbox: &[Arrival]) -> Result<Vec<Arrival>, AllocError>
    ensures { IfOk result (λ copies. copies.items ≡ inbox.now) }
{
    let mut copies = Vec::with_capacity(alloc, inbox.len())?;
    for arrival in inbox {
        copies.push(arrival.copy(alloc)?)?;
    }
    Ok(copies)
}

/// Returns a flow of which the next frame is called `to`.
fn renumber_flow(units: Units, from: u32, to: u32, saved: &SavedFlow) -> SavedFlow
    ensures { result ≡ saved_flow_renumbered units from to saved.now }
{
    SavedFlow {
        sfid: saved.sfid,
        flow: Flow {
            start: to.saturating_sub(place_before(units, from, &saved.flow)),
            since: to.saturating_sub(age_before(from, &saved.flow)),
            ..saved.flow
        },
    }
}

/// Returns flows of which the next frame is called `to`.
fn renumber_flows(
    alloc: Global,
    units: Units,
    from: u32,
    to: u32,
    flows: &[SavedFlow],
) -> Result<Vec<SavedFlow>, AllocError>
    ensures { IfOk result (λ others. others.items ≡ map (saved_flow_renumbered units from to) flows.now) }
{
    let mut others = Vec::with_capacity(alloc, flows.len())?;
    for saved in flows {
        others.push(renumber_flow(units, from, to, saved))?;
    }
    Ok(others)
}

/// Returns a share that waits as long where the next frame is called `to`.
fn renumber_next(from: u32, to: u32, next: Option<NextShare>) -> Option<NextShare>
    requires { wait_fits from to next ≡ true }
    ensures { result ≡ next_renumbered from to next }
{
    let next = next?;
    Some(NextShare {
        from: to + wait_after(from, &next),
        share: next.share,
    })
}

/// Returns a saved state of which the next frame is called `to`.
fn renumber_operator(
    alloc: Global,
    units: Units,
    from: u32,
    to: u32,
    saved: &SavedOperator,
) -> Result<SavedOperator, AllocError>
    requires { next_fits from to saved.now ≡ true }
    ensures { IfOk result (λ other. other ≡ operator_renumbered units from to saved.now) }
{
    let flows = renumber_flows(alloc, units, from, to, saved.flows.as_slice())?;
    let kept = copy_responses(alloc, saved.kept.as_slice())?;
    let inbox = copy_arrivals(alloc, saved.inbox.as_slice())?;
    Ok(SavedOperator {
        name: saved.name,
        share: saved.share,
        next: renumber_next(from, to, saved.next),
        flows: Listed::from_vec(flows),
        kept: Listed::from_vec(kept),
        inbox: Listed::from_vec(inbox),
    })
}

/// Returns saved states of which the next frame is called `to`.
fn renumber_operators(
    alloc: Global,
    units: Units,
    from: u32,
    to: u32,
    operators: &[SavedOperator],
) -> Result<Vec<SavedOperator>, AllocError>
    requires { list_all (next_fits from to) operators.now ≡ true }
    ensures { IfOk result (λ others. others.items ≡ map (operator_renumbered units from to) operators.now) }
{
    let mut others = Vec::with_capacity(alloc, operators.len())?;
    for saved in operators {
        others.push(renumber_operator(alloc, units, from, to, saved)?)?;
    }
    Ok(others)
}

/// Returns the snapshot of a plant at rest with other frame numbers: the next frame is called `to`. No operator notices it
/// (`renumbering_is_not_noticed`), and the MAP of each frame is the same (`time_goes_on`).
///
/// Fails where the Alloc Start Time would not go on, where a flow's start or since would be before frame 0, and where the frame
/// from which a slice waits would have no number, in this order; else only where memory runs out.
pub fn renumber(
    alloc: Global,
    consts: &Consts,
    saved: &Snapshot,
    to: u32,
) -> Result<Snapshot, RenumberFault>
    // The plant file is the same, and each state is renumbered. It is sound for every row for which the old one is.
    ensures ok { IfOk result (IsRenumberedSnapshot consts.now.units to saved.now) }
    ensures accepted { OnOk result (renumber_refusal consts.now to saved.now ≡ None) }
    // The Alloc Start Time would not go on.
    ensures time_steps { (result ≡ Err renumber_faults.TimeSteps) ↔ (¬ KeepsTime consts.now.channel saved.now.frame to) }
    // A flow's start or since would be before frame 0.
    ensures too_low { (result ≡ Err renumber_faults.TooLow)
        ↔ (renumber_refusal consts.now to saved.now ≡ Some renumber_faults.TooLow) }
    // The frame from which a slice waits would have no number of 32 bits.
    ensures too_high { (result ≡ Err renumber_faults.TooHigh)
        ↔ (renumber_refusal consts.now to saved.now ≡ Some renumber_faults.TooHigh) }
    // Memory runs out only for what is not refused. No clause says that another number is not refused.
    ensures memory { result ≡ Err renumber_faults.NoMemory → renumber_refusal consts.now to saved.now ≡ None }
{
    if let Some(fault) = refusal(consts, to, saved) {
        return Err(fault);
    }
    let units = consts.get_fields().units;
    let operators = renumber_operators(alloc, units, saved.frame, to, saved.operators.as_slice())?;
    Ok(Snapshot {
        plant: saved.plant.copy(alloc)?,
        frame: to,
        operators: Listed::from_vec(operators),
    })
}
