//! Copies of states, from a machine to a snapshot and from a snapshot to a machine.

ghost use Rattle.std.specs.Prelude.{◌≡◌, map, IfOk};
ghost use Rattle.snapshot_format.specs.States.{sfid_with_flow, saved_flow, state_of, saved_state};

use flow_table::Flow;
use lists::Listed;
use operator_book::{Arrival, Machine, StateView};
use snapshot_format::{SavedFlow, SavedOperator};
use std::alloc::{AllocError, Global};
use transactions::KeptEntry;

/// Returns copies of cached responses.
fn copy_responses(alloc: Global, kept: &[KeptEntry]) -> Result<Vec<KeptEntry>, AllocError>
    ensures { IfOk result (λ copies. copies.items ≡ kept.now) }
{
    let mut copies = Vec::with_capacity(alloc, kept.len())?;
    for entry in kept {
        copies.push(entry.copy(alloc)?)?;
    }
    Ok(copies)
}

/// Returns copies of what was received.
fn copy_arrivals(alloc: Global, inbox: &[Arrival]) -> Result<Vec<Arrival>, AllocError>
    ensures { IfOk result (λ copies. copies.items ≡ inbox.now) }
{
    let mut copies = Vec::with_capacity(alloc, inbox.len())?;
    for arrival in inbox {
        copies.push(arrival.copy(alloc)?)?;
    }
    Ok(copies)
}

/// Returns the flows of a machine as they are saved.
fn flows_to_save(alloc: Global, flows: &[(u32, Flow)]) -> Result<Vec<SavedFlow>, AllocError>
    ensures { IfOk result (λ saved. saved.items ≡ map saved_flow flows.now) }
{
    let mut saved = Vec::with_capacity(alloc, flows.len())?;
    for entry in flows {
        saved.push(SavedFlow {
            sfid: entry.0,
            flow: entry.1,
        })?;
    }
    Ok(saved)
}

/// Returns saved flows as a machine has them.
fn flows_to_resume(alloc: Global, saved: &[SavedFlow]) -> Result<Vec<(u32, Flow)>, AllocError>
    ensures { IfOk result (λ flows. flows.items ≡ map sfid_with_flow saved.now) }
{
    let mut flows = Vec::with_capacity(alloc, saved.len())?;
    for entry in saved {
        flows.push((entry.sfid, entry.flow))?;
    }
    Ok(flows)
}

/// Returns a copy of a machine's state, under its operator's name.
pub(crate) fn state_to_save(alloc: Global, machine: &Machine) -> Result<SavedOperator, AllocError>
    ensures { IfOk result (λ saved. saved ≡ saved_state machine.now.sound.row.name machine.now.sound.state) }
{
    let state = machine.state_view(alloc)?;
    let flows = flows_to_save(alloc, state.flows())?;
    let kept = copy_responses(alloc, state.cached_responses())?;
    let inbox = copy_arrivals(alloc, state.inbox())?;
    Ok(SavedOperator {
        name: machine.row().get_fields().name,
        share: state.share(),
        next: state.next(),
        flows: Listed::from_vec(flows),
        kept: Listed::from_vec(kept),
        inbox: Listed::from_vec(inbox),
    })
}

/// Returns a copy of a saved state, before this frame.
pub(crate) fn state_to_resume(
    alloc: Global,
    saved: &SavedOperator,
    frame: u32,
) -> Result<StateView, AllocError>
    ensures { IfOk result (λ state. state ≡ state_of frame saved.now) }
{
    let flows = flows_to_resume(alloc, saved.flows.as_slice())?;
    let kept = copy_responses(alloc, saved.kept.as_slice())?;
    let inbox = copy_arrivals(alloc, saved.inbox.as_slice())?;
    Ok(StateView::new(flows, kept, inbox, frame, saved.share, saved.next))
}
