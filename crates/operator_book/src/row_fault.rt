//! All faults of a state under a row, so that one answer can name each of them.

ghost use Rattle.std.specs.Prelude.{◌≡◌, ◌++◌, option_to_list, OnOk, IfOk};
ghost use Rattle.std.specs.List.{flat_map};
ghost use Rattle.operator_book.specs.RowFaults.{flows_over, responses_over, messages_over, count_faults, sfid_fault, row_faults_of_flow, row_faults_of_response, row_faults_of_message, quota_fault, row_faults};

use crate::flow_fault::{is_out_of, modem_fault, sid_fault};
use crate::share_fault::elements_of;
use crate::state_fault::StateFault;
use crate::state_view::StateView;
use flow_table::Flow;
use operator_model::Arrival;
use param_sets::Units;
use plant::OperatorRow;
use std::alloc::{AllocError, Global};
use transactions::KeptEntry;

/// Adds a fault, where there is one.
fn push_fault(faults: &mut Vec<StateFault>, fault: Option<StateFault>) -> Result<(), AllocError>
    ensures { OnOk result (faults.new.items ≡ faults.old.items ++ option_to_list fault) }
{
    if let Some(fault) = fault {
        faults.push(fault)?;
    }
    Ok(())
}

/// Returns the fault of flows that are more than the row allows.
fn flows_over(row: &OperatorRow, state: &StateView) -> Option<StateFault>
    ensures { result ≡ flows_over row.now state.now }
{
    let flows = state.flows.len();
    if usize::from(row.get_fields().flows) < flows {
        Some(StateFault::TooManyFlows { flows })
    } else {
        None
    }
}

/// Returns the fault of cached responses that are more than the row allows.
fn responses_over(row: &OperatorRow, state: &StateView) -> Option<StateFault>
    ensures { result ≡ responses_over row.now state.now }
{
    let responses = state.kept.len();
    if usize::from(row.get_fields().transactions) < responses {
        Some(StateFault::TooManyResponses { responses })
    } else {
        None
    }
}

/// Returns the fault of messages that are more than the row allows.
fn messages_over(row: &OperatorRow, state: &StateView) -> Option<StateFault>
    ensures { result ≡ messages_over row.now state.now }
{
    let messages = state.inbox.len();
    if usize::from(row.get_fields().inbox) < messages {
        Some(StateFault::TooManyMessages { messages })
    } else {
        None
    }
}

/// Adds each count that is greater than the row's.
fn push_counts(
    faults: &mut Vec<StateFault>,
    row: &OperatorRow,
    state: &StateView,
) -> Result<(), AllocError>
    ensures { OnOk result (faults.new.items ≡ faults.old.items ++ count_faults row.now state.now) }
{
    push_fault(faults, flows_over(row, state))?;
    push_fault(faults, responses_over(row, state))?;
    push_fault(faults, messages_over(row, state))
}

/// Returns the fault of a SFID that is not one of the row's.
fn sfid_fault(row: &OperatorRow, sfid: u32) -> Option<StateFault>
    ensures { result ≡ sfid_fault row.now sfid }
{
    if is_out_of(row.get_fields().sfids, sfid) {
        Some(StateFault::SfidOutOfRange { sfid })
    } else {
        None
    }
}

/// Adds a flow's modem, its SFID and its SID, each that the row does not have.
fn push_flow(
    faults: &mut Vec<StateFault>,
    row: &OperatorRow,
    sfid: u32,
    flow: &Flow,
) -> Result<(), AllocError>
    ensures { OnOk result (faults.new.items
        ≡ faults.old.items ++ row_faults_of_flow row.now (sfid, flow.now)) }
{
    push_fault(faults, modem_fault(row, flow.modem))?;
    push_fault(faults, sfid_fault(row, sfid))?;
    push_fault(faults, sid_fault(row, sfid, flow.sid))
}

/// Adds the faults of the flows, one by one.
fn push_flows(
    faults: &mut Vec<StateFault>,
    row: &OperatorRow,
    flows: &[(u32, Flow)],
) -> Result<(), AllocError>
    ensures { OnOk result (faults.new.items
        ≡ faults.old.items ++ flat_map (row_faults_of_flow row.now) flows.now) }
{
    for (sfid, flow) in flows {
        push_flow(faults, row, *sfid, flow)?;
    }
    Ok(())
}

/// Adds each cached response of a modem that the row does not list.
fn push_responses(
    faults: &mut Vec<StateFault>,
    row: &OperatorRow,
    entries: &[KeptEntry],
) -> Result<(), AllocError>
    ensures { OnOk result (faults.new.items
        ≡ faults.old.items ++ flat_map (row_faults_of_response row.now) entries.now) }
{
    for entry in entries {
        push_fault(faults, modem_fault(row, entry.modem))?;
    }
    Ok(())
}

/// Adds each message of a modem that the row does not list.
fn push_messages(
    faults: &mut Vec<StateFault>,
    row: &OperatorRow,
    inbox: &[Arrival],
) -> Result<(), AllocError>
    ensures { OnOk result (faults.new.items
        ≡ faults.old.items ++ flat_map (row_faults_of_message row.now) inbox.now) }
{
    for arrival in inbox {
        push_fault(faults, modem_fault(row, arrival.modem))?;
    }
    Ok(())
}

/// Returns the fault of elements that are more than the row's quota, where there are no more flows
/// than the row allows.
fn quota_fault(row: &OperatorRow, units: Units, flows: &[(u32, Flow)]) -> Option<StateFault>
    ensures { result ≡ quota_fault units row.now flows.now }
{
    let keys = row.get_fields();
    if usize::from(keys.flows) < flows.len() {
        return None;
    }
    let elements = elements_of(units, flows);
    if u64::from(keys.elements) < elements {
        Some(StateFault::OverElements { elements })
    } else {
        None
    }
}

/// Returns all faults of a state under a row, of those that another row can give to the state of a
/// machine in service: each count that is greater than the row's, then for each flow its modem, its
/// SFID and its SID, then each cached response and each message of a modem that the row does not
/// list, then the quota of elements (implementation-specific).
///
/// Where there are more flows than the row allows, the quota is not judged.
pub fn row_faults(
    alloc: Global,
    row: &OperatorRow,
    units: Units,
    state: &StateView,
) -> Result<Vec<StateFault>, AllocError>
    // No clause relates this list to the fault of `Machine::resume`.
    ensures { IfOk result (λ faults. faults.items ≡ row_faults units row.now state.now) }
{
    let mut faults = Vec::new(alloc);
    push_counts(&mut faults, row, state)?;
    push_flows(&mut faults, row, state.flows())?;
    push_responses(&mut faults, row, state.cached_responses())?;
    push_messages(&mut faults, row, state.inbox())?;
    push_fault(&mut faults, quota_fault(row, units, state.flows()))?;
    Ok(faults)
}
