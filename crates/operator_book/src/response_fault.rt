//! Which fault of the cached responses keeps a machine from going on.

ghost use Rattle.std.specs.Prelude.{◌≡◌, Some};
ghost use Rattle.std.specs.List.{list_any};
ghost use Rattle.transactions.specs.Entry.{is_waiting};
ghost use Rattle.flow_table.specs.Table.{flow_at};
ghost use Rattle.operator_book.specs.Resuming.{first_fault_in, is_unset, does_await, response_fault, awaits_flow, pairs_fault, is_off_time, entry_fault};

use crate::flow_fault::modem_fault;
use crate::state_fault::StateFault;
use dsx_messages::Kind;
use flow_table::{Flow, Flows};
use param_sets::Sets;
use plant::OperatorRow;
use transactions::{Kept, KeptEntry, ResponseState};

/// Returns whether the flow has no set yet.
fn is_unset(sets: Sets) -> bool
    ensures { result ≡ is_unset sets }
{
    sets.get_provisioned().is_none() && sets.get_admitted().is_none() && sets.get_active().is_none()
}

/// Returns whether a flow waits for an acknowledgement of this kind.
fn does_await(kind: Kind, flow: &Flow) -> bool
    ensures { result ≡ does_await kind (Some flow.now) }
{
    match kind {
        Kind::Dsa => flow.pending.is_some() && is_unset(flow.sets),
        Kind::Dsc => flow.pending.is_some(),
        Kind::Dsd => false,
    }
}

/// Returns whether the flow of a response waits for the acknowledgement of its kind.
fn is_awaited(flows: &Flows, entry: &KeptEntry) -> bool
    ensures { result ≡ does_await entry.now.kind (flow_at entry.now.sfid flows.now.flows) }
{
    match flows.get(entry.sfid) {
        None => false,
        Some(flow) => does_await(entry.kind, flow),
    }
}

/// Returns whether the response waits for its acknowledgement.
fn is_waiting(entry: &KeptEntry) -> bool
    ensures { result ≡ is_waiting entry.now }
{
    entry.standing == ResponseState::Waiting
}

/// Returns the fault of a response: of its modem, and of the flow that it waits for.
fn response_fault(row: &OperatorRow, flows: &Flows, entry: &KeptEntry) -> Option<StateFault>
    ensures { result ≡ response_fault row.now flows.now.flows entry.now }
{
    if let Some(fault) = modem_fault(row, entry.modem) {
        return Some(fault);
    }
    if is_waiting(entry) && !is_awaited(flows, entry) {
        return Some(StateFault::NotAwaited { sfid: entry.sfid });
    }
    None
}

/// Returns the first fault of the responses, one by one.
pub(crate) fn responses_fault(
    row: &OperatorRow,
    flows: &Flows,
    entries: &[KeptEntry],
) -> Option<StateFault>
    ensures { result ≡ first_fault_in (response_fault row.now flows.now.flows) entries.now }
{
    for entry in entries {
        if let Some(fault) = response_fault(row, flows, entry) {
            return Some(fault);
        }
    }
    None
}

/// Returns whether the response waits for an acknowledgement that concerns this flow.
fn awaits_flow(sfid: u32, entry: &KeptEntry) -> bool
    ensures { result ≡ awaits_flow sfid entry.now }
{
    is_waiting(entry) && entry.sfid == sfid
}

/// Returns whether one of these responses waits for an acknowledgement that concerns this flow.
fn is_awaited_again(sfid: u32, entries: &[KeptEntry]) -> bool
    ensures { result ≡ list_any (awaits_flow sfid) entries.now }
{
    entries.iter().any(|entry| awaits_flow(sfid, entry))
}

/// Returns the fault of the first response that waits for the same flow as a later one.
pub(crate) fn pairs_fault(entries: &[KeptEntry]) -> Option<StateFault>
    ensures { result ≡ pairs_fault entries.now }
{
    for (place, entry) in entries.iter().enumerate() {
        if is_waiting(entry) && is_awaited_again(entry.sfid, &entries[place + 1..]) {
            return Some(StateFault::AwaitedTwice { sfid: entry.sfid });
        }
    }
    None
}

/// Returns whether the time of a response has ended, or it is held with a retransmission left.
fn is_off_time(entry: &KeptEntry) -> bool
    ensures { result ≡ is_off_time entry.now }
{
    entry.ticks_left == 0 || (!is_waiting(entry) && 0 < entry.resends_left)
}

/// Returns the fault of a response that the cache does not take.
pub(crate) fn entry_fault(kept: &Kept, entry: &KeptEntry) -> Option<StateFault>
    ensures { result ≡ entry_fault kept.now.entries entry.now }
{
    if kept.find(entry.modem, entry.tid).is_some() {
        return Some(StateFault::ResponseTwice {
            modem: entry.modem,
            tid: entry.tid,
        });
    }
    if is_off_time(entry) {
        return Some(StateFault::ResponseTimer {
            modem: entry.modem,
            tid: entry.tid,
        });
    }
    None
}
