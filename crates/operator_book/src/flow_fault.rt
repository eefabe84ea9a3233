//! Which fault of the flows keeps a machine from going on.

ghost use Rattle.std.specs.Prelude.{◌≡◌, not, None};
ghost use Rattle.plant.specs.Row.{is_listed};
ghost use Rattle.operator_book.specs.Resuming.{first_fault_in, modem_fault, is_out_of, sid_fault, lacks_sid, has_stray_backlog, same_params, same_set, pending_fault, standing_fault, flow_fault, is_not_after, order_fault};

use crate::state_fault::StateFault;
use admission::IdRange;
use dsx_messages::Modem;
use flow_table::Flow;
use param_sets::{ParamFields, ParamSet};
use plant::{OperatorRow, is_listed};

/// Returns the fault of a modem that the row does not list.
pub(crate) fn modem_fault(row: &OperatorRow, modem: Modem) -> Option<StateFault>
    ensures { result ≡ modem_fault row.now modem }
{
    if is_listed(modem, row.get_fields().modems.as_slice()) {
        None
    } else {
        Some(StateFault::ModemInUse { modem })
    }
}

/// Returns whether a number is not one of the range.
pub(crate) fn is_out_of(range: IdRange, number: u32) -> bool
    ensures { result ≡ is_out_of range number }
{
    number < range.get_first() || range.get_last() < number
}

/// Returns the fault of a SID that is not one of the row's.
pub(crate) fn sid_fault(row: &OperatorRow, sfid: u32, sid: Option<u16>) -> Option<StateFault>
    ensures { result ≡ sid_fault row.now sfid sid }
{
    match sid {
        None => None,
        Some(sid) => {
            if is_out_of(row.get_fields().sids, u32::from(sid)) {
                Some(StateFault::SidOutOfRange { sfid, sid })
            } else {
                None
            }
        }
    }
}

/// Returns whether a set is admitted, and there is no SID for its grants.
fn lacks_sid(admitted: Option<ParamSet>, sid: Option<u16>) -> bool
    ensures { result ≡ lacks_sid admitted sid }
{
    admitted.is_some() && sid.is_none()
}

/// Returns whether there is a backlog of a flow that does not request grants.
fn has_stray_backlog(flow: &Flow) -> bool
    ensures { result ≡ has_stray_backlog flow.now }
{
    !flow.asks_for_grants() && 0 < flow.backlog
}

/// Returns whether all parameters are the same.
fn same_params(a: &ParamFields, b: &ParamFields) -> bool
    ensures { result ≡ same_params a.now b.now }
{
    a.scheduling.number() == b.scheduling.number()
        && a.priority == b.priority
        && a.max_sustained_rate == b.max_sustained_rate
        && a.max_burst == b.max_burst
        && a.min_reserved_rate == b.min_reserved_rate
        && a.request_policy == b.request_policy
        && a.polling_interval == b.polling_interval
        && a.poll_jitter == b.poll_jitter
        && a.grant_size == b.grant_size
        && a.grant_interval == b.grant_interval
        && a.grant_jitter == b.grant_jitter
        && a.grants_per_interval == b.grants_per_interval
}

/// Returns whether two sets are the same: two null sets are.
fn same_set(a: Option<ParamSet>, b: Option<ParamSet>) -> bool
    ensures { result ≡ same_set a b }
{
    match (a, b) {
        (None, None) => true,
        (Some(a), Some(b)) => same_params(&a.get_fields(), &b.get_fields()),
        (None, Some(_)) | (Some(_), None) => false,
    }
}

/// Returns the fault of the sets that wait for an acknowledgement.
fn pending_fault(sfid: u32, flow: &Flow) -> Option<StateFault>
    ensures { result ≡ pending_fault sfid flow.now flow.now.pending }
{
    let pending = flow.pending?;
    if !same_set(pending.sets.get_provisioned(), flow.sets.get_provisioned()) {
        return Some(StateFault::OtherProvisioned { sfid });
    }
    if pending.sid_is_new && flow.sets.get_admitted().is_some() {
        return Some(StateFault::SidNotNew { sfid });
    }
    if lacks_sid(pending.sets.get_admitted(), flow.sid) {
        return Some(StateFault::NoSid { sfid });
    }
    None
}

/// Returns the fault of what the flow is now, before this frame.
fn standing_fault(frame: u32, sfid: u32, flow: &Flow) -> Option<StateFault>
    ensures { result ≡ standing_fault frame sfid flow.now }
{
    if lacks_sid(flow.sets.get_admitted(), flow.sid) {
        return Some(StateFault::NoSid { sfid });
    }
    if has_stray_backlog(flow) {
        return Some(StateFault::StrayBacklog { sfid });
    }
    if frame < flow.start || frame < flow.since {
        return Some(StateFault::LaterFlow { sfid });
    }
    None
}

/// Returns the first fault of a flow before this frame: of its modem, its SFID, its SID, what it is
/// now, and what waits of it.
fn flow_fault(row: &OperatorRow, frame: u32, sfid: u32, flow: &Flow) -> Option<StateFault>
    ensures { result ≡ flow_fault row.now frame (sfid, flow.now) }
{
    if let Some(fault) = modem_fault(row, flow.modem) {
        return Some(fault);
    }
    if is_out_of(row.get_fields().sfids, sfid) {
        return Some(StateFault::SfidOutOfRange { sfid });
    }
    if let Some(fault) = sid_fault(row, sfid, flow.sid) {
        return Some(fault);
    }
    if let Some(fault) = standing_fault(frame, sfid, flow) {
        return Some(fault);
    }
    pending_fault(sfid, flow)
}

/// Returns the first fault of the flows, one by one.
pub(crate) fn flows_fault(
    row: &OperatorRow,
    frame: u32,
    flows: &[(u32, Flow)],
) -> Option<StateFault>
    ensures { result ≡ first_fault_in (flow_fault row.now frame) flows.now }
{
    for (sfid, flow) in flows {
        if let Some(fault) = flow_fault(row, frame, *sfid, flow) {
            return Some(fault);
        }
    }
    None
}

/// Returns whether a SFID does not follow the one before it.
fn is_not_after(previous: Option<u32>, sfid: u32) -> bool
    ensures { result ≡ is_not_after previous sfid }
{
    match previous {
        None => false,
        Some(previous) => sfid <= previous,
    }
}

/// Returns the fault of the first flow that does not follow the one before it.
pub(crate) fn order_fault(flows: &[(u32, Flow)]) -> Option<StateFault>
    ensures { result ≡ order_fault None flows.now }
{
    let mut previous = None;
    for (sfid, _flow) in flows {
        if is_not_after(previous, *sfid) {
            return Some(StateFault::FlowOrder { sfid: *sfid });
        }
        previous = Some(*sfid);
    }
    None
}
