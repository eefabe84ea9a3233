//! The records of flows.

ghost use Rattle.std.specs.Prelude.{◌≡◌, ◌-◌, length, slice_get};
ghost use Rattle.lists.specs.Results.{Gives};
ghost use Rattle.snapshot_format.specs.Reading.{read_cause};
ghost use Rattle.snapshot_format.specs.Records.{take_sid, take_waiting, take_pending, take_flow, can_follow, take_flows};

use crate::fault::{ReadFault, Wrong};
use crate::fields::{
    stop_at, take_literal, take_long, take_modem, take_number, take_presence, take_short,
};
use crate::saved::SavedFlow;
use crate::sets::take_sets;
use flow_table::{Flow, Pending};
use lists::Listed;
use std::alloc::Global;

/// Returns a SID if there is one, and what is after it.
#[tactic(auto, unfolding(crate::specs::Records::take_sid))]
fn take_sid(bytes: &[u8]) -> Result<(Option<u16>, &[u8]), ReadFault>
    ensures { Gives read_cause (λ x. (x.0, x.1.now)) result (take_sid bytes.now) }
{
    let (is_there, rest) = take_presence(bytes, b' ')?;
    if !is_there {
        return Ok((None, rest));
    }
    let (sid, rest) = take_short(rest, b' ')?;
    Ok((Some(sid), rest))
}

/// Returns what waits for an acknowledgement, and what is after it.
#[tactic(auto, unfolding(crate::specs::Records::take_waiting))]
fn take_waiting(bytes: &[u8]) -> Result<(Pending, &[u8]), ReadFault>
    ensures { Gives read_cause (λ x. (x.0, x.1.now)) result (take_waiting bytes.now) }
{
    let (new, rest) = take_number(bytes, 1, b' ')?;
    let (sets, rest) = match take_sets(rest) {
        Ok(taken) => taken,
        Err(fault) => return Err(fault),
    };
    let pending = Pending {
        sets,
        sid_is_new: new == 1,
    };
    Ok((pending, rest))
}

/// Returns what waits for an acknowledgement if something does, and what is after it.
#[tactic(auto, unfolding(crate::specs::Records::take_pending))]
fn take_pending(bytes: &[u8]) -> Result<(Option<Pending>, &[u8]), ReadFault>
    ensures { Gives read_cause (λ x. (x.0, x.1.now)) result (take_pending bytes.now) }
{
    let (is_there, rest) = take_presence(bytes, b' ')?;
    if !is_there {
        return Ok((None, rest));
    }
    let (pending, rest) = match take_waiting(rest) {
        Ok(taken) => taken,
        Err(fault) => return Err(fault),
    };
    Ok((Some(pending), rest))
}

/// Returns a flow, and what is after its line.
#[tactic(auto, unfolding(crate::specs::Records::take_flow))]
fn take_flow(bytes: &[u8]) -> Result<(SavedFlow, &[u8]), ReadFault>
    ensures { Gives read_cause (λ x. (x.0, x.1.now)) result (take_flow bytes.now) }
{
    let rest = take_literal(bytes, b"flow ")?;
    let (sfid, rest) = take_long(rest, b' ')?;
    let (modem, rest) = take_modem(rest, b' ')?;
    let (sid, rest) = take_sid(rest)?;
    let (sets, rest) = match take_sets(rest) {
        Ok(taken) => taken,
        Err(fault) => return Err(fault),
    };
    let (pending, rest) = match take_pending(rest) {
        Ok(taken) => taken,
        Err(fault) => return Err(fault),
    };
    let (start, rest) = take_long(rest, b' ')?;
    let (backlog, rest) = take_short(rest, b' ')?;
    let (since, rest) = take_long(rest, b'\n')?;
    let flow = Flow {
        modem,
        sid,
        sets,
        pending,
        start,
        backlog,
        since,
    };
    Ok((SavedFlow { sfid, flow }, rest))
}

/// Returns whether a flow of this identifier may follow these flows.
fn may_follow(flows: &[SavedFlow], sfid: u32) -> bool
    ensures { result ≡ can_follow (slice_get flows.now (length flows.now - 1)) sfid }
{
    match flows.last() {
        Some(last) => last.sfid < sfid,
        None => true,
    }
}

/// Returns so many flows, ascending by their identifiers, and what is after them.
#[tactic(auto, unfolding(crate::specs::Records::take_flows))]
pub(crate) fn take_flows(
    alloc: Global,
    count: u16,
    bytes: &[u8],
) -> Result<(Listed<SavedFlow>, &[u8]), ReadFault>
    ensures { Gives read_cause (λ x. (x.0, x.1.now)) result (take_flows count bytes.now) }
{
    let mut flows = Vec::new(alloc);
    let mut rest = bytes;
    for _ in 0..count {
        let (flow, after) = match take_flow(rest) {
            Ok(taken) => taken,
            Err(fault) => return Err(fault),
        };
        if !may_follow(&flows, flow.sfid) {
            return Err(stop_at(Wrong::Repeated, rest));
        }
        flows.push(flow)?;
        rest = after;
    }
    Ok((Listed::from_vec(flows), rest))
}
