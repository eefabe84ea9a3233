//! The numbers that a check compares.

use crate::checks::OperatorSnapshot;
use crate::decision::Decision;
use crate::table::{Check, MessageCheck};
use admission::Budget;
use dsx_messages::{Message, Request, read};
use flow_table::Flow;
use operator_model::{Heard, has_set_type};
use param_sets::{ParamSet, Units, from_tlv, need};
use plant::Consts;
use std::alloc::{AllocError, Global};
use tlv24::{FlowTlv, SetType};

/// The numbers that a check compares: what is held or present, and the most that may be.
#[derive(Clone, Copy, Debug, PartialEq, Eq)]
pub enum CheckComparison {
    /// Minislots of a budget: those that other flows hold, and those that a flow needs.
    Budget {
        held: u64,
        limit: u16,
        needed: u64,
        /// The frame from which the budget counts, if it is not in force yet.
        from_frame: Option<u32>,
    },
    /// Elements of a quota: those that other flows hold, and those that a flow needs.
    Quota {
        held: u64,
        limit: u16,
        needed: u64,
    },
    /// The flows that are present.
    Flows {
        held: u64,
        limit: u16,
    },
    /// The transactions that are kept.
    Transactions {
        held: u64,
        limit: u16,
    },
}

/// What all flows have committed.
#[derive(Clone, Copy)]
pub(crate) struct Committed {
    pub minislots: u64,
    pub elements: u64,
}

pub(crate) fn committed_by(units: Units, flows: &[(u32, Flow)]) -> Committed {
    let mut committed = Committed {
        minislots: 0,
        elements: 0,
    };
    for (_sfid, flow) in flows {
        let own = flow.committed(units);
        committed.minislots = committed.minislots.saturating_add(u64::from(own.minislots));
        committed.elements = committed.elements.saturating_add(u64::from(own.elements));
    }
    committed
}

/// Returns whether an encoding asks for an admitted set (CM-SP-MULPIv3.1, Annex C, subtype 6).
fn is_to_be_admitted(encoding: &FlowTlv) -> bool {
    has_set_type(SetType::Admitted, encoding) || has_set_type(SetType::AdmittedAndActive, encoding)
}

/// Returns the set of an encoding, where it has one.
fn set_of(consts: &Consts, encoding: &FlowTlv) -> Option<ParamSet> {
    let asked = consts.requested_encoding(encoding)?;
    match from_tlv(&asked, &consts.get_fields().units) {
        Ok(set) => Some(set),
        Err(_refusal) => None,
    }
}

/// Returns what the set needs that a request asks to be admitted.
fn needed_by(consts: &Consts, encodings: &[FlowTlv]) -> Budget {
    match encodings
        .iter()
        .find(|encoding| is_to_be_admitted(encoding))
    {
        None => Budget::NOTHING,
        Some(encoding) => match set_of(consts, encoding) {
            None => Budget::NOTHING,
            Some(set) => need(&set, &consts.get_fields().units),
        },
    }
}

/// Returns the SFID that a change names.
fn changed_sfid(request: &Request) -> Option<u32> {
    match request {
        Request::Dsc { tid: _, flows } => flows.as_slice().first()?.get_sfid(),
        _ => None,
    }
}

fn encodings_of(request: &Request) -> &[FlowTlv] {
    match request {
        Request::Dsa { tid: _, flows } | Request::Dsc { tid: _, flows } => flows.as_slice(),
        Request::Dsd { tid: _, sfid: _ } => &[],
    }
}

/// Returns the flow that a change is about.
fn changed_flow<'a>(flows: &'a [(u32, Flow)], request: &Request) -> Option<&'a Flow> {
    let named = changed_sfid(request)?;
    let (_sfid, flow) = flows.iter().find(|entry| entry.0 == named)?;
    Some(flow)
}

/// What the other flows hold, and what the flow of a request needs then.
#[derive(Clone, Copy)]
struct RequestRoom {
    held: Committed,
    needed: Committed,
}

fn room_of(operator_snapshot: &OperatorSnapshot, request: &Request) -> RequestRoom {
    let units = operator_snapshot.consts().get_fields().units;
    let flows = operator_snapshot.state().flows();
    let mut held = committed_by(units, flows);
    let asked = needed_by(operator_snapshot.consts(), encodings_of(request));
    let mut needed = Committed {
        minislots: u64::from(asked.minislots),
        elements: u64::from(asked.elements),
    };
    if let Some(flow) = changed_flow(flows, request) {
        let own = flow.committed(units);
        held.minislots = held.minislots.saturating_sub(u64::from(own.minislots));
        held.elements = held.elements.saturating_sub(u64::from(own.elements));
        if let Some(set) = flow.sets.get_admitted() {
            let admitted = need(&set, &units);
            needed.minislots = needed.minislots.max(u64::from(admitted.minislots));
            needed.elements = needed.elements.max(u64::from(admitted.elements));
        }
    }
    RequestRoom { held, needed }
}

/// Compares what a request needs with the budget that it passes: the one in force, or the one that waits for its frame.
fn compare_minislots(operator_snapshot: &OperatorSnapshot, request: &Request) -> CheckComparison {
    let room = room_of(operator_snapshot, request);
    let (held, needed) = (room.held.minislots, room.needed.minislots);
    let budget = operator_snapshot.state().share().budget;
    match operator_snapshot.state().next() {
        Some(next) if held.saturating_add(needed) <= u64::from(budget) => CheckComparison::Budget {
            held,
            limit: next.share.budget,
            needed,
            from_frame: Some(next.from),
        },
        _ => CheckComparison::Budget {
            held,
            limit: budget,
            needed,
            from_frame: None,
        },
    }
}

/// Compares what a request needs with the quota that it passes.
fn compare_elements(operator_snapshot: &OperatorSnapshot, request: &Request) -> CheckComparison {
    let room = room_of(operator_snapshot, request);
    CheckComparison::Quota {
        held: room.held.elements,
        limit: operator_snapshot.row().get_fields().elements,
        needed: room.needed.elements,
    }
}

/// Returns how many flows are present, and how many may be.
fn count_flows(operator_snapshot: &OperatorSnapshot) -> CheckComparison {
    CheckComparison::Flows {
        held: operator_snapshot.state().flows().len() as u64,
        limit: operator_snapshot.row().get_fields().flows,
    }
}

/// Returns how many transactions are kept, and how many may be.
fn count_transactions(operator_snapshot: &OperatorSnapshot) -> CheckComparison {
    CheckComparison::Transactions {
        held: operator_snapshot.state().cached_responses().len() as u64,
        limit: operator_snapshot.row().get_fields().transactions,
    }
}

/// Returns the request that was received, of which a check of the request holds.
fn request_in(alloc: Global, heard: &Heard) -> Result<Request, AllocError> {
    match heard {
        Heard::Message(bytes) => match read(alloc, bytes.as_slice()) {
            Ok(Message::Request(request)) => Ok(request),
            // Reading it was out of memory, since it is a request.
            _ => Err(AllocError),
        },
        Heard::Request {
            sid: _,
            minislots: _,
        } => Err(AllocError),
    }
}

/// Returns the numbers that a check compares, of what was received; none where it compares none.
pub(crate) fn comparison_of(
    alloc: Global,
    operator_snapshot: &OperatorSnapshot,
    heard: &Heard,
    decision: Option<Decision>,
) -> Result<Option<CheckComparison>, AllocError> {
    let comparison = match decision {
        Some(Decision::Message(MessageCheck::KeptFull)) => count_transactions(operator_snapshot),
        Some(Decision::Request(Check::FlowsFull)) => count_flows(operator_snapshot),
        Some(Decision::Request(Check::MinislotsOver)) => {
            let request = request_in(alloc, heard)?;
            compare_minislots(operator_snapshot, &request)
        }
        Some(Decision::Request(Check::ElementsOver)) => {
            let request = request_in(alloc, heard)?;
            compare_elements(operator_snapshot, &request)
        }
        _ => return Ok(None),
    };
    Ok(Some(comparison))
}
