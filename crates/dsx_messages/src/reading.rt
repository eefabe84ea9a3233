//! Reading a message.

ghost use Rattle.std.specs.Prelude.{◌≡◌, ◌≢◌, ◌==◌, ◌||◌, ℕ, List, [], length, Option, Some, None, Result, Ok, Err, IfOk, IfErr, MatchResult};
ghost use Rattle.tlv24.specs.Tlv.{front_of};
ghost use Rattle.tlv24.specs.Flow.{word, long, values_of};
ghost use Rattle.dsx_messages.specs.TlvType.{upstream_service_flow};
ghost use Rattle.lists.specs.Results.{Gives, Fails};
ghost use Rattle.dsx_messages.specs.Reading.{id_of_fault, message_cause, flow_in, flows_read_after, flows_in, request_with_flows, flows_request_of, deletion_of, ack_of, message_of, HoldsFlows, HoldsFlowsBehindTid, BringsFlows};
ghost use Rattle.dsx_messages.specs.Survey.{left_out_kind, first_some, flow_count, IsSurveyed, IsCutSurvey};
ghost use Rattle.dsx_messages.specs.Message.{Says, IsFirstMessageFault};
ghost use Rattle.dsx_messages.specs.declared.kind.Kind.TheVariants.{Dsd};
ghost use Rattle.dsx_messages.specs.declared.message.Message.{Message};
ghost use Rattle.dsx_messages.specs.declared.fault.MessageFault.TheVariants.{NoMemory};

use crate::fault::MessageFault;
use crate::kind::Kind;
use crate::message::{FlowEncodings, Message, Request};
use crate::reply::FlowId;
use crate::{message_type, tlv_type};
use std::alloc::Global;
use tlv24::{FlowFault, FlowTlv, TlvFault, first_tlv, read_flow};

/// What a first pass over the TLVs of a request finds.
struct Survey {
    left_out: Option<u8>,
    flows: usize,
}

/// Returns a type that is left out of this product: classifiers, downstream flows, payload header
/// suppression.
fn left_out_kind(kind: u8) -> Option<u8>
    ensures { result ≡ left_out_kind kind }
{
    if matches!(
        kind,
        tlv_type::UPSTREAM_CLASSIFIER
            | tlv_type::DOWNSTREAM_CLASSIFIER
            | tlv_type::DOWNSTREAM_SERVICE_FLOW
            | tlv_type::PAYLOAD_HEADER_SUPPRESSION
    ) {
        Some(kind)
    } else {
        None
    }
}

/// Returns the first of two, where it is there.
fn first_some(first: Option<u8>, second: Option<u8>) -> Option<u8>
    ensures { result ≡ first_some first second }
{
    match first {
        Some(kind) => Some(kind),
        None => second,
    }
}

/// Returns one for a flow encoding, else nothing.
fn flow_count(kind: u8) -> usize
    ensures { result ≡ flow_count kind }
{
    if kind == tlv_type::UPSTREAM_SERVICE_FLOW {
        1
    } else {
        0
    }
}

/// Goes over the TLVs by their lengths; where they are cut, answers the place.
fn survey_of(list: &[u8]) -> Result<Survey, usize>
    ensures { MatchResult result (λ s. IsSurveyed list.now s.left_out s.flows) (IsCutSurvey list.now) }
{
    let mut left_out = None;
    let mut flows = 0;
    let mut rest = list;
    while let Some(first) = first_tlv(rest) {
        left_out = first_some(left_out, left_out_kind(first.kind));
        flows += flow_count(first.kind);
        rest = first.rest;
    }
    if rest.is_empty() {
        Ok(Survey { left_out, flows })
    } else {
        Err(list.len() - rest.len())
    }
}

/// Returns the identifier of an invalid encoding.
fn id_of_fault(kind: Kind, fault: &FlowFault) -> Option<FlowId>
    ensures { result ≡ id_of_fault kind fault.now }
{
    match kind {
        Kind::Dsa => fault.reference.map(FlowId::Reference),
        Kind::Dsc => fault.sfid.map(FlowId::Sfid),
        Kind::Dsd => None,
    }
}

/// Returns what one flow encoding says.
#[tactic(auto, unfolding(crate::specs::Reading::flow_in))]
fn flow_in(tid: u16, kind: Kind, value: &[u8]) -> Result<FlowTlv, MessageFault>
    ensures { result ≡ flow_in tid kind value.now }
{
    match read_flow(value) {
        Ok(flow) => Ok(flow),
        Err(told) => Err(MessageFault::Tlv {
            tid,
            kind,
            id: id_of_fault(kind, &told),
            fault: told.fault,
        }),
    }
}

/// Returns what the flow encodings of a list say, `count` of them.
fn flows_of(
    alloc: Global,
    tid: u16,
    kind: Kind,
    list: &[u8],
    count: usize,
) -> Result<Vec<FlowTlv>, MessageFault>
    ensures { Gives message_cause (λ flows. flows.items) result (flows_read_after tid kind []
        (values_of upstream_service_flow (front_of list.now).tlvs)) }
{
    let mut flows = Vec::with_capacity(alloc, count)?;
    let mut rest = list;
    while let Some(first) = first_tlv(rest) {
        if first.kind == tlv_type::UPSTREAM_SERVICE_FLOW {
            let flow = flow_in(tid, kind, first.value)?;
            flows.push(flow)?;
        }
        rest = first.rest;
    }
    Ok(flows)
}

/// Returns what the TLVs of a request say.
#[tactic(auto, unfolding(crate::specs::Reading::flows_in))]
fn flows_in(alloc: Global, tid: u16, kind: Kind, list: &[u8]) -> Result<FlowEncodings, MessageFault>
    ensures exact { Gives message_cause (λ flows. flows) result (flows_in tid kind list.now) }
    ensures memory { result ≡ Err NoMemory → HoldsFlows list.now }
{
    match survey_of(list) {
        Err(at) => Err(MessageFault::Tlv {
            tid,
            kind,
            id: None,
            fault: TlvFault::Cut { at },
        }),
        Ok(
            Survey {
                left_out: Some(found),
                flows: _,
            },
        ) => Err(MessageFault::LeftOut { tid, kind, found }),
        Ok(
            Survey {
                left_out: None,
                flows: 0,
            },
        ) => Ok(FlowEncodings::from_vec(Vec::new(alloc))),
        Ok(
            Survey {
                left_out: None,
                flows,
            },
        ) => Ok(FlowEncodings::from_vec(flows_of(alloc, tid, kind, list, flows)?)),
    }
}

/// Returns the request that holds flow encodings: an addition or a change.
fn request_with_flows(kind: Kind, tid: u16, flows: FlowEncodings) -> Request
    requires { kind ≢ Dsd }
    ensures { result ≡ request_with_flows kind tid flows }
{
    match kind {
        Kind::Dsa => Request::Dsa { tid, flows },
        Kind::Dsc => Request::Dsc { tid, flows },
        Kind::Dsd => unreachable!(),
    }
}

/// Returns what the body of a request with flow encodings says: of an addition or a change.
#[inline(always)]
fn flows_request_of(alloc: Global, kind: Kind, body: &[u8]) -> Result<Message, MessageFault>
    requires { kind ≢ Dsd }
    ensures exact { Gives message_cause (λ message. message) result (flows_request_of kind body.now) }
    ensures memory { result ≡ Err NoMemory → HoldsFlowsBehindTid body.now }
{
    let [high, low, list @ ..] = body else {
        return Err(MessageFault::Short);
    };
    let tid = u16::from_be_bytes([*high, *low]);
    let flows = flows_in(alloc, tid, kind, list)?;
    Ok(Message::Request(request_with_flows(kind, tid, flows)))
}

fn deletion_of(body: &[u8]) -> Result<Message, MessageFault>
    ensures exact { result ≡ deletion_of body.now }
    ensures memory { result ≢ Err NoMemory }
{
    let [high, low, _, _, a, b, c, d, ..] = body else {
        return Err(MessageFault::Short);
    };
    let tid = u16::from_be_bytes([*high, *low]);
    let sfid = u32::from_be_bytes([*a, *b, *c, *d]);
    Ok(Message::Request(Request::Dsd { tid, sfid }))
}

fn ack_of(kind: Kind, body: &[u8]) -> Result<Message, MessageFault>
    ensures exact { result ≡ ack_of kind body.now }
    ensures memory { result ≢ Err NoMemory }
{
    let [high, low, code, ..] = body else {
        return Err(MessageFault::Short);
    };
    let tid = u16::from_be_bytes([*high, *low]);
    Ok(Message::Ack {
        kind,
        tid,
        code: *code,
    })
}

#[tactic(auto, unfolding(crate::specs::Reading::message_of))]
fn message_of(alloc: Global, bytes: &[u8]) -> Result<Message, MessageFault>
    ensures exact { Gives message_cause (λ message. message) result (message_of bytes.now) }
    ensures memory { result ≡ Err NoMemory → BringsFlows bytes.now }
{
    let [mtype, body @ ..] = bytes else {
        return Err(MessageFault::Empty);
    };
    match *mtype {
        message_type::DSA_REQ => flows_request_of(alloc, Kind::Dsa, body),
        message_type::DSA_ACK => ack_of(Kind::Dsa, body),
        message_type::DSC_REQ => flows_request_of(alloc, Kind::Dsc, body),
        message_type::DSC_ACK => ack_of(Kind::Dsc, body),
        message_type::DSD_REQ => deletion_of(body),
        mtype => Err(MessageFault::NotOurs { mtype }),
    }
}

/// Reads a message of a modem: one byte of message type and the payload.
///
/// The first fault is reported in this order: no byte; a type that is not ours; a fixed part that
/// is cut short; a list of TLVs that is cut; the first TLV of a type that is left out; the first
/// invalid flow encoding.
pub fn read(alloc: Global, bytes: &[u8]) -> Result<Message, MessageFault>
    // What is read is what the bytes say, and what they say is read, unless memory runs out.
    ensures found { IfOk result (Says bytes.now) }
    ensures only { (m : Message) → Says bytes.now m → Gives message_cause (λ message. message) result (Ok m) }
    // Otherwise the first fault in this order.
    ensures fault { IfErr result (IsFirstMessageFault bytes.now) }
    ensures exact { Gives message_cause (λ message. message) result (message_of bytes.now) }
    // Memory runs out only for a request whose whole list holds flow encodings.
    ensures memory { result ≡ Err NoMemory → BringsFlows bytes.now }
{
    message_of(alloc, bytes)
}
