//! Reading a flow encoding in one pass.

ghost use Rattle.std.specs.Prelude.{◌≡◌, ◌≤◌, ℕ, true, List, [], ◌∷◌, ◌++◌, length, slice_index, Option, Some, None, Result, Ok, Err, is_some, IfOk, IfErr};
ghost use Rattle.tlv24.specs.declared.tlv.Tlv.{Tlv};
ghost use Rattle.tlv24.specs.declared.fields.FlowFields.{FlowFields};
ghost use Rattle.tlv24.specs.Tlv.{tlv};
ghost use Rattle.tlv24.specs.Flow.{word, long, name_of, errored_of, lengths_of, is_terminated, is_error_pair, in_range, value_of, fault_of, flow_of, IsFlowEncoding, IsFirstFlowFault};
ghost use Rattle.tlv24.specs.Stated.{States};

use crate::class_name::{ClassName, has_no_zero};
use crate::fault::FlowFault;
use crate::fields::{ErrorEncodings, FlowFields};
use crate::flow::FlowTlv;
use crate::subtype;
use crate::tlv::{TlvFault, first_tlv};

/// Returns the byte at a place, 0 past the end.
fn byte_at(value: &[u8], place: usize) -> u8
    ensures { result ≡ slice_index value.now place }
{
    value.get(place).copied().unwrap_or(0)
}

fn word(value: &[u8]) -> u16
    ensures { result ≡ word value.now }
{
    u16::from_be_bytes([byte_at(value, 0), byte_at(value, 1)])
}

fn long(value: &[u8]) -> u32
    ensures { result ≡ long value.now }
{
    u32::from_be_bytes([
        byte_at(value, 0),
        byte_at(value, 1),
        byte_at(value, 2),
        byte_at(value, 3),
    ])
}

fn read_error_encodings(value: &[u8]) -> ErrorEncodings
    ensures { result ≡ errored_of value.now }
{
    ErrorEncodings {
        errored_parameter: byte_at(value, 2),
        code: byte_at(value, 5),
    }
}

/// Returns the class name that ends in the value's last byte, a 0.
fn class_name(value: &[u8]) -> Option<ClassName>
    ensures { 2 ≤ length value.now → length value.now ≤ 16 → is_terminated value.now ≡ true
        → result ≡ Some (name_of value.now) }
{
    let (_, name) = value.split_last()?;
    ClassName::new(name)
}

fn is_terminated(value: &[u8]) -> bool
    ensures { result ≡ is_terminated value.now }
{
    match value.split_last() {
        Some((0, name)) => has_no_zero(name),
        _ => false,
    }
}

fn is_error_pair(value: &[u8]) -> bool
    ensures { result ≡ is_error_pair value.now }
{
    byte_at(value, 0) == subtype::ERRORED_PARAMETER
        && byte_at(value, 1) == 1
        && byte_at(value, 3) == subtype::ERROR_CODE
        && byte_at(value, 4) == 1
}

/// Returns the least and the greatest length in bytes of a known subtype's value.
fn lengths_of(subtype: u8) -> Option<(usize, usize)>
    ensures { result ≡ lengths_of subtype }
{
    match subtype {
        subtype::REFERENCE | subtype::SID | subtype::GRANT_SIZE => Some((2, 2)),
        subtype::SFID
        | subtype::MAX_SUSTAINED_RATE
        | subtype::MAX_BURST
        | subtype::MIN_RESERVED_RATE
        | subtype::REQUEST_POLICY
        | subtype::POLLING_INTERVAL
        | subtype::POLL_JITTER
        | subtype::GRANT_INTERVAL
        | subtype::GRANT_JITTER => Some((4, 4)),
        subtype::CLASS_NAME => Some((2, 16)),
        subtype::ERRORED => Some((6, 6)),
        subtype::SET_TYPE
        | subtype::TRAFFIC_PRIORITY
        | subtype::SCHEDULING_TYPE
        | subtype::GRANTS_PER_INTERVAL => Some((1, 1)),
        _ => None,
    }
}

fn in_range(subtype: u8, value: &[u8]) -> bool
    ensures { result ≡ in_range subtype value.now }
{
    match subtype {
        subtype::REFERENCE => word(value) != 0,
        subtype::SFID => long(value) != 0,
        subtype::CLASS_NAME => is_terminated(value),
        subtype::ERRORED => is_error_pair(value),
        subtype::TRAFFIC_PRIORITY => byte_at(value, 0) <= 7,
        _ => true,
    }
}

/// Returns whether a known subtype is among the fields.
fn stands(fields: &FlowFields, subtype: u8) -> bool
    ensures { (before : List Tlv) → States before fields.now → is_some (lengths_of subtype) ≡ true
        → result ≡ is_some (value_of subtype before) }
{
    match subtype {
        subtype::REFERENCE => fields.reference.is_some(),
        subtype::SFID => fields.sfid.is_some(),
        subtype::SID => fields.sid.is_some(),
        subtype::CLASS_NAME => fields.class_name.is_some(),
        subtype::ERRORED => fields.errored.is_some(),
        subtype::SET_TYPE => fields.set_type.is_some(),
        subtype::TRAFFIC_PRIORITY => fields.traffic_priority.is_some(),
        subtype::MAX_SUSTAINED_RATE => fields.max_sustained_rate.is_some(),
        subtype::MAX_BURST => fields.max_burst.is_some(),
        subtype::MIN_RESERVED_RATE => fields.min_reserved_rate.is_some(),
        subtype::SCHEDULING_TYPE => fields.scheduling_type.is_some(),
        subtype::REQUEST_POLICY => fields.request_policy.is_some(),
        subtype::POLLING_INTERVAL => fields.polling_interval.is_some(),
        subtype::POLL_JITTER => fields.poll_jitter.is_some(),
        subtype::GRANT_SIZE => fields.grant_size.is_some(),
        subtype::GRANT_INTERVAL => fields.grant_interval.is_some(),
        subtype::GRANT_JITTER => fields.grant_jitter.is_some(),
        subtype::GRANTS_PER_INTERVAL => fields.grants_per_interval.is_some(),
        _ => false,
    }
}

/// Returns what is wrong with a TLV after the fields that were read before it.
#[tactic(auto, unfolding(crate::specs::Flow::fault_of))]
fn fault_of(fields: &FlowFields, subtype: u8, value: &[u8]) -> Option<TlvFault>
    ensures { (before : List Tlv) → States before fields.now → result ≡ fault_of before (tlv subtype value.now) }
{
    let (least, greatest) = lengths_of(subtype)?;
    if value.len() < least || greatest < value.len() {
        return Some(TlvFault::WrongLength { subtype });
    }
    if stands(fields, subtype) {
        return Some(TlvFault::Twice { subtype });
    }
    if in_range(subtype, value) {
        None
    } else {
        Some(TlvFault::Range { subtype })
    }
}

/// Adds what a TLV says that is valid.
#[tactic(auto, using(crate::proofs::Values::one_lem, crate::proofs::Values::other_lem))]
fn set_field(fields: &mut FlowFields, subtype: u8, value: &[u8])
    ensures { (before : List Tlv) → States before fields.old → fault_of before (tlv subtype value.now) ≡ None
        → States (before ++ tlv subtype value.now ∷ []) fields.new }
{
    match subtype {
        subtype::REFERENCE => fields.reference = Some(word(value)),
        subtype::SFID => fields.sfid = Some(long(value)),
        subtype::SID => fields.sid = Some(word(value) % 16384),
        subtype::CLASS_NAME => fields.class_name = class_name(value),
        subtype::ERRORED => fields.errored = Some(read_error_encodings(value)),
        subtype::SET_TYPE => fields.set_type = Some(byte_at(value, 0)),
        subtype::TRAFFIC_PRIORITY => fields.traffic_priority = Some(byte_at(value, 0)),
        subtype::MAX_SUSTAINED_RATE => fields.max_sustained_rate = Some(long(value)),
        subtype::MAX_BURST => fields.max_burst = Some(long(value)),
        subtype::MIN_RESERVED_RATE => fields.min_reserved_rate = Some(long(value)),
        subtype::SCHEDULING_TYPE => fields.scheduling_type = Some(byte_at(value, 0)),
        subtype::REQUEST_POLICY => fields.request_policy = Some(long(value)),
        subtype::POLLING_INTERVAL => fields.polling_interval = Some(long(value)),
        subtype::POLL_JITTER => fields.poll_jitter = Some(long(value)),
        subtype::GRANT_SIZE => fields.grant_size = Some(word(value)),
        subtype::GRANT_INTERVAL => fields.grant_interval = Some(long(value)),
        subtype::GRANT_JITTER => fields.grant_jitter = Some(long(value)),
        subtype::GRANTS_PER_INTERVAL => fields.grants_per_interval = Some(byte_at(value, 0)),
        _ => {}
    }
}

/// Returns the fault with what was before it.
fn fault_after(fields: &FlowFields, fault: TlvFault) -> FlowFault
    ensures { result ≡ record { fault = fault; reference = fields.now.reference; sfid = fields.now.sfid } }
{
    FlowFault {
        fault,
        reference: fields.reference,
        sfid: fields.sfid,
    }
}

/// Reads the value of a type 24 TLV, an upstream service flow encoding. Takes no memory.
///
/// Subtypes that are not known are skipped, however often they come.
pub fn read_flow(bytes: &[u8]) -> Result<FlowTlv, FlowFault>
    // What is read is what the bytes say, and what they say is read.
    ensures found { IfOk result (IsFlowEncoding bytes.now) }
    ensures only { (m : FlowFields) → IsFlowEncoding bytes.now m → result ≡ Ok m }
    // Otherwise the first fault in the order of the bytes, with the reference and the SFID read before it.
    ensures fault { IfErr result (IsFirstFlowFault bytes.now) }
    ensures exact { result ≡ flow_of bytes.now }
{
    let mut fields = FlowFields::NONE;
    let mut rest = bytes;
    while !rest.is_empty() {
        let Some(first) = first_tlv(rest) else {
            let at = bytes.len() - rest.len();
            return Err(fault_after(&fields, TlvFault::Cut { at }));
        };
        if let Some(fault) = fault_of(&fields, first.kind, first.value) {
            return Err(fault_after(&fields, fault));
        }
        set_field(&mut fields, first.kind, first.value);
        rest = first.rest;
    }
    Ok(FlowTlv::new(fields))
}
