//! TLVs, flow encodings, messages and replies.

use crate::want_of_memory::again::{again, are};
use dsx_messages::{Message, MessageFault, Reply, Request, read, read_reply, write_reply};
use operator_model::has_set_type;
use std::alloc::{AllocError, Global};
use std::process::Abort;
use tlv24::{Bytes, FlowTlv, SetType, Tlv, TlvFault, Tlvs, read_flow, write_flow};

/// An addition of two encodings that admit and activate, under transaction 1 and reference 1.
const ADDITION: [u8; 27] = [
    15, 0, 1, 24, 10, 1, 2, 0, 1, 6, 1, 2, 15, 1, 2, 24, 10, 1, 2, 0, 1, 6, 1, 4, 15, 1, 2,
];

/// The reply to it: reference 1, SFID 257, SID 257.
const REPLY: [u8; 20] = [
    16, 0, 1, 0, 24, 14, 1, 2, 0, 1, 2, 4, 0, 0, 1, 1, 3, 2, 1, 1,
];

/// Returns whether bytes are copied, and are the reply.
fn is_copied(alloc: Global, bytes: &Bytes) -> bool {
    match &again!(bytes.copy(alloc)) {
        Ok(copied) => are(bytes.as_slice(), &REPLY) && are(copied.as_slice(), &REPLY),
        Err(_) => false,
    }
}

/// Returns whether the reply's bytes are made, and copied.
fn reply_bytes_are_copied(alloc: Global) -> bool {
    match &again!(Bytes::from_slice(alloc, &REPLY)) {
        Ok(bytes) => is_copied(alloc, bytes),
        Err(_) => false,
    }
}

/// Returns what is split, and once more where that finds no memory.
fn split_list(alloc: Global, list: &[u8]) -> Result<Vec<Tlv>, TlvFault> {
    again!(Tlvs::split(alloc, list), TlvFault::NoMemory)
}

/// Returns whether these are an empty TLV of type 27, and one of type 31 with one byte.
fn are_split(tlvs: &[Tlv]) -> bool {
    match tlvs {
        [first, second] => {
            first.kind == 27
                && second.kind == 31
                && are(first.value.as_slice(), &[])
                && are(second.value.as_slice(), &[7])
        }
        _ => false,
    }
}

/// Returns whether the list of both is split.
fn tlvs_are_split(alloc: Global) -> bool {
    match &split_list(alloc, &[27, 0, 31, 1, 7]) {
        Ok(tlvs) => are_split(tlvs.as_slice()),
        Err(_) => false,
    }
}

/// Reference 1, set types admitted and active, best effort.
const ENCODING: [u8; 10] = [1, 2, 0, 1, 6, 1, 6, 15, 1, 2];

/// Returns whether a flow is written so.
fn is_encoded(alloc: Global, flow: &FlowTlv) -> bool {
    match &again!(write_flow(alloc, flow)) {
        Ok(written) => are(written.as_slice(), &ENCODING),
        Err(_) => false,
    }
}

/// Returns whether the flow that the encoding says is written so.
fn flow_encoding_is_written(alloc: Global) -> bool {
    match &read_flow(&ENCODING) {
        Ok(flow) => is_encoded(alloc, flow),
        Err(_) => false,
    }
}

/// Returns what bytes say, and once more where that finds no memory.
fn message(alloc: Global, bytes: &[u8]) -> Result<Message, MessageFault> {
    again!(read(alloc, bytes), MessageFault::NoMemory)
}

/// Returns whether a flow is of reference 1 and of this set type.
fn is_one(flow: &FlowTlv, set_type: SetType) -> bool {
    flow.get_reference() == Some(1) && has_set_type(set_type, flow)
}

/// Returns whether these are two flows of reference 1, the one for the admitted set and the other
/// for the active set.
fn are_two(flows: &[FlowTlv]) -> bool {
    match flows {
        [first, second] => is_one(first, SetType::Admitted) && is_one(second, SetType::Active),
        _ => false,
    }
}

/// Returns whether a message is the addition.
fn is_addition(message: &Message) -> bool {
    match message {
        Message::Request(Request::Dsa { tid, flows }) => *tid == 1 && are_two(flows.as_slice()),
        _ => false,
    }
}

/// Returns whether the addition is read.
fn addition_is_read(alloc: Global) -> bool {
    match &message(alloc, &ADDITION) {
        Ok(message) => is_addition(message),
        Err(_) => false,
    }
}

/// Returns whether a reply's bytes are those of the reply.
fn is_spelled(alloc: Global, reply: &Reply) -> bool {
    match &again!(write_reply(alloc, reply)) {
        Ok(written) => are(written.as_slice(), &REPLY),
        Err(_) => false,
    }
}

/// Returns whether the reply that the bytes say is written so.
fn reply_is_written(alloc: Global) -> bool {
    match &read_reply(&REPLY) {
        Some(reply) => is_spelled(alloc, reply),
        None => false,
    }
}

#[test]
fn bytes_encodings_messages_and_replies(rt: HostRuntime) {
    let alloc = rt.alloc();
    assert!(rt; reply_bytes_are_copied(alloc));
    assert!(rt; tlvs_are_split(alloc));
    assert!(rt; flow_encoding_is_written(alloc));
    assert!(rt; addition_is_read(alloc));
    assert!(rt; reply_is_written(alloc));
}
