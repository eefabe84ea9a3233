//! Replies, and bytes that are none, written by hand from the layouts.

use dsx_messages::{Code, Detail, Kind, Reply, ReplyFields, read_back, read_reply};
use std::alloc::{AllocError, Global};
use std::process::Abort;

/// Returns whether bytes are not a reply. A function of its own: what the call promises is then no
/// part of the test's proof.
fn are_none(bytes: &[u8]) -> bool {
    read_reply(bytes).is_none()
}

/// Returns whether a reply that is written is read back as it is.
fn is_read_back(alloc: Global, reply: &Reply) -> Result<bool, AllocError> {
    Ok(read_back(alloc, reply)? == *reply)
}

/// The fields of `REPLY`.
const FIELDS: ReplyFields = ReplyFields {
    kind: Kind::Dsa,
    tid: 1,
    code: Code::Okay,
    detail: Detail::Given {
        reference: Some(1),
        sfid: 257,
        sid: Some(257),
    },
};

/// Returns whether a reply has these fields.
fn are_fields(reply: &Reply, wanted: ReplyFields) -> bool {
    reply.get_kind() == wanted.kind
        && reply.get_tid() == wanted.tid
        && reply.get_code() == wanted.code
        && reply.get_detail() == wanted.detail
}

/// Returns whether bytes are a reply with these fields.
fn has_fields(bytes: &[u8], wanted: ReplyFields) -> bool {
    match &read_reply(bytes) {
        Some(reply) => are_fields(reply, wanted),
        None => false,
    }
}

/// Returns whether bytes are a reply, and it is read back.
fn are_read_back(alloc: Global, bytes: &[u8]) -> Result<bool, AllocError> {
    match &read_reply(bytes) {
        Some(reply) => is_read_back(alloc, reply),
        None => Ok(false),
    }
}

/// A reply.
const REPLY: &[u8] =
    b"\x10\x00\x01\x00\x18\x0E\x01\x02\x00\x01\x02\x04\x00\x00\x01\x01\x03\x02\x01\x01";

#[test]
fn a_reply_is_read_back_and_has_no_second_spelling(rt: HostRuntime) -> Result<(), AllocError> {
    assert!(rt; has_fields(REPLY, FIELDS));
    assert!(rt; are_read_back(rt.alloc(), REPLY)?);
    for bytes in [
        b"".as_slice(),
        b"\x10\x00\x01\x07", // 7 is no code
        b"\x10\x00\x01\x00", // accepted, with no flow
        b"\x16\x00\x03\x00\x01", // a reserved byte that is not 0
        b"\x10\x00\x02\x02\x18\x0C\x01\x02\x00\x01\x05\x06\x01\x01\x0F\x02\x01\x03", // another code
        b"\x10\x00\x01\x00\x18\x0E\x02\x04\x00\x00\x01\x01\x01\x02\x00\x01\x03\x02\x01\x01", // SFID first
        b"\x10\x00\x01\x00\x18\x0E\x01\x02\x00\x01\x02\x04\x00\x00\x01\x01\x03\x02\x01\x01\x00", // one more byte
    ] {
        assert!(rt; are_none(bytes));
    }
    Ok(())
}
