//! A snapshot that is typed by hand, and texts that are refused.

use dsx_messages::{Kind, Modem};
use flow_table::Flow;
use operator_model::{Arrival, Heard};
use param_sets::{ParamFields, ParamSet, Scheduling};
use snapshot_format::{
    SavedFlow, SavedOperator, Snapshot, SnapshotFault, Wrong, read_snapshot, write_snapshot,
};
use std::alloc::Global;
use std::test::Fail;
use transactions::{KeptEntry, ResponseState};

/// A snapshot of two operators.
const SNAPSHOT: &str = "melfjits-snapshot 1 21\n\
[plant]\n\
ack_wait = 2\n\
---\n\
frame 17 2\n\
operator Alfa 2 2 2\n\
slice 0 72 24\n\
next =20 0 36 12\n\
flow 3 020000000001 =5 =2,1,64000,3044,0,0,0,0,0,0,0,0 =2,1,64000,3044,0,0,0,0,0,0,0,0 - - 9 0 9\n\
flow 8 020000000002 =6 - - - =1 - =6,0,0,0,0,0,0,0,64,20000,800,1 - 12 30 15\n\
response 020000000002 258 dsa 8 waiting 3 1 10010200\n\
response 020000000001 7 dsd 2 held 40 0 -\n\
message 020000000001 15020700000000000003\n\
message 020000000001 -\n\
operator B 0 0 1\n\
slice 72 36 0\n\
next -\n\
request 0A0B0C0D0E0F 16383 65535\n\
end 18 3745741436\n";

/// What is wrong with each text, the text, and the line at which it is refused for what.
const REFUSED: &[(&str, &str, u64, Wrong)] = &[
    (
        "a foreign version",
        "melfjits-snapshot 2 0\n---\nframe 7 0\nend 3 0\n",
        1,
        Wrong::Version,
    ),
    (
        "a plant file that is cut",
        "melfjits-snapshot 1 90\n[plant]\n",
        2,
        Wrong::Cut,
    ),
    (
        "no line of dashes",
        "melfjits-snapshot 1 0\nframe 7 0\n",
        2,
        Wrong::Shape,
    ),
    (
        "a text cut after a line",
        "melfjits-snapshot 1 0\n---\n",
        3,
        Wrong::Cut,
    ),
    (
        "a text cut in a number",
        "melfjits-snapshot 1 0\n---\nframe 7",
        3,
        Wrong::Cut,
    ),
    (
        "a frame number of 33 bits",
        "melfjits-snapshot 1 0\n---\nframe 4294967296 0\n",
        3,
        Wrong::Range,
    ),
    (
        "a record that is not due",
        "melfjits-snapshot 1 0\n---\nframe 7 1\nslice 0 8 8\n",
        4,
        Wrong::Shape,
    ),
    (
        "a slice past the frame",
        "melfjits-snapshot 1 0\n---\nframe 7 1\noperator A 0 0 0\nslice 4096 1 0\n",
        5,
        Wrong::Range,
    ),
    (
        "a set that its kind does not keep",
        "melfjits-snapshot 1 0\n---\nframe 7 1\noperator A 1 0 0\nslice 0 8 8\nnext -\nflow 3 020000000001 - =2,0,0,0,0,0,0,0,1,0,0,0 - - - 0 0 0\n",
        7,
        Wrong::Parameters,
    ),
    (
        "an active set without an admitted one",
        "melfjits-snapshot 1 0\n---\nframe 7 1\noperator A 1 0 0\nslice 0 8 8\nnext -\nflow 3 020000000001 - - - =2,1,0,0,0,0,0,0,0,0,0,0 - 0 0 0\n",
        7,
        Wrong::NotWithin,
    ),
    (
        "an admitted set above the provisioned one",
        "melfjits-snapshot 1 0\n---\nframe 7 1\noperator A 1 0 0\nslice 0 8 8\nnext -\nflow 3 020000000001 - =2,1,0,0,0,0,0,0,0,0,0,0 =2,2,0,0,0,0,0,0,0,0,0,0 - - 0 0 0\n",
        7,
        Wrong::NotWithin,
    ),
    (
        "a doubled flow",
        "melfjits-snapshot 1 0\n---\nframe 7 1\noperator A 2 0 0\nslice 0 8 8\nnext -\nflow 3 020000000001 - - - - - 0 0 0\nflow 3 020000000001 - - - - - 0 0 0\n",
        8,
        Wrong::Repeated,
    ),
    (
        "swapped flows",
        "melfjits-snapshot 1 0\n---\nframe 7 1\noperator A 2 0 0\nslice 0 8 8\nnext -\nflow 4 020000000001 - - - - - 0 0 0\nflow 3 020000000001 - - - - - 0 0 0\n",
        8,
        Wrong::Repeated,
    ),
    (
        "a doubled response",
        "melfjits-snapshot 1 0\n---\nframe 7 1\noperator A 0 2 0\nslice 0 8 8\nnext -\nresponse 020000000001 9 dsd 3 held 4 0 -\nresponse 020000000001 9 dsd 3 held 4 0 -\n",
        8,
        Wrong::Repeated,
    ),
    (
        "a response that is held and resent",
        "melfjits-snapshot 1 0\n---\nframe 7 1\noperator A 0 1 0\nslice 0 8 8\nnext -\nresponse 020000000001 9 dsd 3 held 4 1 -\n",
        7,
        Wrong::Range,
    ),
    (
        "a doubled operator",
        "melfjits-snapshot 1 0\n---\nframe 7 2\noperator A 0 0 0\nslice 0 8 8\nnext -\noperator A 0 0 0\nslice 0 8 8\nnext -\n",
        7,
        Wrong::Repeated,
    ),
    (
        "swapped lines",
        "melfjits-snapshot 1 0\n---\nframe 7 1\noperator A 0 0 0\nnext -\nslice 0 8 8\n",
        5,
        Wrong::Shape,
    ),
    (
        "another number of lines",
        "melfjits-snapshot 1 0\n---\nframe 7 0\nend 4 0\n",
        4,
        Wrong::LineCount,
    ),
    (
        "a spoilt digit",
        "melfjits-snapshot 1 0\n---\nframe 8 0\nend 3 3899853556\n",
        4,
        Wrong::Checksum,
    ),
    (
        "a line too many",
        "melfjits-snapshot 1 0\n---\nframe 7 0\nend 3 3899853556\nend 3 0\n",
        5,
        Wrong::Surplus,
    ),
];

/// Returns the snapshot that a text says.
fn read(alloc: Global, text: &str) -> Result<Snapshot, SnapshotFault> {
    read_snapshot(alloc, text.as_bytes())
}

/// Returns whether a text is refused at a line for this.
fn is_refused(alloc: Global, text: &str, number: u64, wrong: Wrong) -> bool {
    match read(alloc, text) {
        Ok(_saved) => false,
        Err(fault) => fault == SnapshotFault::Line { number, wrong },
    }
}

/// Returns what is wrong with the first text that is not refused as it must be.
fn first_not_refused(alloc: Global) -> Option<&'static str> {
    for (name, text, number, wrong) in REFUSED {
        if !is_refused(alloc, text, *number, *wrong) {
            return Some(*name);
        }
    }
    None
}

/// The parameter set of the first flow.
const SET: ParamFields = ParamFields {
    scheduling: Scheduling::BestEffort,
    priority: 1,
    max_sustained_rate: 64_000,
    max_burst: 3044,
    min_reserved_rate: 0,
    request_policy: 0,
    polling_interval: 0,
    poll_jitter: 0,
    grant_size: 0,
    grant_interval: 0,
    grant_jitter: 0,
    grants_per_interval: 0,
};

/// Returns whether the sets of the first flow are as they are typed.
fn has_sets(flow: &Flow) -> bool {
    let set = Some(ParamSet::new(SET));
    flow.sets.get_provisioned() == set
        && flow.sets.get_admitted() == set
        && flow.sets.get_active().is_none()
        && flow.pending.is_none()
}

/// Returns whether a saved flow is the first one that is typed.
fn is_first_flow(read: &SavedFlow) -> bool {
    let flow = &read.flow;
    read.sfid == 3
        && flow.modem == Modem([2, 0, 0, 0, 0, 1])
        && flow.sid == Some(5)
        && (flow.start, flow.backlog, flow.since) == (9, 0, 9)
        && has_sets(flow)
}

/// Returns whether a saved flow is the second one that is typed.
fn is_second_flow(read: &SavedFlow) -> bool {
    let flow = &read.flow;
    (read.sfid, flow.backlog, flow.since) == (8, 30, 15)
        && matches!(flow.pending, Some(pending) if pending.sid_is_new)
}

/// Returns whether a cached response is the typed one that waits.
fn is_waiting_response(read: &KeptEntry) -> bool {
    read.kind == Kind::Dsa
        && (read.tid, read.sfid, read.ticks_left) == (258, 8, 3)
        && read.reply.as_slice() == [0x10, 1, 2, 0].as_slice()
}

/// Returns whether a cached response is the typed one that is held.
fn is_held_response(read: &KeptEntry) -> bool {
    read.standing == ResponseState::Held && (read.ticks_left, read.resends_left) == (40, 0)
}

/// Returns whether what was received is a message of so many bytes.
fn has_length(read: &Arrival, length: usize) -> bool {
    matches!(&read.heard, Heard::Message(bytes) if bytes.len() == length)
}

/// Returns whether an operator has this slice and budget, and a slice change from this frame on.
fn has_share(read: &SavedOperator, share: (u16, u16, u16), from: Option<u32>) -> bool {
    let slice = &read.share.slice;
    (slice.get_start(), slice.get_length(), read.share.budget) == share
        && read.next.map(|next| next.from) == from
}

/// Returns which records of the first operator are not as they are typed.
fn wrong_in_first(read: &SavedOperator) -> Option<&'static str> {
    if read.name.as_slice() != b"Alfa".as_slice() || !has_share(read, (0, 72, 24), Some(20)) {
        return Some("the first operator");
    }
    match read.flows.as_slice() {
        [first, second] if is_first_flow(first) && is_second_flow(second) => {}
        _ => return Some("the flows"),
    }
    match read.kept.as_slice() {
        [waiting, held] if is_waiting_response(waiting) && is_held_response(held) => {}
        _ => return Some("the responses"),
    }
    match read.inbox.as_slice() {
        [message, empty] if has_length(message, 10) && has_length(empty, 0) => None,
        _ => Some("the messages"),
    }
}

/// Returns which records of the second operator are not as they are typed.
fn wrong_in_second(read: &SavedOperator) -> Option<&'static str> {
    if read.name.as_slice() == b"B".as_slice() && read.next.is_none() && read.inbox.len() == 1 {
        None
    } else {
        Some("the second operator")
    }
}

/// Returns which records were not read as they are typed.
fn first_wrong(read: &Snapshot) -> Option<&'static str> {
    if read.plant.as_slice() != b"[plant]\nack_wait = 2\n".as_slice() || read.frame != 17 {
        return Some("the plant file or the frame");
    }
    match read.operators.as_slice() {
        [first, second] => wrong_in_first(first).or(wrong_in_second(second)),
        _ => Some("the number of operators"),
    }
}

/// Returns whether a snapshot is written as the typed text.
fn is_written(alloc: Global, saved: &Snapshot) -> Result<bool, Fail> {
    let mut written = Vec::new(alloc);
    write_snapshot(alloc, &mut written, saved)?;
    Ok(written.as_slice() == SNAPSHOT.as_bytes())
}

/// The typed text says the typed values and is written of them, and each spoilt text is refused at
/// its line.
#[test]
fn snapshots(rt: HostRuntime) -> Result<(), Fail> {
    let saved = read(rt.alloc(), SNAPSHOT)?;
    assert_eq!(rt; first_wrong(&saved), None);
    assert!(rt; is_written(rt.alloc(), &saved)?);
    assert_eq!(rt; first_not_refused(rt.alloc()), None);
    Ok(())
}
