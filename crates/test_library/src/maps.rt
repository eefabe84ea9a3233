//! MAPs, read from their bytes.

use map_assembly::{MapFault, MapHeader, MapSpan, MapView, read_map};
use plant::Backoffs;
use std::alloc::Global;
use std::process::Abort;

/// One operator of two has a grant: the header, the head, the grant, an idle span of each operator, the Null.
const ONE_GRANT: [u8; 36] = [
    0x01, 0x01, 0x05, 0x00, 0x00, 0x00, 0x00, 0x00, 0x00, 0x00, 0x00, 0x00, 0x00, 0x00, 0x00, 0x00,
    0xFF, 0xFC, 0x40, 0x00, 0x04, 0x05, 0x80, 0x08, 0x00, 0x01, 0x80, 0x0D, 0x00, 0x01, 0x80, 0x28,
    0x00, 0x01, 0xC0, 0x48,
];

/// The same with its second and third elements changed round.
const TURNED: [u8; 36] = [
    0x01, 0x01, 0x05, 0x00, 0x00, 0x00, 0x00, 0x00, 0x00, 0x00, 0x00, 0x00, 0x00, 0x00, 0x00, 0x00,
    0xFF, 0xFC, 0x40, 0x00, 0x00, 0x01, 0x80, 0x0D, 0x04, 0x05, 0x80, 0x08, 0x00, 0x01, 0x80, 0x28,
    0x00, 0x01, 0xC0, 0x48,
];

/// Two flows of one operator have grants, and one of them waits for more.
const PENDING: [u8; 40] = [
    0x01, 0x01, 0x06, 0x00, 0x00, 0x00, 0x00, 0x00, 0x00, 0x00, 0x00, 0x00, 0x00, 0x00, 0x00, 0x00,
    0xFF, 0xFC, 0x40, 0x00, 0x04, 0x05, 0x80, 0x08, 0x04, 0x09, 0x80, 0x1C, 0x00, 0x01, 0x80, 0x28,
    0x00, 0x01, 0xC0, 0x48, 0x04, 0x09, 0x40, 0x48,
];

/// One grant, and a sixth element that is not at the Null's offset.
const STRAYED: [u8; 40] = [
    0x01, 0x01, 0x06, 0x00, 0x00, 0x00, 0x00, 0x00, 0x00, 0x00, 0x00, 0x00, 0x00, 0x00, 0x00, 0x00,
    0xFF, 0xFC, 0x40, 0x00, 0x04, 0x05, 0x80, 0x08, 0x00, 0x01, 0x80, 0x0D, 0x00, 0x01, 0x80, 0x28,
    0x00, 0x01, 0xC0, 0x48, 0x04, 0x09, 0x40, 0x49,
];

/// Both operators have a grant.
const TWO_GRANTS: [u8; 40] = [
    0x01, 0x01, 0x06, 0x00, 0x00, 0x00, 0x00, 0x00, 0x00, 0x00, 0x00, 0x00, 0x00, 0x00, 0x00, 0x00,
    0xFF, 0xFC, 0x40, 0x00, 0x04, 0x05, 0x80, 0x08, 0x00, 0x01, 0x80, 0x0D, 0x08, 0x05, 0x40, 0x28,
    0x00, 0x01, 0x80, 0x2B, 0x00, 0x01, 0xC0, 0x48,
];

/// A header without an element.
const HEADER: [u8; 16] = [1, 1, 0, 0, 0, 0, 0, 0, 0, 0, 0, 0, 0, 0, 0, 0];

/// A header that counts one element, which is missing.
const NO_ELEMENT: [u8; 16] = [1, 1, 1, 0, 0, 0, 0, 0, 0, 0, 0, 0, 0, 0, 0, 0];

/// A header without its last byte.
const CUT: [u8; 15] = [1, 1, 0, 0, 0, 0, 0, 0, 0, 0, 0, 0, 0, 0, 0];

/// A header that counts four elements, and these: the Null is not among them.
const NO_NULL: [u8; 32] = [
    0x01, 0x01, 0x04, 0x00, 0x00, 0x00, 0x00, 0x00, 0x00, 0x00, 0x00, 0x00, 0x00, 0x00, 0x00, 0x00,
    0xFF, 0xFC, 0x40, 0x00, 0x04, 0x05, 0x80, 0x08, 0x00, 0x01, 0x80, 0x0D, 0x00, 0x01, 0x80, 0x28,
];

/// The first 15 bytes of `ONE_GRANT`, and its first 16: a header that counts five elements, of which none is there.
const ONE_GRANT_15: [u8; 15] = [1, 1, 5, 0, 0, 0, 0, 0, 0, 0, 0, 0, 0, 0, 0];

const ONE_GRANT_16: [u8; 16] = [1, 1, 5, 0, 0, 0, 0, 0, 0, 0, 0, 0, 0, 0, 0, 0];

/// A header with each field of its own, and the Null at 5.
const ALL_FIELDS: [u8; 20] = [
    7, 9, 1, 255, 0xFF, 0xFF, 0xFF, 0x70, 1, 2, 3, 4, 11, 12, 13, 14, 0x00, 0x01, 0xC0, 0x05,
];

/// Spans of a SID, a use, a first minislot and minislots each.
macro_rules! spans {
    ($(($sid:expr, $iuc:expr, $start:expr, $len:expr)),*) => {
        &[$(MapSpan { sid: $sid, iuc: $iuc, start: $start, len: $len }),*]
    };
}

/// What `ONE_GRANT` says.
const ONE_SPANS: &[MapSpan] = spans![
    (0x3FFF, 1, 0, 8),
    (257, 6, 8, 5),
    (0, 6, 13, 27),
    (0, 6, 40, 32)
];

/// What `TWO_GRANTS` says.
const TWO_SPANS: &[MapSpan] = spans![
    (0x3FFF, 1, 0, 8),
    (257, 6, 8, 5),
    (0, 6, 13, 27),
    (513, 5, 40, 3),
    (0, 6, 43, 29)
];

/// What `PENDING` says, of which the second grant waits for more.
const PENDING_SPANS: &[MapSpan] = spans![
    (0x3FFF, 1, 0, 8),
    (257, 6, 8, 20),
    (258, 6, 28, 12),
    (0, 6, 40, 32)
];

/// MAPs, their spans, and the SIDs that wait.
const MAPS: &[(&[u8], &[MapSpan], &[u16])] = &[
    (&ONE_GRANT, ONE_SPANS, &[]),
    (&TWO_GRANTS, TWO_SPANS, &[]),
    (&PENDING, PENDING_SPANS, &[258]),
];

/// Returns whether a MAP says these spans, and who waits.
fn says(alloc: Global, bytes: &[u8], spans: &[MapSpan], pending: &[u16]) -> bool {
    match &read_map(alloc, bytes) {
        Ok(map) => map.spans.as_slice() == spans && map.pending.as_slice() == pending,
        Err(_) => false,
    }
}

/// Returns what the header of `ALL_FIELDS` says.
fn all_fields() -> MapHeader {
    MapHeader {
        channel: 7,
        ucd_count: 9,
        elements: 1,
        alloc_start: 0xFFFF_FF70,
        ack_time: 0x0102_0304,
        backoffs: Backoffs {
            ranging_start: 11,
            ranging_end: 12,
            data_start: 13,
            data_end: 14,
        },
    }
}

/// Returns whether a MAP is such a header alone.
fn is_all_fields(map: &MapView) -> bool {
    map.header == all_fields() && map.spans.as_slice().is_empty()
}

/// Returns whether `ALL_FIELDS` says its fields.
fn all_fields_are_read(alloc: Global) -> bool {
    match &read_map(alloc, &ALL_FIELDS) {
        Ok(map) => is_all_fields(map),
        Err(_) => false,
    }
}

#[test]
fn a_map_says_its_header_its_spans_and_who_waits(rt: HostRuntime) {
    assert!(rt; all_fields_are_read(rt.alloc()));
    for (bytes, spans, pending) in MAPS {
        assert!(rt; says(rt.alloc(), bytes, spans, pending));
    }
}

/// Bytes that are not a MAP, and what is wrong with them.
const FAULTS: &[(&[u8], MapFault)] = &[
    (&CUT, MapFault::Short),
    (&ONE_GRANT_15, MapFault::Short),
    (&ONE_GRANT_16, MapFault::Count),
    (&NO_ELEMENT, MapFault::Count),
    (&HEADER, MapFault::NoNull),
    (&NO_NULL, MapFault::NoNull),
    (&TURNED, MapFault::Backward { at: 2 }),
    (&STRAYED, MapFault::AfterNull { at: 5 }),
];

/// Returns whether this is wrong with the bytes of a MAP.
fn is_wrong_by(alloc: Global, bytes: &[u8], wanted: MapFault) -> bool {
    match &read_map(alloc, bytes) {
        Ok(_) => false,
        Err(fault) => *fault == wanted,
    }
}

#[test]
fn other_bytes_say_what_is_wrong(rt: HostRuntime) {
    for (bytes, wanted) in FAULTS {
        assert!(rt; is_wrong_by(rt.alloc(), bytes, *wanted));
    }
}
