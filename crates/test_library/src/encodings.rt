//! What the clauses do not say: bytes and their meaning, written by hand from the standard.

use std::alloc::{AllocError, Global};
use std::process::Abort;
use tlv24::{
    ClassName, ErrorEncodings, FlowFault, FlowFields, FlowTlv, TlvFault, read_back, read_flow,
    write_flow,
};

/// An encoding with every known subtype.
const WHOLE: &[u8] = &[
    0x01, 0x02, 0x01, 0x02, // reference
    0x02, 0x04, 0x01, 0x02, 0x03, 0x04, // SFID
    0x03, 0x02, 0x23, 0x45, // SID
    0x04, 0x03, 0x75, 0x70, 0x00, // class name
    0x05, 0x06, 0x01, 0x01, 0x07, 0x02, 0x01, 0x19, // error encodings
    0x06, 0x01, 0x07, // set type
    0x07, 0x01, 0x05, // traffic priority
    0x08, 0x04, 0x00, 0x0F, 0x42, 0x40, // maximum sustained rate
    0x09, 0x04, 0x00, 0x00, 0x0B, 0xE4, // maximum burst
    0x0A, 0x04, 0x00, 0x01, 0xE8, 0x48, // minimum reserved rate
    0x0F, 0x01, 0x06, // scheduling type
    0x10, 0x04, 0x00, 0x00, 0x01, 0x7F, // request policy
    0x11, 0x04, 0x00, 0x00, 0x4E, 0x20, // polling interval
    0x12, 0x04, 0x00, 0x00, 0x07, 0xD0, // poll jitter
    0x13, 0x02, 0x00, 0xE8, // grant size
    0x14, 0x04, 0x00, 0x00, 0x27, 0x10, // grant interval
    0x15, 0x04, 0x00, 0x00, 0x03, 0x20, // grant jitter
    0x16, 0x01, 0x02, // grants per interval
];

/// Returns the fields that the encoding says.
fn whole_fields() -> FlowFields {
    FlowFields {
        reference: Some(258),
        sfid: Some(0x01020304),
        sid: Some(9029),
        class_name: ClassName::new(b"up"),
        errored: Some(ErrorEncodings {
            errored_parameter: 7,
            code: 25,
        }),
        set_type: Some(7),
        traffic_priority: Some(5),
        max_sustained_rate: Some(1000000),
        max_burst: Some(3044),
        min_reserved_rate: Some(125000),
        scheduling_type: Some(6),
        request_policy: Some(383),
        polling_interval: Some(20000),
        poll_jitter: Some(2000),
        grant_size: Some(232),
        grant_interval: Some(10000),
        grant_jitter: Some(800),
        grants_per_interval: Some(2),
    }
}

/// Returns whether an encoding says these fields. A function of its own, as those below: what the
/// calls of it promise is then no part of each test's proof.
fn says(bytes: &[u8], wanted: FlowFields) -> bool {
    match read_flow(bytes) {
        Ok(flow) => flow.get_fields() == wanted,
        Err(_) => false,
    }
}

/// A set type before a SID, which has two bits that are none of it; a subtype that is not known comes twice.
const TURNED: &[u8] = &[
    0x63, 0x01, 0xFF, // not known
    0x06, 0x01, 0x06, // set type
    0x63, 0x01, 0xFF, // not known
    0x03, 0x02, 0xC1, 0x01, // SID
];

/// The same as it is written: fields in ascending order.
const ASCENDING: &[u8] = &[0x03, 0x02, 0x01, 0x01, 0x06, 0x01, 0x06];

/// Returns the fields that both encodings say.
fn turned_fields() -> FlowFields {
    FlowFields {
        sid: Some(257),
        set_type: Some(6),
        ..FlowFields::NONE
    }
}

/// Returns whether a flow is written so.
fn is_written(alloc: Global, flow: &FlowTlv, wanted: &[u8]) -> Result<bool, AllocError> {
    let bytes = write_flow(alloc, flow)?;
    Ok(bytes.as_slice() == wanted)
}

/// Returns whether a flow that is written is read back as it is.
fn is_read_back(alloc: Global, flow: &FlowTlv) -> Result<bool, AllocError> {
    Ok(read_back(alloc, flow)? == *flow)
}

/// Returns whether the flow that bytes say is written so, and read back as it is.
fn are_written(alloc: Global, bytes: &[u8], wanted: &[u8]) -> Result<bool, AllocError> {
    match &read_flow(bytes) {
        Ok(flow) => Ok(is_written(alloc, flow, wanted)? && is_read_back(alloc, flow)?),
        Err(_) => Ok(false),
    }
}

/// A reference and a set type, as they are read and written.
const REFERENCE_AND_SET: &[u8] = &[0x01, 0x02, 0x00, 0x01, 0x06, 0x01, 0x06];

/// Returns the fields of both.
fn reference_and_set() -> FlowFields {
    FlowFields {
        reference: Some(1),
        set_type: Some(6),
        ..FlowFields::NONE
    }
}

/// A SID with its upper two bits set. They do not count, and are written as 0.
const UPPER_SID: &[u8] = &[0x03, 0x02, 0xC1, 0x01];

const LOWER_SID: &[u8] = &[0x03, 0x02, 0x01, 0x01];

/// Returns the fields of both.
fn sid_alone() -> FlowFields {
    FlowFields {
        sid: Some(257),
        ..FlowFields::NONE
    }
}

/// A service class name of one letter.
const ONE_LETTER: &[u8] = &[0x04, 0x02, 0x41, 0x00];

/// Returns the field of the encoding.
fn one_letter() -> FlowFields {
    FlowFields {
        class_name: ClassName::new(b"A"),
        ..FlowFields::NONE
    }
}

/// Invalid encodings, the first fault of each, and the reference before it. None has an SFID.
const FAULTS: &[(&[u8], TlvFault, Option<u16>)] = &[
    (
        &[0x01, 0x02, 0x00, 0x00],
        TlvFault::Range { subtype: 1 },
        None,
    ),
    (
        &[0x04, 0x02, 0x00, 0x41],
        TlvFault::Range { subtype: 4 },
        None,
    ),
    (
        &[0x05, 0x01, 0x00],
        TlvFault::WrongLength { subtype: 5 },
        None,
    ),
    (
        &[0x06, 0x01, 0x06, 0x06, 0x01],
        TlvFault::Cut { at: 3 },
        None,
    ),
    (
        &[0x01, 0x02, 0x00, 0x01, 0x01, 0x02, 0x00, 0x00],
        TlvFault::Twice { subtype: 1 },
        Some(1),
    ),
    (
        &[0x01, 0x02, 0x00, 0x01, 0x01, 0x01, 0x00],
        TlvFault::WrongLength { subtype: 1 },
        Some(1),
    ),
];

/// Returns whether an encoding has this first fault.
fn is_at_fault(bytes: &[u8], fault: TlvFault, reference: Option<u16>) -> bool {
    let wanted = FlowFault {
        fault,
        reference,
        sfid: None,
    };
    match read_flow(bytes) {
        Ok(_) => false,
        Err(fault) => fault == wanted,
    }
}

#[test]
fn an_invalid_encoding_returns_its_first_fault(rt: HostRuntime) {
    for (bytes, fault, reference) in FAULTS {
        assert!(rt; is_at_fault(bytes, *fault, *reference));
    }
}

/// Returns whether each encoding says its fields.
fn all_say() -> bool {
    says(b"", FlowFields::NONE)
        && says(TURNED, turned_fields())
        && says(WHOLE, whole_fields())
        && says(REFERENCE_AND_SET, reference_and_set())
        && says(UPPER_SID, sid_alone())
        && says(ONE_LETTER, one_letter())
}

/// Encodings, and how what they say is written.
const WRITTEN: &[(&[u8], &[u8])] = &[
    (TURNED, ASCENDING),
    (WHOLE, WHOLE),
    (REFERENCE_AND_SET, REFERENCE_AND_SET),
    (UPPER_SID, LOWER_SID),
];

#[test]
fn encodings_are_read_and_written(rt: HostRuntime) -> Result<(), AllocError> {
    assert!(rt; all_say());
    for (bytes, wanted) in WRITTEN {
        assert!(rt; are_written(rt.alloc(), bytes, wanted)?);
    }
    Ok(())
}
