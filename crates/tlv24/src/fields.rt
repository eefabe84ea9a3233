//! What an upstream service flow encoding may say.

use crate::class_name::ClassName;

/// Service Flow Error Encodings (CM-SP-MULPIv3.1, Annex C, subtype 5).
#[derive(Clone, Copy, Debug, PartialEq, Eq)]
pub struct ErrorEncodings {
    /// The invalid subtype (5.1).
    pub errored_parameter: u8,
    /// The confirmation code of the fault (5.2).
    pub code: u8,
}

/// The fields of an upstream service flow encoding (Annex C, type 24), by subtype: each may be
/// absent.
#[derive(Clone, Copy, Debug, PartialEq, Eq)]
pub struct FlowFields {
    /// Service Flow Reference (subtype 1): never 0.
    pub reference: Option<u16>,
    /// Service Flow Identifier (subtype 2): never 0.
    pub sfid: Option<u32>,
    /// Service Identifier (subtype 3): 14 bits.
    pub sid: Option<u16>,
    /// Service Class Name (subtype 4).
    pub class_name: Option<ClassName>,
    /// Service Flow Error Encodings (subtype 5).
    pub errored: Option<ErrorEncodings>,
    /// Quality of Service Parameter Set Type (subtype 6): bits for provisioned, admitted and active.
    pub set_type: Option<u8>,
    /// Traffic Priority (subtype 7): 0 to 7.
    pub traffic_priority: Option<u8>,
    /// Maximum Sustained Traffic Rate (subtype 8), bits a second.
    pub max_sustained_rate: Option<u32>,
    /// Maximum Traffic Burst (subtype 9), bytes.
    pub max_burst: Option<u32>,
    /// Minimum Reserved Traffic Rate (subtype 10), bits a second.
    pub min_reserved_rate: Option<u32>,
    /// Service Flow Scheduling Type (subtype 15).
    pub scheduling_type: Option<u8>,
    /// Request/Transmission Policy (subtype 16).
    pub request_policy: Option<u32>,
    /// Nominal Polling Interval (subtype 17), microseconds.
    pub polling_interval: Option<u32>,
    /// Tolerated Poll Jitter (subtype 18), microseconds.
    pub poll_jitter: Option<u32>,
    /// Unsolicited Grant Size (subtype 19), bytes.
    pub grant_size: Option<u16>,
    /// Nominal Grant Interval (subtype 20), microseconds.
    pub grant_interval: Option<u32>,
    /// Tolerated Grant Jitter (subtype 21), microseconds.
    pub grant_jitter: Option<u32>,
    /// Grants Per Interval (subtype 22).
    pub grants_per_interval: Option<u8>,
}

impl FlowFields {
    /// The encoding in which no field is present.
    pub const NONE: FlowFields = FlowFields {
        reference: None,
        sfid: None,
        sid: None,
        class_name: None,
        errored: None,
        set_type: None,
        traffic_priority: None,
        max_sustained_rate: None,
        max_burst: None,
        min_reserved_rate: None,
        scheduling_type: None,
        request_policy: None,
        polling_interval: None,
        poll_jitter: None,
        grant_size: None,
        grant_interval: None,
        grant_jitter: None,
        grants_per_interval: None,
    };
}
