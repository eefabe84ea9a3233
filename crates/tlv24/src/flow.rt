//! An upstream service flow encoding, each field in its range.

ghost use Rattle.std.specs.Prelude.{◌≡◌, ◌<◌, ◌≤◌, IfSome};
ghost use Rattle.tlv24.specs.Range.{AreInRange};
ghost use Rattle.tlv24.specs.declared.fields.FlowFields.{FlowFields};

use crate::class_name::ClassName;
use crate::fields::{ErrorEncodings, FlowFields};
use std::marker::Model;

/// An upstream service flow encoding (CM-SP-MULPIv3.1, Annex C, type 24): one optional field for each known subtype,
/// each in its range. Contracts see its fields.
#[derive(Clone, Copy, Debug, PartialEq, Eq)]
pub struct FlowTlv {
    fields: FlowFields,
}

impl Model for FlowTlv {
    ghost Value = { FlowFields };

    ghost view = { λ f. f.fields };

    ghost invariant = { λ f. AreInRange f.fields };

    ghost inverse = { λ m. record { fields = m } };
}

impl FlowTlv {
    /// Returns the encoding of these fields. The caller knows that each is in its range.
    pub fn new(fields: FlowFields) -> FlowTlv
        requires { AreInRange fields }
        ensures { result ≡ fields }
    {
        FlowTlv { fields }
    }

    /// Returns all eighteen fields of the encoding.
    pub fn get_fields(&self) -> FlowFields
        ensures value { result ≡ self.now }
        ensures in_range { AreInRange result }
    {
        self.fields
    }

    /// Returns the Service Flow Reference (subtype 1): never 0.
    pub fn get_reference(&self) -> Option<u16>
        ensures value { result ≡ self.now.reference }
        ensures in_range { IfSome result (λ n. 0 < n) }
    {
        self.fields.reference
    }

    /// Returns the Service Flow Identifier (subtype 2): never 0.
    pub fn get_sfid(&self) -> Option<u32>
        ensures value { result ≡ self.now.sfid }
        ensures in_range { IfSome result (λ n. 0 < n) }
    {
        self.fields.sfid
    }

    /// Returns the Service Identifier (subtype 3): 14 bits.
    pub fn get_sid(&self) -> Option<u16>
        ensures value { result ≡ self.now.sid }
        ensures in_range { IfSome result (λ n. n < 16384) }
    {
        self.fields.sid
    }

    /// Returns the Service Class Name (subtype 4).
    pub fn get_class_name(&self) -> Option<ClassName>
        ensures value { result ≡ self.now.class_name }
    {
        self.fields.class_name
    }

    /// Returns the Service Flow Error Encodings (subtype 5).
    pub fn get_errored(&self) -> Option<ErrorEncodings>
        ensures value { result ≡ self.now.errored }
    {
        self.fields.errored
    }

    /// Returns the Quality of Service Parameter Set Type (subtype 6): bits for provisioned,
    /// admitted and active.
    pub fn get_set_type(&self) -> Option<u8>
        ensures value { result ≡ self.now.set_type }
    {
        self.fields.set_type
    }

    /// Returns the Traffic Priority (subtype 7): 0 to 7.
    pub fn get_traffic_priority(&self) -> Option<u8>
        ensures value { result ≡ self.now.traffic_priority }
        ensures in_range { IfSome result (λ n. n ≤ 7) }
    {
        self.fields.traffic_priority
    }

    /// Returns the Maximum Sustained Traffic Rate (subtype 8), bits a second.
    pub fn get_max_sustained_rate(&self) -> Option<u32>
        ensures value { result ≡ self.now.max_sustained_rate }
    {
        self.fields.max_sustained_rate
    }

    /// Returns the Maximum Traffic Burst (subtype 9), bytes.
    pub fn get_max_burst(&self) -> Option<u32>
        ensures value { result ≡ self.now.max_burst }
    {
        self.fields.max_burst
    }

    /// Returns the Minimum Reserved Traffic Rate (subtype 10), bits a second.
    pub fn get_min_reserved_rate(&self) -> Option<u32>
        ensures value { result ≡ self.now.min_reserved_rate }
    {
        self.fields.min_reserved_rate
    }

    /// Returns the Service Flow Scheduling Type (subtype 15).
    pub fn get_scheduling_type(&self) -> Option<u8>
        ensures value { result ≡ self.now.scheduling_type }
    {
        self.fields.scheduling_type
    }

    /// Returns the Request/Transmission Policy (subtype 16).
    pub fn get_request_policy(&self) -> Option<u32>
        ensures value { result ≡ self.now.request_policy }
    {
        self.fields.request_policy
    }

    /// Returns the Nominal Polling Interval (subtype 17), microseconds.
    pub fn get_polling_interval(&self) -> Option<u32>
        ensures value { result ≡ self.now.polling_interval }
    {
        self.fields.polling_interval
    }

    /// Returns the Tolerated Poll Jitter (subtype 18), microseconds.
    pub fn get_poll_jitter(&self) -> Option<u32>
        ensures value { result ≡ self.now.poll_jitter }
    {
        self.fields.poll_jitter
    }

    /// Returns the Unsolicited Grant Size (subtype 19), bytes.
    pub fn get_grant_size(&self) -> Option<u16>
        ensures value { result ≡ self.now.grant_size }
    {
        self.fields.grant_size
    }

    /// Returns the Nominal Grant Interval (subtype 20), microseconds.
    pub fn get_grant_interval(&self) -> Option<u32>
        ensures value { result ≡ self.now.grant_interval }
    {
        self.fields.grant_interval
    }

    /// Returns the Tolerated Grant Jitter (subtype 21), microseconds.
    pub fn get_grant_jitter(&self) -> Option<u32>
        ensures value { result ≡ self.now.grant_jitter }
    {
        self.fields.grant_jitter
    }

    /// Returns the Grants Per Interval (subtype 22).
    pub fn get_grants_per_interval(&self) -> Option<u8>
        ensures value { result ≡ self.now.grants_per_interval }
    {
        self.fields.grants_per_interval
    }
}
