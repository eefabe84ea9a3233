//! Parameter sets.

ghost use Rattle.std.specs.Prelude.{◌≡◌, ◌≤◌};
ghost use Rattle.param_sets.specs.ParamSet.{IsParameterSet};
ghost use Rattle.param_sets.specs.declared.param_set.ParamFields.{ParamFields};

use crate::scheduling::Scheduling;
use std::marker::Model;

/// The parameters of a service flow (CM-SP-MULPIv3.1, Annex C.2.2.5 to C.2.2.8). One that its kind of scheduling does not
/// keep is 0.
#[derive(Clone, Copy, Debug, PartialEq, Eq)]
pub struct ParamFields {
    /// The kind of scheduling (subtype 15).
    pub scheduling: Scheduling,
    /// Traffic Priority (subtype 7): 0 to 7.
    pub priority: u8,
    /// Maximum Sustained Traffic Rate (subtype 8), bits a second: 0 means no limit.
    pub max_sustained_rate: u32,
    /// Maximum Traffic Burst (subtype 9), bytes.
    pub max_burst: u32,
    /// Minimum Reserved Traffic Rate (subtype 10), bits a second.
    pub min_reserved_rate: u32,
    /// Request/Transmission Policy (subtype 16).
    pub request_policy: u32,
    /// Nominal Polling Interval (subtype 17), microseconds.
    pub polling_interval: u32,
    /// Tolerated Poll Jitter (subtype 18), microseconds.
    pub poll_jitter: u32,
    /// Unsolicited Grant Size (subtype 19), bytes.
    pub grant_size: u16,
    /// Nominal Grant Interval (subtype 20), microseconds.
    pub grant_interval: u32,
    /// Tolerated Grant Jitter (subtype 21), microseconds.
    pub grant_jitter: u32,
    /// Grants Per Interval (subtype 22): 1 to 127 where the kind keeps it.
    pub grants_per_interval: u8,
}

/// A parameter set: what its kind of scheduling keeps is in range, and all else is 0. Contracts see its parameters.
#[derive(Clone, Copy, Debug, PartialEq, Eq)]
pub struct ParamSet {
    fields: ParamFields,
}

impl Model for ParamSet {
    ghost Value = { ParamFields };

    ghost view = { λ p. p.fields };

    ghost invariant = { λ p. IsParameterSet p.fields };

    ghost inverse = { λ m. record { fields = m } };
}

impl ParamSet {
    /// Returns the set of these parameters. The caller knows that they are one.
    pub fn new(fields: ParamFields) -> ParamSet
        requires { IsParameterSet fields }
        ensures { result ≡ fields }
    {
        ParamSet { fields }
    }

    /// Returns all parameters of the set.
    pub fn get_fields(&self) -> ParamFields
        ensures value { result ≡ self.now }
        ensures valid { IsParameterSet result }
    {
        self.fields
    }

    /// Returns the kind of scheduling (subtype 15).
    pub fn get_scheduling(&self) -> Scheduling
        ensures value { result ≡ self.now.scheduling }
    {
        self.fields.scheduling
    }

    /// Returns the Traffic Priority (subtype 7): 0 to 7.
    pub fn get_priority(&self) -> u8
        ensures value { result ≡ self.now.priority }
        ensures in_range { result ≤ 7 }
    {
        self.fields.priority
    }

    /// Returns the Maximum Sustained Traffic Rate (subtype 8), bits a second: 0 means no limit.
    pub fn get_max_sustained_rate(&self) -> u32
        ensures value { result ≡ self.now.max_sustained_rate }
    {
        self.fields.max_sustained_rate
    }

    /// Returns the Maximum Traffic Burst (subtype 9), bytes.
    pub fn get_max_burst(&self) -> u32
        ensures value { result ≡ self.now.max_burst }
    {
        self.fields.max_burst
    }

    /// Returns the Minimum Reserved Traffic Rate (subtype 10), bits a second.
    pub fn get_min_reserved_rate(&self) -> u32
        ensures value { result ≡ self.now.min_reserved_rate }
    {
        self.fields.min_reserved_rate
    }

    /// Returns the Request/Transmission Policy (subtype 16).
    pub fn get_request_policy(&self) -> u32
        ensures value { result ≡ self.now.request_policy }
    {
        self.fields.request_policy
    }

    /// Returns the Nominal Polling Interval (subtype 17), microseconds.
    pub fn get_polling_interval(&self) -> u32
        ensures value { result ≡ self.now.polling_interval }
    {
        self.fields.polling_interval
    }

    /// Returns the Tolerated Poll Jitter (subtype 18), microseconds.
    pub fn get_poll_jitter(&self) -> u32
        ensures value { result ≡ self.now.poll_jitter }
    {
        self.fields.poll_jitter
    }

    /// Returns the Unsolicited Grant Size (subtype 19), bytes.
    pub fn get_grant_size(&self) -> u16
        ensures value { result ≡ self.now.grant_size }
    {
        self.fields.grant_size
    }

    /// Returns the Nominal Grant Interval (subtype 20), microseconds.
    pub fn get_grant_interval(&self) -> u32
        ensures value { result ≡ self.now.grant_interval }
    {
        self.fields.grant_interval
    }

    /// Returns the Tolerated Grant Jitter (subtype 21), microseconds.
    pub fn get_grant_jitter(&self) -> u32
        ensures value { result ≡ self.now.grant_jitter }
    {
        self.fields.grant_jitter
    }

    /// Returns the Grants Per Interval (subtype 22): at most 127.
    pub fn get_grants_per_interval(&self) -> u8
        ensures value { result ≡ self.now.grants_per_interval }
        ensures in_range { result ≤ 127 }
    {
        self.fields.grants_per_interval
    }
}
