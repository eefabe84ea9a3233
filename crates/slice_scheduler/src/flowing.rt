//! What is scheduled, and for when.

ghost use Rattle.std.specs.Prelude.{◌≡◌, ◌+◌, ◌≤◌};
ghost use Rattle.slice_scheduler.specs.declared.flowing.AtFields.{AtFields};

use crate::slice::Slice;
use param_sets::{ParamSet, Units};
use std::marker::Model;

/// A flow with an active parameter set.
#[derive(Clone, Copy, Debug, PartialEq, Eq)]
pub struct Flowing {
    /// The service flow identifier.
    pub sfid: u32,
    /// The service identifier that its grants name.
    pub sid: u16,
    /// The active parameter set.
    pub set: ParamSet,
    /// The frame from which its intervals count.
    pub start: u32,
    /// The minislots asked for and not yet granted.
    pub backlog: u16,
    /// The frame since which the backlog waits.
    pub since: u32,
}

/// What a frame is scheduled by.
#[derive(Clone, Copy, Debug, PartialEq, Eq)]
pub struct AtFields {
    /// The minislots that may be granted.
    pub slice: Slice,
    /// The number of the frame.
    pub frame: u32,
    /// The most minislots of a grant that is sent as `Iuc::Short`.
    pub short_max: u16,
    /// The measures of the channel.
    pub units: Units,
}

/// The frame that is scheduled. Its slice ends within the 4,096 minislots of a frame, by the type `Slice`. Contracts see the
/// four fields.
#[derive(Clone, Copy, Debug, PartialEq, Eq)]
pub struct At {
    fields: AtFields,
}

impl Model for At {
    ghost Value = { AtFields };

    ghost view = { λ a. a.fields };

    ghost inverse = { λ fields. record { fields = fields } };
}

impl At {
    /// Makes the frame of these fields.
    pub fn new(fields: AtFields) -> At
        ensures { result ≡ fields }
    {
        At { fields }
    }

    /// Returns the minislots that may be granted.
    pub fn get_slice(&self) -> Slice
        ensures value { result ≡ self.now.slice }
        ensures in_range { self.now.slice.start + self.now.slice.length ≤ 4096 }
    {
        let slice = self.fields.slice;
        // For the proof: what the type of `slice.get_length()` keeps.
        let _length = slice.get_length();
        slice
    }

    /// Returns the number of the frame.
    pub fn get_frame(&self) -> u32
        ensures { result ≡ self.now.frame }
    {
        self.fields.frame
    }

    /// Returns the most minislots of a grant that is sent as `Iuc::Short`.
    pub fn get_short_max(&self) -> u16
        ensures { result ≡ self.now.short_max }
    {
        self.fields.short_max
    }

    /// Returns the measures of the channel.
    pub fn get_units(&self) -> Units
        ensures { result ≡ self.now.units }
    {
        self.fields.units
    }
}
