//! What all operators of a plant share.

ghost use Rattle.std.specs.Prelude.{◌≡◌, IfOk};
ghost use Rattle.std.specs.Option.{option_copied};
ghost use Rattle.plant.specs.Consts.{AreConsts};
ghost use Rattle.plant.specs.Classes.{class_of, asked_of};
ghost use Rattle.plant.specs.declared.consts.ConstsFields.{ConstsFields};

use crate::class_table::{Classes, find_encoding};
use param_sets::{Units, overridden};
use std::alloc::{AllocError, Global};
use std::marker::Model;
use tlv24::{ClassName, FlowTlv};
use transactions::Timers;

/// The backoff windows of a MAP (CM-SP-MULPIv3.1, 6.4.4), each a power of two by its exponent: 0 to 15.
#[derive(Clone, Copy, Debug, PartialEq, Eq)]
pub struct Backoffs {
    pub ranging_start: u8,
    pub ranging_end: u8,
    pub data_start: u8,
    pub data_end: u8,
}

/// The upstream channel that all operators share: its frames, and what its MAPs have in common.
#[derive(Clone, Copy, Debug, PartialEq, Eq)]
pub struct Channel {
    /// Minislots of a frame: 1 to 4,096.
    pub frame_minislots: u16,
    /// Minislots at the head of each frame in which any modem may ask: 0 to the frame's length.
    pub head: u16,
    /// The upstream channel ID.
    pub id: u8,
    /// The UCD count.
    pub ucd_count: u8,
    /// The backoff windows.
    pub backoffs: Backoffs,
    /// The number of the first frame.
    pub first_frame: u32,
}

/// What all operators of a plant share.
#[derive(Debug, Drop)]
pub struct ConstsFields {
    /// The channel.
    pub channel: Channel,
    /// How long a frame is and how much a minislot carries.
    pub units: Units,
    /// The most minislots of a grant that is sent as short: 0 to 4,096.
    pub short_max: u16,
    /// How long responses are kept, in ticks.
    pub timers: Timers,
    /// The service classes.
    pub classes: Classes,
}

/// What all operators of a plant share, each value in its range. Contracts see the values.
#[derive(Debug, Drop)]
pub struct Consts {
    fields: ConstsFields,
}

impl Model for Consts {
    ghost Value = { ConstsFields };

    ghost view = { λ c. c.fields };

    ghost invariant = { λ c. AreConsts c.fields };
}

impl Consts {
    /// Returns these values. The caller knows that each is in its range.
    pub fn new(fields: ConstsFields) -> Consts
        requires { AreConsts fields }
        ensures { result ≡ fields }
    {
        Consts { fields }
    }

    /// Returns the values that all operators share.
    pub fn get_fields(&self) -> &ConstsFields
        ensures value { result.now ≡ self.now }
        ensures in_range { AreConsts result.now }
    {
        &self.fields
    }

    /// Returns the encoding of the service class of this name, if there is one. Takes no memory.
    pub fn class(&self, name: &ClassName) -> Option<&FlowTlv>
        ensures { option_copied result ≡ class_of name.now self.now.classes }
    {
        find_encoding(self.fields.classes.as_slice(), name)
    }

    /// Returns what an encoding asks for: what it states, over its service class where it names one
    /// (CM-SP-MULPIv3.1, Annex C, subtype 4). None where no class has that name. Takes no memory.
    pub fn requested_encoding(&self, stated: &FlowTlv) -> Option<FlowTlv>
        ensures { result ≡ asked_of self.now.classes stated.now }
    {
        match stated.get_class_name() {
            None => Some(*stated),
            Some(name) => {
                let class = self.class(&name)?;
                Some(overridden(class, stated))
            }
        }
    }

    /// Returns an equal value with memory of its own.
    pub fn copy(&self, alloc: Global) -> Result<Consts, AllocError>
        ensures { IfOk result (λ consts. consts ≡ self.now) }
    {
        Ok(Consts {
            fields: ConstsFields {
                channel: self.fields.channel,
                units: self.fields.units,
                short_max: self.fields.short_max,
                timers: self.fields.timers,
                classes: self.fields.classes.copy(alloc)?,
            },
        })
    }
}
