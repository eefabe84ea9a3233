//! The measures of an upstream channel.

ghost use Rattle.std.specs.Prelude.{◌≡◌, ◌<◌, ◌≤◌, ◌^◌};
ghost use Rattle.param_sets.specs.Units.{UnitSizes, AreUnits, frames_in_interval, minislots_of, reserve_of};

use std::marker::Model;

/// How many bits a second fill one byte in each microsecond.
const BITS_PER_BYTE_A_MICROSECOND: u64 = 8_000_000;

/// How long a frame is and how much a minislot carries. Contracts see both sizes.
#[derive(Clone, Copy, Debug, PartialEq, Eq)]
pub struct Units {
    frame_us: u32,
    bytes_per_minislot: u32,
}

impl Model for Units {
    ghost Value = { UnitSizes };

    ghost view = { λ u. record { frame_us = u.frame_us; bytes_per_minislot = u.bytes_per_minislot } };

    ghost invariant = { λ u. AreUnits (record { frame_us = u.frame_us; bytes_per_minislot = u.bytes_per_minislot }) };

    ghost inverse = { λ sizes. record { frame_us = sizes.frame_us; bytes_per_minislot = sizes.bytes_per_minislot } };
}

impl Units {
    /// Returns frames of `frame_us` microseconds (1 to 1,000,000) and minislots of
    /// `bytes_per_minislot` bytes (1 to 65,535).
    pub fn new(frame_us: u32, bytes_per_minislot: u32) -> Units
        requires { AreUnits (record { frame_us = frame_us; bytes_per_minislot = bytes_per_minislot }) }
        ensures { result ≡ record { frame_us = frame_us; bytes_per_minislot = bytes_per_minislot } }
    {
        Units {
            frame_us,
            bytes_per_minislot,
        }
    }

    /// Microseconds in a frame: 1 to 1,000,000.
    pub fn get_frame_us(&self) -> u32
        ensures value { result ≡ self.now.frame_us }
        ensures some { 1 ≤ result }
        ensures most { result ≤ 1000000 }
    {
        self.frame_us
    }

    /// Returns the bytes in a minislot: 1 to 65,535.
    pub fn get_bytes_per_minislot(&self) -> u32
        ensures value { result ≡ self.now.bytes_per_minislot }
        ensures some { 1 ≤ result }
        ensures most { result ≤ 65535 }
    {
        self.bytes_per_minislot
    }

    /// Returns how many whole frames there are in an interval of so many microseconds.
    pub fn frames(&self, microseconds: u32) -> u32
        ensures { result ≡ frames_in_interval microseconds self.now }
    {
        microseconds / self.frame_us
    }

    /// Returns how many minislots carry so many bytes.
    pub fn minislots(&self, bytes: u32) -> u32
        ensures value { result ≡ minislots_of bytes self.now }
        ensures most { result ≤ bytes }
    {
        bytes.div_ceil(self.bytes_per_minislot)
    }

    /// Returns how many minislots of each frame carry so many bits a second.
    pub fn reserve(&self, rate: u32) -> u32
        ensures value { result ≡ reserve_of rate self.now }
        ensures most { result ≤ 2 ^ 29 }
    {
        let bits = u64::from(rate) * u64::from(self.frame_us);
        let minislot = BITS_PER_BYTE_A_MICROSECOND * u64::from(self.bytes_per_minislot);
        bits.div_ceil(minislot) as u32
    }
}
