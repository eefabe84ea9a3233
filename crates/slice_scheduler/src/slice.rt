//! An operator's slice of a frame.

ghost use Rattle.std.specs.Prelude.{◌≡◌, ◌+◌, ◌≤◌};
ghost use Rattle.slice_scheduler.specs.Minislots.{Minislots, IsSlice, slices_overlap};

use std::marker::Model;

/// The minislots of a frame that are one operator's: `start` to `start + length`, of which there is at least one and none
/// past the 4,096 of a frame. Contracts see both numbers.
#[derive(Clone, Copy, Debug, PartialEq, Eq)]
pub struct Slice {
    start: u16,
    length: u16,
}

impl Model for Slice {
    ghost Value = { Minislots };

    ghost view = { λ s. record { start = s.start; length = s.length } };

    ghost invariant = { λ s. IsSlice (record { start = s.start; length = s.length }) };

    ghost inverse = { λ m. record { start = m.start; length = m.length } };
}

impl Slice {
    /// Returns the slice of `length` minislots (at least 1) from `start` on, within the 4,096 of a
    /// frame.
    pub fn new(start: u16, length: u16) -> Slice
        requires { IsSlice (record { start = start; length = length }) }
        ensures { result ≡ record { start = start; length = length } }
    {
        Slice { start, length }
    }

    /// Returns the first minislot of the slice.
    pub fn get_start(&self) -> u16
        ensures value { result ≡ self.now.start }
        ensures in_range { result + self.now.length ≤ 4096 }
    {
        self.start
    }

    /// Returns how many minislots there are: 1 to 4,096.
    pub fn get_length(&self) -> u16
        ensures value { result ≡ self.now.length }
        ensures some { 1 ≤ result }
        ensures in_range { self.now.start + result ≤ 4096 }
    {
        self.length
    }

    /// Returns whether the slices have a minislot in common.
    pub fn overlaps(&self, other: &Slice) -> bool
        ensures { result ≡ slices_overlap self.now other.now }
    {
        self.start < other.start + other.length && other.start < self.start + self.length
    }
}
