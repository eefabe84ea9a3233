//! What a MAP says, and what is wrong with one.

ghost use Rattle.std.specs.Prelude.{◌≡◌};
ghost use Rattle.map_assembly.specs.declared.view.MapFault.TheVariants.{NoMemory};

use lists::Listed;
use plant::Backoffs;
use slice_scheduler::Sids;
use std::alloc::{AllocError, AllocFailed};

/// The header of a MAP.
#[derive(Clone, Copy, Debug, PartialEq, Eq)]
pub struct MapHeader {
    /// The upstream channel ID.
    pub channel: u8,
    /// The UCD count.
    pub ucd_count: u8,
    /// How many elements follow: all of them, the Null and those after it too.
    pub elements: u8,
    /// When the frame begins, in minislots.
    pub alloc_start: u32,
    /// Up to when requests are answered, in minislots.
    pub ack_time: u32,
    /// The backoff windows.
    pub backoffs: Backoffs,
}

/// Minislots that a MAP grants to a SID.
#[derive(Clone, Copy, Debug, PartialEq, Eq)]
pub struct MapSpan {
    /// To whom: 0 is nobody.
    pub sid: u16,
    /// For what use: the number of the Interval Usage Code.
    pub iuc: u8,
    /// The first minislot.
    pub start: u16,
    /// How many minislots.
    pub len: u16,
}

/// The spans of a MAP, in order.
pub type MapSpans = Listed<MapSpan>;

/// What the bytes of a MAP say.
#[derive(Debug, Drop)]
pub struct MapView {
    pub header: MapHeader,
    /// Who is granted which minislots: the elements before the Null.
    pub spans: MapSpans,
    /// The SIDs of grants pending: the elements after the Null.
    pub pending: Sids,
}

/// What is wrong with the bytes of a MAP. `at` is the place of an element, from 0.
#[derive(Clone, Copy, Debug, PartialEq, Eq)]
pub enum MapFault {
    /// There are fewer bytes than the 16 of the header.
    Short,
    /// There are not just four bytes for each element that the header counts.
    Count,
    /// The offset of this element is not greater than the one before: an element before the Null, or the Null.
    Backward { at: usize },
    /// No element is the Null.
    NoNull,
    /// This element after the Null is not a grant pending: its IUC is not 5 or 6, or its offset is
    /// not the Null's.
    AfterNull { at: usize },
    /// Memory ran out before any effect.
    NoMemory,
}

impl From<AllocError> for MapFault {
    ghost from_gives = { λ _ fault. fault ≡ NoMemory };

    fn from(_error: AllocError) -> MapFault {
        MapFault::NoMemory
    }
}

impl<T: Drop> From<AllocFailed<T>> for MapFault {
    ghost from_gives = { λ _ fault. fault ≡ NoMemory };

    fn from(_error: AllocFailed<T>) -> MapFault {
        MapFault::NoMemory
    }
}
