//! Memory that is used again for each MAP.

ghost use Rattle.std.specs.Prelude.{◌≡◌};

use crate::element::MapElement;
use std::alloc::Global;
use std::mem::replace;
use tlv24::Bytes;

/// The memory for the elements and the bytes of the next MAP. What it holds is of an earlier MAP,
/// and is emptied before use.
#[derive(Debug, Drop)]
pub(crate) struct MapMemory {
    pub list: Vec<MapElement>,
    pub bytes: Vec<u8>,
}

impl MapMemory {
    /// Creates memory with empty lists. Takes none.
    pub(crate) fn new(alloc: Global) -> MapMemory {
        MapMemory {
            list: Vec::new(alloc),
            bytes: Vec::new(alloc),
        }
    }

    /// Takes the bytes of a MAP out, without a copy.
    pub(crate) fn take_bytes(&mut self, alloc: Global) -> Bytes
        ensures { result ≡ self.old.bytes.items }
    {
        Bytes::from_vec(replace(&mut self.bytes, Vec::new(alloc)))
    }
}
