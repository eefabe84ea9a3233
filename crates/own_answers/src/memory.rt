//! Segments in memory, for tests.

ghost use Rattle.std.specs.Prelude.{◌≡◌, ◌++◌, ◌∷◌, [], OnOk};
ghost use Rattle.own_answers.specs.Writing.{byte_lists};

use crate::segments::Segments;
use std::alloc::{AllocError, Global};
use std::io;

/// Holds the bytes of each segment.
#[derive(Drop)]
pub struct MemorySegments {
    pub alloc: Global,
    pub closed: Vec<Vec<u8>>,
    pub current: Vec<u8>,
}

impl MemorySegments {
    /// Returns an empty segment, before which there is none.
    pub fn new(alloc: Global) -> MemorySegments
        ensures closed { result.closed.items ≡ [] }
        ensures current { result.current.items ≡ [] }
    {
        MemorySegments {
            alloc,
            closed: Vec::new(alloc),
            current: Vec::new(alloc),
        }
    }
}

/// Adds a copy of a segment to those that are closed.
#[tactic(auto, using(crate::proofs::SegmentLemmas::closed_more))]
fn close_segment(alloc: Global, closed: &mut Vec<Vec<u8>>, current: &[u8]) -> Result<(), AllocError>
    ensures { OnOk result (byte_lists closed.new.items ≡ byte_lists closed.old.items ++ current.now ∷ []) }
{
    closed.push(current.to_vec(alloc)?)?;
    Ok(())
}

impl Segments for MemorySegments {
    ghost closed = { λ s. byte_lists s.closed.items };

    ghost current = { λ s. s.current.items };

    fn append(&mut self, bytes: &[u8]) -> io::Result<()> {
        self.current.extend_from_slice(bytes)?;
        Ok(())
    }

    fn begin_next(&mut self) -> io::Result<()> {
        close_segment(self.alloc, &mut self.closed, &self.current)?;
        self.current.clear();
        Ok(())
    }
}
