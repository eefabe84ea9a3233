//! Memory for the lists of a tick.

use slice_scheduler::{Elements, Flowing, Grants, Scheduler};
use std::alloc::Global;

/// Memory for the lists of a tick, used again from tick to tick, by whichever operator ticks. A list
/// takes memory only where it is longer than those before it.
#[derive(Drop)]
pub struct TickMemory {
    pub(crate) flowing: Vec<Flowing>,
    pub(crate) scheduler: Scheduler,
}

impl TickMemory {
    /// Creates memory with empty lists. Takes none.
    pub fn new(alloc: Global) -> TickMemory {
        TickMemory {
            flowing: Vec::new(alloc),
            scheduler: Scheduler::new(alloc),
        }
    }

    /// Takes the memory of a frame's elements back that nobody needs any more.
    pub fn take_back(&mut self, elements: Elements) {
        self.scheduler.take_back_elements(elements);
    }

    /// Takes the memory of a frame's grants back that nobody needs any more.
    pub(crate) fn take_back_grants(&mut self, granted: Grants) {
        self.scheduler.take_back_grants(granted);
    }
}
