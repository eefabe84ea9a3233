//! A scheduler with the memory of its lists.

use crate::award::Award;
use crate::buckets::Buckets;
use crate::elements::Elements;
use crate::piece::Piece;
use crate::served::Grants;
use crate::span::Span;
use std::alloc::Global;

/// Schedules frames, and uses the memory of its lists again from frame to frame. A list takes memory
/// only where it is longer than those before it. No schedule depends on those before it.
#[derive(Drop)]
pub struct Scheduler {
    /// Grants whose start is not settled.
    pub(crate) pieces: Vec<Piece>,
    /// What flows claim for their backlogs, by rank.
    pub(crate) buckets: Buckets,
    /// What flows are granted for their backlogs, in the order in which they are served.
    pub(crate) awards: Vec<Award>,
    /// The spans that the next schedule returns.
    pub(crate) spans: Vec<Span>,
    /// The SIDs of grants pending that the next schedule returns.
    pub(crate) pending: Vec<u16>,
    /// The grants to backlogs that the next schedule returns.
    pub(crate) granted: Vec<(u32, u16)>,
}

impl Scheduler {
    /// Creates a scheduler with empty lists. Takes no memory.
    pub fn new(alloc: Global) -> Scheduler {
        Scheduler {
            pieces: Vec::new(alloc),
            buckets: Buckets::new(alloc),
            awards: Vec::new(alloc),
            spans: Vec::new(alloc),
            pending: Vec::new(alloc),
            granted: Vec::new(alloc),
        }
    }

    /// Takes the memory of elements back that nobody needs any more, for those of the next schedule.
    pub fn take_back_elements(&mut self, elements: Elements) {
        let fields = elements.into_fields();
        self.spans = fields.spans.into_vec();
        self.pending = fields.pending.into_vec();
    }

    /// Takes the memory of grants back that nobody needs any more, for those of the next schedule.
    pub fn take_back_grants(&mut self, granted: Grants) {
        self.granted = granted.into_vec();
    }
}
