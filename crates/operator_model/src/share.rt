//! What of each frame is an operator's.

use slice_scheduler::Slice;

/// What of each frame is an operator's.
#[derive(Clone, Copy, Debug, PartialEq, Eq)]
pub struct Share {
    /// Its minislots.
    pub slice: Slice,
    /// How many of them may be committed.
    pub budget: u16,
}

/// A share that waits for its frame.
#[derive(Clone, Copy, Debug, PartialEq, Eq)]
pub struct NextShare {
    /// The first frame of which it is the share.
    pub from: u32,
    pub share: Share,
}
