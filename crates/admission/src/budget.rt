//! What a flow needs of a frame and of a MAP.

/// Minislots of a frame and elements of a MAP: what may be committed, or is.
#[derive(Clone, Copy, Debug, PartialEq, Eq)]
pub struct Budget {
    /// Minislots of one frame.
    pub minislots: u32,
    /// Elements of one MAP.
    pub elements: u32,
}

impl Budget {
    /// No minislots and no elements.
    pub const NOTHING: Budget = Budget {
        minislots: 0,
        elements: 0,
    };
}
