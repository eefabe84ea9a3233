//! When frames begin.

/// What times of packets rest on.
#[derive(Clone, Copy, Debug, PartialEq, Eq)]
pub struct Clock {
    /// The number of the first frame.
    pub first_frame: u32,
    /// Microseconds in a frame.
    pub frame_us: u32,
}
