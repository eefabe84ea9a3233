//! Parts that are refused.

use slice_scheduler::Elements;

/// Why a part was not put.
#[derive(Clone, Copy, Debug, PartialEq, Eq)]
pub enum GatherFault {
    /// The operator has put its part of this frame, whose MAP is not there yet.
    PutTwice,
    /// There is no such operator.
    Stranger,
    /// It is of another slice than the operator's in that frame, has a SID that is neither 0 nor the operator's, or has more
    /// elements than the operator's quota and one.
    WrongSlice,
    /// Memory ran out before any effect.
    NoMemory,
    /// The MAP of this frame is there already, or the frame is before the first one.
    Old { frame: u32 },
    /// Parts of the operator for earlier frames are missing.
    Early { frame: u32 },
}

/// A part that was not put, handed back.
#[derive(Debug, Drop)]
pub struct Refused {
    pub fault: GatherFault,
    pub elements: Elements,
}
