//! Why a core is not resumed.

ghost use Rattle.std.specs.Prelude.{◌≡◌};
ghost use Rattle.plant_core.specs.declared.live.resume_fault.ResumeFault.TheVariants as faults;

use plant::Op;
use std::alloc::AllocError;

/// Why operators that are at work are not resumed as one core. Listed in the order in which this is judged: the first two
/// operator by operator, of which the least is named, then the others.
#[derive(Clone, Copy, Debug, PartialEq, Eq)]
pub enum ResumeFault {
    /// The next frame of this operator is another one than the core's.
    NotAtFrame { op: Op },
    /// The slice that waits for this operator starts at another frame than that of the first operator, or waits for one of
    /// the two alone.
    SliceChangesDiffer { op: Op },
    /// The frame is before the plant's first one.
    BeforeFirstFrame,
    /// The slice in force of this operator is outside the frame or overlaps that of an operator before it.
    InvalidSlice { op: Op },
    /// The slice that waits for this operator is outside the frame or overlaps that of an operator before it.
    InvalidNextSlice { op: Op },
    /// An allocation failed.
    NoMemory,
}

impl From<AllocError> for ResumeFault {
    ghost from_gives = { λ _ fault. fault ≡ faults.NoMemory };

    fn from(_error: AllocError) -> ResumeFault {
        ResumeFault::NoMemory
    }
}
