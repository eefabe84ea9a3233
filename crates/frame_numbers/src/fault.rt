//! Why frames are not renumbered.

ghost use Rattle.std.specs.Prelude.{◌≡◌};
ghost use Rattle.frame_numbers.specs.declared.fault.RenumberFault.TheVariants as renumber_faults;

use std::alloc::{AllocError, AllocFailed};

/// Why the frames of a snapshot do not get other numbers.
#[derive(Clone, Copy, Debug, PartialEq, Eq)]
pub enum RenumberFault {
    /// The Alloc Start Time would not go on: the minislots before the frame, modulo 2^32, are others under the new number.
    TimeSteps,
    /// A flow's start or since would be before frame 0.
    TooLow,
    /// The frame from which a slice waits would have no number of 32 bits.
    TooHigh,
    /// An allocation failed.
    NoMemory,
}

impl From<AllocError> for RenumberFault {
    ghost from_gives = { λ _ fault. fault ≡ renumber_faults.NoMemory };

    fn from(_error: AllocError) -> RenumberFault {
        RenumberFault::NoMemory
    }
}
