//! Why lines are not taken.

use std::alloc::{AllocError, AllocFailed};

/// Says why no lines are taken.
#[derive(Clone, Copy, Debug, PartialEq, Eq)]
pub enum IntakeFault {
    /// Memory ran out.
    NoMemory,
    /// A queue has no room for the longest line.
    SmallQueue,
    /// An input could not be read. Its reader's caller has the error.
    InputFailed,
    /// The thread of an input could not be made. Nothing was read.
    ThreadRefused,
}

impl From<AllocError> for IntakeFault {
    fn from(_: AllocError) -> Self {
        IntakeFault::NoMemory
    }
}

impl<T: Drop> From<AllocFailed<T>> for IntakeFault {
    fn from(_: AllocFailed<T>) -> Self {
        IntakeFault::NoMemory
    }
}
