//! Why a text is not a snapshot.

ghost use Rattle.std.specs.Prelude.{◌≡◌};
ghost use Rattle.snapshot_format.specs.declared.fault.ReadFault.TheVariants.{NoMemory};

use std::alloc::{AllocError, AllocFailed};

/// What is wrong with a line of a snapshot.
#[derive(Clone, Copy, Debug, PartialEq, Eq)]
pub enum Wrong {
    /// The first line does not name this format and version.
    Version,
    /// The text ends where a record is due, or in a field or the plant file.
    Cut,
    /// The line is not the record that is due there, or the text ends within its first word.
    Shape,
    /// A number is out of its range.
    Range,
    /// A parameter set has a value that its kind of scheduling does not keep.
    Parameters,
    /// An active set is not within the admitted one, or that one not within the provisioned one.
    NotWithin,
    /// An identifier is repeated or out of order.
    Repeated,
    /// The last line states another number of lines.
    LineCount,
    /// The last line states another checksum.
    Checksum,
    /// A line follows the last one.
    Surplus,
}

/// Where reading stops, and why.
#[derive(Clone, Copy, Debug, PartialEq, Eq)]
pub(crate) struct ReadStop {
    pub(crate) wrong: Wrong,
    /// How many bytes are left from that place on.
    pub(crate) left: usize,
}

/// Why a reader has no value.
#[derive(Clone, Copy, Debug, PartialEq, Eq)]
pub(crate) enum ReadFault {
    /// Memory ran out.
    NoMemory,
    /// The text is not a snapshot.
    Stopped(ReadStop),
}

impl From<AllocError> for ReadFault {
    ghost from_gives = { λ _ fault. fault ≡ NoMemory };

    fn from(_error: AllocError) -> ReadFault {
        ReadFault::NoMemory
    }
}

impl<T: Drop> From<AllocFailed<T>> for ReadFault {
    ghost from_gives = { λ _ fault. fault ≡ NoMemory };

    fn from(_error: AllocFailed<T>) -> ReadFault {
        ReadFault::NoMemory
    }
}

/// Why a text was not read.
#[derive(Clone, Copy, Debug, PartialEq, Eq)]
pub enum SnapshotFault {
    /// Memory ran out.
    NoMemory,
    /// The line of this number, counted from 1, is invalid.
    Line { number: u64, wrong: Wrong },
}
