//! Why a state is not read or kept, and why a line is not done.

ghost use Rattle.std.specs.Prelude.{◌≡◌};
ghost use Rattle.line_journal.specs.declared.device.DeviceError.TheVariants.{Memory, Failed, Full};
ghost use Rattle.line_journal.specs.declared.marks.LineError.TheVariants as line_errors;
ghost use Rattle.state_service.specs.declared.durable.fault.JournalStateFault.TheVariants as faults;
ghost use Rattle.state_service.specs.declared.durable.fault.DurableFault.TheVariants as durable;

use line_journal::{DeviceError, LineError};
use plant_core::RestFault;
use slice_table::PlantFault;
use snapshot_format::Wrong;
use std::alloc::{AllocError, AllocFailed};

/// Why a state is not read or kept (implementation-specific).
#[derive(Debug, Drop)]
pub enum JournalStateFault {
    /// The first line of the journal's snapshot does not say a number of lines.
    InvalidCount,
    /// The lines after it are not a snapshot: the one of this number, counted from 1, is invalid.
    InvalidSnapshot { number: u64, wrong: Wrong },
    /// The plant file in the snapshot is not UTF-8.
    NotText,
    /// The plant file in the snapshot is invalid.
    InvalidPlant { fault: PlantFault },
    /// The core does not rest, so its state is not saved.
    Unfinished { why: RestFault },
    /// The lines of a state are not those of its text.
    NotKept,
    /// A line holds a line feed.
    LineFeed,
    NoMemory,
}

/// Why a line is not done (implementation-specific).
#[derive(Clone, Copy, Debug, PartialEq, Eq)]
pub enum LineFailure {
    /// 2^64 - 1 lines are done already.
    TooManyLines,
    NoMemory,
}

/// Why a service does not go on from a journal (implementation-specific).
#[derive(Debug, Drop)]
pub enum DurableFault {
    /// The file is not a journal.
    NoJournal,
    /// The state is not read or kept.
    State { fault: JournalStateFault },
    /// A line is not done.
    Line { failure: LineFailure },
    /// The disk failed.
    Disk,
    /// The file has as many bytes as a journal may have.
    Full,
}

impl From<AllocError> for JournalStateFault {
    ghost from_gives = { λ _ e. e ≡ faults.NoMemory };

    fn from(_: AllocError) -> Self {
        JournalStateFault::NoMemory
    }
}

impl<T: Drop> From<AllocFailed<T>> for JournalStateFault {
    ghost from_gives = { λ _ e. e ≡ faults.NoMemory };

    fn from(_: AllocFailed<T>) -> Self {
        JournalStateFault::NoMemory
    }
}

impl From<LineError> for JournalStateFault {
    ghost from_gives = { λ error e. (error ≡ line_errors.Memory → e ≡ faults.NoMemory) × (error ≡ line_errors.LineFeed → e ≡ faults.LineFeed) };

    fn from(error: LineError) -> Self {
        match error {
            LineError::Memory => JournalStateFault::NoMemory,
            LineError::LineFeed => JournalStateFault::LineFeed,
        }
    }
}

impl From<JournalStateFault> for DurableFault {
    ghost from_gives = { λ fault e. e ≡ durable.State fault };

    fn from(fault: JournalStateFault) -> Self {
        DurableFault::State { fault }
    }
}

impl From<DeviceError> for DurableFault {
    ghost from_gives = { λ error e. (e ≡ durable.Disk → error ≡ Failed) × (e ≡ durable.NoJournal → ⊥)
        × (error ≡ Memory → e ≡ durable.State faults.NoMemory) × (error ≡ Failed → e ≡ durable.Disk) × (error ≡ Full → e ≡ durable.Full) };

    fn from(error: DeviceError) -> Self {
        match error {
            DeviceError::Memory => DurableFault::State {
                fault: JournalStateFault::NoMemory,
            },
            DeviceError::Failed => DurableFault::Disk,
            DeviceError::Full => DurableFault::Full,
        }
    }
}

impl From<AllocError> for DurableFault {
    ghost from_gives = { λ _ e. e ≡ durable.State faults.NoMemory };

    fn from(_: AllocError) -> Self {
        DurableFault::State {
            fault: JournalStateFault::NoMemory,
        }
    }
}

impl<T: Drop> From<AllocFailed<T>> for DurableFault {
    ghost from_gives = { λ _ e. e ≡ durable.State faults.NoMemory };

    fn from(_: AllocFailed<T>) -> Self {
        DurableFault::State {
            fault: JournalStateFault::NoMemory,
        }
    }
}

impl From<LineFailure> for DurableFault {
    ghost from_gives = { λ failure e. e ≡ durable.Line failure };

    fn from(failure: LineFailure) -> Self {
        DurableFault::Line { failure }
    }
}
