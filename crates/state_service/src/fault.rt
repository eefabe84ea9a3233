//! Why a service with a journal does not begin, or ends before its input does.

ghost use Rattle.std.specs.Prelude.{◌≡◌};
ghost use Rattle.state_service.specs.declared.durable.fault.DurableFault.TheVariants as durable;
ghost use Rattle.state_service.specs.declared.fault.StateServiceFault.TheVariants as faults;

use crate::durable::{DurableFault, JournalStateFault, LineFailure};
use plant_restart::{ChangeFault, RefusedState, RestoreFault};
use slice_table::PlantFault;
use std::alloc::{AllocError, AllocFailed};
use std::io;

/// Why a service with a journal does not begin, or ends before its input does (implementation-specific).
#[derive(Debug, Drop)]
pub enum StateServiceFault {
    /// The plant file of the input is not UTF-8.
    NotText,
    /// The plant file of the input is invalid.
    InvalidPlant {
        fault: PlantFault,
    },
    /// The journal is not read or written, or a line is not done.
    Journal {
        fault: DurableFault,
    },
    /// The saved states do not fit the plant file that is saved with them.
    NotRestored {
        why: RestoreFault,
    },
    /// The plant of the journal is not changed to that of the input's plant file. All faults that the states of the operators have
    /// under their new rows are listed.
    NotChanged {
        why: ChangeFault,
        refused: Vec<RefusedState>,
    },
    /// A read of the input or a write of the output failed.
    Stream {
        error: io::Error,
    },
    NoMemory,
}

impl From<AllocError> for StateServiceFault {
    ghost from_gives = { λ _ fault. fault ≡ faults.NoMemory };

    fn from(_: AllocError) -> Self {
        StateServiceFault::NoMemory
    }
}

impl<T: Drop> From<AllocFailed<T>> for StateServiceFault {
    ghost from_gives = { λ _ fault. fault ≡ faults.NoMemory };

    fn from(_: AllocFailed<T>) -> Self {
        StateServiceFault::NoMemory
    }
}

impl From<io::Error> for StateServiceFault {
    ghost from_gives = { λ error fault. fault ≡ faults.Stream error };

    fn from(error: io::Error) -> Self {
        StateServiceFault::Stream { error }
    }
}

impl From<DurableFault> for StateServiceFault {
    ghost from_gives = { λ cause fault. fault ≡ faults.Journal cause };

    fn from(fault: DurableFault) -> Self {
        StateServiceFault::Journal { fault }
    }
}

impl From<JournalStateFault> for StateServiceFault {
    ghost from_gives = { λ cause fault. fault ≡ faults.Journal (durable.State cause) };

    fn from(fault: JournalStateFault) -> Self {
        StateServiceFault::Journal {
            fault: DurableFault::State { fault },
        }
    }
}

impl From<LineFailure> for StateServiceFault {
    ghost from_gives = { λ failure fault. fault ≡ faults.Journal (durable.Line failure) };

    fn from(failure: LineFailure) -> Self {
        StateServiceFault::Journal {
            fault: DurableFault::Line { failure },
        }
    }
}
