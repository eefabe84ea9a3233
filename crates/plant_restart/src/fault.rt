//! Why a core is not saved, restored or changed.

ghost use Rattle.std.specs.Prelude.{◌≡◌};
ghost use Rattle.plant_restart.specs.declared.fault.SaveFault.TheVariants as save_faults;
ghost use Rattle.plant_restart.specs.declared.fault.RestartFault.TheVariants as restart_faults;

use operator_book::StateFault;
use plant::{Op, OperatorName};
use plant_core::{RestFault, ResumeFault};
use std::alloc::{AllocError, AllocFailed};

/// Why the states of a core are not saved.
#[derive(Clone, Copy, Debug, PartialEq, Eq)]
pub enum SaveFault {
    /// The core does not rest before a frame.
    Unfinished { why: RestFault },
    /// An allocation failed.
    NoMemory,
}

/// Why operators do not start in their states.
#[derive(Clone, Copy, Debug, PartialEq, Eq)]
pub enum RestartFault {
    /// The state under the name of this operator is not one of its row.
    State { op: Op, why: StateFault },
    /// The operators do not go together.
    Core { why: ResumeFault },
    /// An allocation failed.
    NoMemory,
}

/// Why a core is not restored from a snapshot.
#[derive(Clone, Copy, Debug, PartialEq, Eq)]
pub enum RestoreFault {
    /// The plant has no operator with this name, which the snapshot has.
    UnknownOperator { name: OperatorName },
    /// The operators do not start in the states of the snapshot.
    Restart { why: RestartFault },
}

/// Why the plant of a core is not changed.
#[derive(Clone, Copy, Debug, PartialEq, Eq)]
pub enum ChangeFault {
    /// What all operators share is not the same in both plants, classes that are added apart.
    ConstantsDiffer,
    /// The core does not rest before a frame.
    Unfinished { why: RestFault },
    /// The operators do not start in their states under the new plant.
    Restart { why: RestartFault },
}

impl From<AllocError> for SaveFault {
    ghost from_gives = { λ _ fault. fault ≡ save_faults.NoMemory };

    fn from(_error: AllocError) -> SaveFault {
        SaveFault::NoMemory
    }
}

impl From<AllocError> for RestartFault {
    ghost from_gives = { λ _ fault. fault ≡ restart_faults.NoMemory };

    fn from(_error: AllocError) -> RestartFault {
        RestartFault::NoMemory
    }
}

impl<T: Drop> From<AllocFailed<T>> for RestartFault {
    ghost from_gives = { λ _ fault. fault ≡ restart_faults.NoMemory };

    fn from(_error: AllocFailed<T>) -> RestartFault {
        RestartFault::NoMemory
    }
}
