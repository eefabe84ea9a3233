//! Why a run was not settled.

ghost use Rattle.std.specs.Prelude.{◌≡◌};
ghost use Rattle.plant_workers.specs.declared.receipts.run_fault.RunFault.TheVariants.{NoMemory};

use crate::receipts::fault_text::{CoreText, ResliceText};
use plant::Op;
use plant_core::{CoreFault, ResliceFault};
use std::alloc::{AllocError, AllocFailed};
use thiserror::Error;

/// Why a run is not settled.
#[derive(Clone, Copy, Debug, PartialEq, Eq, Error)]
pub enum RunFault {
    /// A receipt differs from the entry at its index, or its index is not greater than that of its caller's receipt
    /// before.
    #[error("what a caller of operator {op} was told of action {index} is not what its history says")]
    Strayed { op: Op, index: usize },
    /// An entry of the operator's history has no receipt, or two.
    #[error("an action in the history of operator {op} was not told to exactly one caller")]
    Short { op: Op },
    /// A step was refused.
    #[error("a step was refused: {}", CoreText(*.0))]
    Core(CoreFault),
    /// Memory ran out before any effect.
    #[error("out of memory")]
    NoMemory,
    /// The MAP of this frame does not give every operator its own frame.
    #[error("the MAP of frame {frame} does not give every operator what that operator's own frame says")]
    MapStrayed { frame: u32 },
    /// New slices were refused, at the step of this place.
    #[error("step {at} was refused: {}", ResliceText(*.fault))]
    ResliceRefused { at: usize, fault: ResliceFault },
}

impl From<AllocError> for RunFault {
    ghost from_gives = { λ _ fault. fault ≡ NoMemory };

    fn from(_error: AllocError) -> RunFault {
        RunFault::NoMemory
    }
}

impl<T: Drop> From<AllocFailed<T>> for RunFault {
    ghost from_gives = { λ _ fault. fault ≡ NoMemory };

    fn from(_error: AllocFailed<T>) -> RunFault {
        RunFault::NoMemory
    }
}
