//! Why a plant's core was not opened.

ghost use Rattle.std.specs.Prelude.{◌≡◌};
ghost use Rattle.plant_core.specs.declared.core_fault.CoreOpenFault.TheVariants as open_faults;

use std::alloc::AllocError;

/// Says why a plant's core was not opened. `RankingsMismatch` is tried first.
#[derive(Clone, Copy, Debug, PartialEq, Eq)]
pub enum CoreOpenFault {
    /// Memory ran out before any effect.
    NoMemory,
    /// There is not one ranking for each operator that follows its policy.
    RankingsMismatch,
}

impl From<AllocError> for CoreOpenFault {
    ghost from_gives = { λ _ fault. fault ≡ open_faults.NoMemory };

    fn from(_error: AllocError) -> CoreOpenFault {
        CoreOpenFault::NoMemory
    }
}
