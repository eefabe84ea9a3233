//! Why a service does not begin.

use plant_restart::RestoreFault;
use slice_table::PlantFault;
use snapshot_format::Wrong;

/// Why a service does not begin (implementation-specific).
#[derive(Debug, Drop)]
pub enum BeginFault {
    /// The plant file is not UTF-8.
    NotText,
    /// The text is not a snapshot: the line of this number, counted from 1, is invalid.
    InvalidSnapshot { number: u64, wrong: Wrong },
    /// The plant file is invalid.
    InvalidPlant { fault: PlantFault },
    /// The plant's operators do not start in the states of the snapshot.
    NotRestored { why: RestoreFault },
    /// Memory ran out before any effect.
    NoMemory,
}
