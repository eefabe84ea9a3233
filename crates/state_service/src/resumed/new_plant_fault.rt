//! Why a plant is not changed to that of a plant file.

use plant_restart::ChangeFault;
use slice_table::PlantFault;

/// Why a plant is not changed to that of a plant file among the lines (implementation-specific). Of several reasons it is the
/// first one, in this order.
#[derive(Debug, Drop)]
pub enum NewPlantFault {
    /// The input ends before a line of three dashes.
    NotEnded,
    /// The file has more than 1,048,576 bytes.
    TooLong,
    /// The file is not UTF-8.
    NotText,
    /// The file is invalid.
    InvalidPlant { fault: PlantFault },
    /// The plant in service is not changed to that of the file.
    NotChanged { why: ChangeFault },
    /// Memory ran out before any effect.
    NoMemory,
}
