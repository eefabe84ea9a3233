//! Why the next frame does not get another number.

use frame_numbers::RenumberFault;
use plant_core::RestFault;
use plant_restart::RestoreFault;

/// Why the next frame of a plant in service does not get the number of a line `N` (implementation-specific). Of several reasons
/// it is the first one, in this order.
#[derive(Debug, Drop)]
pub enum NewFrameFault {
    /// The line names no frame number in its one spelling.
    NoNumber,
    /// The core does not rest before a frame.
    Unfinished {
        why: RestFault,
    },
    /// The next frame, `from`, cannot be called `to`.
    NotRenumbered {
        from: u32,
        to: u32,
        why: RenumberFault,
    },
    /// The number is less than that of the plant's first frame.
    BeforeFirstFrame,
    /// The plant does not start before the frame of that number.
    NotRestored {
        why: RestoreFault,
    },
    /// Memory ran out before any effect.
    NoMemory,
}
