//! How far the program comes without threads.

use crate::status::Status;
use line_service::LineStep;
use plant::Plant;

/// How far the program has come without threads.
#[derive(Drop)]
pub enum Progress {
    /// It has ended: with this status, and after a read that failed or without one.
    Ended {
        status: Status,
        is_read_failed: bool,
    },
    /// It is the command `threads`, whose plant and script are valid: the run of these lines is
    /// still to be done.
    Threads {
        plant: Plant,
        lines: Vec<LineStep>,
    },
}
