//! What is placed in an assembly.

use plant::Op;
use run_model::SliceRows;
use slice_scheduler::Elements;

/// What was placed in an assembly: a part that was put, or slices that were given.
#[derive(Debug, Drop)]
pub enum Placing {
    /// An operator put its part of a frame.
    Put {
        op: Op,
        frame: u32,
        elements: Elements,
    },
    /// All operators were given new slices from a frame on.
    Reslice {
        from: u32,
        rows: SliceRows,
    },
}
