//! Slices that were given.

use run_model::SliceRows;

/// Slices that were given: the frame from which on they are in force, and a row for each operator in the plant's order.
#[derive(Drop)]
pub struct SliceChange {
    pub from: u32,
    pub rows: SliceRows,
}
