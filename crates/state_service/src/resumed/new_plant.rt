//! Items that wait for another core: a new plant, and another number for the next frame.

use plant::Plant;
use snapshot_format::Snapshot;

/// A line `P` that is not answered yet, and the plant file after it.
#[derive(Drop)]
pub(crate) struct WaitingLine {
    /// The number of the line.
    pub(crate) number: u64,
    /// The text of the plant file.
    pub(crate) text: Vec<u8>,
}

/// A line `N` that is not answered yet, and the snapshot of the core under the number that it names.
#[derive(Drop)]
pub(crate) struct WaitingFrame {
    /// The number of the line.
    pub(crate) number: u64,
    /// The states before the frame of the number that the line names.
    pub(crate) saved: Snapshot,
}

/// An item that is not answered yet.
#[derive(Drop)]
pub(crate) enum WaitingItem {
    /// A valid plant file.
    NewPlant { line: WaitingLine },
    /// Another number for the next frame.
    NewFrame { line: WaitingFrame },
}

/// What was done of an item that was read.
#[derive(Drop)]
pub(crate) enum ItemOutcome {
    /// It is answered.
    Answered,
    /// It is not answered yet: it waits for a core of this plant.
    Awaits { waiting: WaitingItem, plant: Plant },
}
