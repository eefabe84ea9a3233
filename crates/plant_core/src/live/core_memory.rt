//! Memory that a live core uses again from step to step.

use operator_book::{SpareOutputs, TickMemory};
use run_model::Out;
use std::alloc::Global;

/// Memory that a live core uses again from step to step: for the outputs of the next action that is
/// planned, for the lists of a tick, and for a caller's list of outputs.
#[derive(Drop)]
pub(crate) struct CoreMemory {
    pub(crate) outputs: SpareOutputs,
    pub(crate) tick: TickMemory,
    pub(crate) list: Vec<Out>,
}

impl CoreMemory {
    /// Creates memory with empty lists. Takes none.
    pub(crate) fn new(alloc: Global) -> CoreMemory {
        CoreMemory {
            outputs: SpareOutputs::new(alloc),
            tick: TickMemory::new(alloc),
            list: Vec::new(alloc),
        }
    }
}
