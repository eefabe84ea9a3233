//! How lines end that were done one batch after the other.

use crate::durable::KeptState;

/// Holds a state that is to be saved, and the answer that is to be written then.
#[derive(Drop)]
pub(crate) struct DueState {
    pub(crate) kept: KeptState,
    /// It is empty if the state is saved for no command.
    pub(crate) answer: Vec<u8>,
}

/// How lines ended that were done one batch after the other.
#[derive(Drop)]
pub(crate) enum PeriodEnd {
    /// By the end of the input.
    Ended,
    /// This state is to be saved.
    Due { due: DueState },
}
