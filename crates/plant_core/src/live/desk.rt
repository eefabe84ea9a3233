//! An operator's machine at work, and its frames that wait.

use operator_book::Machine;
use slice_scheduler::Elements;
use std::collections::VecDeque;

/// An operator's machine at work, and its frames that wait to be collected, the oldest first, each with its number.
#[derive(Drop)]
pub struct LiveSlot {
    pub live: Machine,
    pub waiting: VecDeque<(u32, Elements)>,
}
