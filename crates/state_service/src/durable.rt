//! A service that loses no line that it answered, whatever moment the process or the machine stops.
//!
//! Lines are put in a journal on a disk before they are answered. After a crash the journal is read again: it has a saved state of
//! the plant and the lines since, and these are done again from that state. So a crash at any moment leaves a state that has each
//! line that was answered.

mod batches;
mod doing;
mod fault;
mod lines;
mod opening;
mod reading;
mod saving;

pub use batches::do_batch;
pub use fault::{DurableFault, JournalStateFault, LineFailure};
pub use opening::{DurableState, redo_lines};
pub use reading::{SavedState, StartState, read_state};
pub use saving::{KeptState, begin_state, put_snapshot, snapshot_to_keep, state_to_keep};
