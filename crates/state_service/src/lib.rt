//! A service whose lines are in a journal before they are answered, from the beginning of its input to the end.
//!
//! It begins with the journal's state, or with the plant file of the input if the file has no byte. The lines of the input are done in
//! batches, as they are read. Now and then the state takes the place of the lines since the last one.
#![tactic(auto)]

mod answering;
mod beginning;
mod commands;
mod durable;
mod fault;
mod greeting;
mod performing;
mod period_end;
mod periods;
mod reading;
mod resumed;
mod serving;
mod starting;

pub use beginning::serve_state;
pub use durable::{
    DurableFault, DurableState, JournalStateFault, KeptState, LineFailure, SavedState, StartState,
    begin_state, do_batch, put_snapshot, read_state, redo_lines, snapshot_to_keep, state_to_keep,
};
pub use fault::StateServiceFault;
pub use resumed::{
    BeginFault, NewFrameFault, NewPlantFault, RefusalNotes, Renumbered, ServiceEnd, SnapshotEnd,
    is_snapshot_head, renumbered_core, resume, saved_core, service_is_of_changes,
    service_is_of_runs, snapshot_after,
};
