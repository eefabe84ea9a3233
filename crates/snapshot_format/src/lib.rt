//! Snapshots: the states of all operators of a plant as text, and the reader of that text.
#![tactic(auto)]

mod checksum;
mod fault;
mod fields;
mod flow_records;
mod flow_text;
mod laws;
mod operator_records;
mod operator_text;
mod response_records;
mod response_text;
mod saved;
mod sets;
mod snapshot;

pub use fault::{SnapshotFault, Wrong};
pub use laws::{read_states_are_kept, snapshot_is_read_back, whole_state_is_saved};
pub use saved::{SavedFlow, SavedOperator, Snapshot};
pub use snapshot::{read_snapshot, write_snapshot};
