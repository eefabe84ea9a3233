//! A service that begins with a plant file or with a snapshot. It answers the line `K` by a snapshot, its plant is changed by a
//! plant file after the line `P`, and the line `N` gives its next frame another number. So a plant goes on where it was, in
//! another process, under another plant file or under other frame numbers.

mod begin_fault;
mod beginning;
mod changing;
mod holding;
mod items;
mod kept_text;
mod last_state;
mod laws;
mod new_frame;
mod new_frame_fault;
mod new_plant;
mod new_plant_fault;
mod notes;
mod plant_file;
mod reading;
mod saving;
mod service;
mod serving;

pub use begin_fault::BeginFault;
pub use beginning::is_snapshot_head;
pub use items::saved_core;
pub use laws::{service_is_of_changes, service_is_of_runs};
pub use new_frame::{Renumbered, renumbered_core};
pub use new_frame_fault::NewFrameFault;
pub use new_plant_fault::NewPlantFault;
pub use notes::RefusalNotes;
pub use saving::{SnapshotEnd, snapshot_after};
pub use serving::{ServiceEnd, resume};
