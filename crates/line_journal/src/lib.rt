//! A snapshot and the text lines since, in one file, on a disk that may crash at any moment.
#![tactic(auto)]

mod batch;
mod device;
mod journal;
mod marks;
mod memory;
mod recovery;
mod run;
mod snapshot;

pub use batch::Batch;
pub use device::{Device, DeviceError};
pub use journal::{Journal, begin};
pub use marks::LineError;
pub use memory::Memory;
pub use recovery::{Recovered, recover};
pub use run::JournalChange;
pub use snapshot::SnapshotLines;
