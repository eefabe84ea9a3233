//! A book that threads share and act on in the order of their tickets. A pass records what its holder has seen of the history.
#![tactic(auto)]

mod cell;
mod dealing;
mod pass;
mod steps;
mod turns;
mod view;

pub use pass::{Pass, PassedCell};
pub use plant_workers::{CellFault, Receipt};
pub use view::{BookParts, CellKey, Knowledge, MarkedEntry, Origin};
