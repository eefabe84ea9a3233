//! Receipts of actions on operators' books, and the check that each history is the merge of its callers' receipts. The check
//! also compares each MAP with the operators' own frames.

mod caller;
mod counting;
mod fault_text;
mod mapping;
mod own_frames;
mod own_part;
mod receipt;
mod run_fault;
mod same;
mod settled;
mod settling;
mod straying;

pub use caller::Caller;
pub use own_frames::{Frame, frames_in};
pub use receipt::{Callers, Receipt, Receipts};
pub use run_fault::RunFault;
pub use same::{are_same_elements, is_same_heard};
pub use settled::Settled;
pub use settling::settle;
