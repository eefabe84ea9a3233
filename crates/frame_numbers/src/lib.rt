//! Other numbers for frames: a snapshot of a plant at rest gets them, and laws say what an operator notices of it. It notices
//! the numbers of its frames only.
#![tactic(auto)]

mod fault;
mod laws;
mod places;
mod refusing;
mod renumbering;

pub use fault::RenumberFault;
pub use laws::{refusals_are_the_same, renumbering_is_not_noticed, time_goes_on};
pub use renumbering::renumber;
