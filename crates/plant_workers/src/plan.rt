//! The checks of a run's steps before its threads start, and the place of each step in its operator's history. The checks find
//! a step that cannot be served, and a Tick past the last frame number.

mod serving;
mod spending;
mod turns;

pub use serving::first_unserved;
pub use spending::{before_reslice, first_spent};
pub use turns::turns_of;
