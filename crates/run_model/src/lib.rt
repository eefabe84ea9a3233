//! The model of a plant's runs, and the non-interference theorem about them. The definitions are in specs/, and `plant_core`
//! implements them.
#![tactic(auto)]

mod fitting;
mod laws;
mod reaching;
mod step;

pub use fitting::{slices_that_books_take_fit, waiting_frames_fit, waiting_frames_fit_from};
pub use laws::{
    changes_are_not_noticed, equal_books_answer_alike, kept_rows_go_through, maps_are_shared_out,
    non_interference, non_interference_from, two_cores,
};
pub use reaching::{
    opened_is_reached, run_is_reached, start_is_reached, step_is_reached, step_is_reached_from,
};
pub use step::{Out, SliceRows, Step};
