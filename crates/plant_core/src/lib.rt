//! The core of a plant with a ranking for each operator and a record of its run: histories, and the slices that were given.
#![tactic(auto)]

mod acting;
mod core_fault;
mod giving;
mod held;
mod keeping;
mod laws_of_core;
mod live;
mod opening;
mod recorded;
mod running;
mod slice_change;
mod stepping;

pub use core_fault::CoreOpenFault;
pub use held::PlantCore;
pub use live::{
    ActPlan, CoreFault, LiveCore, ResliceFault, RestFault, ResumeFault, Unfits, books_stand_now,
    first_fault, is_same, least_meeting, live_run_is_shown, resting_core_is_at_rest,
    resumed_is_changed, started_core_is_after, step_goes_on, two_live_cores, two_resumed_cores,
};
pub use opening::follow;
pub use plant::Routes;
pub use recorded::RecordedCore;
pub use run_model::{
    equal_books_answer_alike, maps_are_shared_out, non_interference, opened_is_reached,
    run_is_reached, step_is_reached, two_cores,
};
pub use running::RunStop;
pub use slice_change::SliceChange;
