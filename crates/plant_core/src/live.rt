//! The core of a plant: the operators' machines, the frames that are not yet collected, and the assembly of MAPs. It keeps no
//! histories and no rankings: a tick ranks the flows by the policy of the operator's row, or by a ranking that the caller gives.

mod act_plan;
mod acting;
mod core_fault;
mod core_memory;
mod desk;
mod giving;
mod held;
mod judging;
mod keeping;
mod laws;
mod opening;
mod planning;
mod rest_fault;
mod resting;
mod resume_fault;
mod resuming;
mod stepping;

pub use act_plan::ActPlan;
pub use core_fault::{CoreFault, ResliceFault, Unfits};
pub use held::LiveCore;
pub use judging::{first_fault, is_same, least_meeting};
pub use laws::{
    books_stand_now, live_run_is_shown, resting_core_is_at_rest, resumed_is_changed,
    started_core_is_after, step_goes_on, two_live_cores, two_resumed_cores,
};
pub use rest_fault::RestFault;
pub use resume_fault::ResumeFault;
