//! Laws of a service that goes on in another process. The answer to the line `K` begins that process where the one before it
//! was, and no operator notices the restart.
#![tactic(auto)]

mod laws;

pub use laws::{
    file_in_force_stays, modems_stay_listed, numbers_are_not_noticed, plant_file_begins_a_service,
    restart_is_a_change, restart_is_not_noticed, saved_states_are_restored,
    snapshot_begins_a_service,
};
