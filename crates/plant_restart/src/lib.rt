//! Saves a live core as a snapshot, restores a core from one, and changes the plant of a core that rests. Operators are
//! matched by their names.
#![tactic(auto)]

mod changing;
mod copying;
mod fault;
mod laws;
mod refusing;
mod restarting;
mod restoring;
mod saving;

pub use changing::change;
pub use fault::{ChangeFault, RestartFault, RestoreFault, SaveFault};
pub use laws::change_is_not_noticed;
pub use refusing::{RefusedState, refused_states};
pub use restoring::restore;
pub use saving::save;
