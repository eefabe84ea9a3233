//! The service flows of one operator, found by SFID and by SID, with what they have committed.
#![tactic(auto)]

mod flow;
mod flows;
mod laws;
mod rows;

pub use flow::{Asker, Flow, Pending};
pub use flows::Flows;
pub use laws::{
    known_flow_may_stand, known_flow_may_stand_anew, new_flow_may_stand, put_flow_is_there,
    sid_finds_its_flow,
};
