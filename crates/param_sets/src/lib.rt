//! Parameter sets of service flows (CM-SP-MULPIv3.1, C.2.2.5 to C.2.2.8): what a flow may request, and what it needs of each
//! frame.
#![tactic(auto)]

mod comparing;
mod laws;
mod needing;
mod overriding;
mod param_set;
mod reading;
mod refusal;
mod scheduling;
mod sets;
mod units;

pub use comparing::within;
pub use laws::{
    active_is_within_provisioned, null_is_within, within_is_reflexive, within_is_transitive,
};
pub use needing::{need, need_if};
pub use overriding::overridden;
pub use param_set::{ParamFields, ParamSet};
pub use reading::from_tlv;
pub use refusal::Refusal;
pub use scheduling::Scheduling;
pub use sets::{Sets, SetsFields};
pub use units::Units;
