//! The scheduler of one operator's slice: the elements of its part of a MAP, and the grants to backlogs.
#![tactic(auto)]

mod award;
mod awarding;
mod buckets;
mod claim;
mod claiming;
mod due;
mod elements;
mod emptying;
mod flowing;
mod laws;
mod packing;
mod piece;
mod planning;
mod scheduler;
mod separating;
mod served;
mod slice;
mod span;

pub use elements::{Elements, ElementsFields, Sids};
pub use flowing::{At, AtFields, Flowing};
pub use laws::{
    base_is_granted, elements_are_few, elements_are_tiled, elements_name_flows,
    grant_is_within_backlog, granted_by_flow,
};
pub use planning::schedule;
pub use scheduler::Scheduler;
pub use served::{Grants, Served};
pub use slice::Slice;
pub use span::{Iuc, Span, Spans};
