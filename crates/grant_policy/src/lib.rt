//! Policies: the rank of 0 to 63 by which the flows of an operator are served, the greater first.
#![tactic(auto)]

mod policy;
mod rank_input;
mod ranking;

pub use policy::{AgingStep, Policy};
pub use rank_input::RankInput;
pub use ranking::{Ranker, Ranking, Ranks, rank_at_most_63, rank_by};
