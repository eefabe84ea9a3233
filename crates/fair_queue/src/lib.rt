//! A queue of lines for each operator and one for the owner of the channel, and the choice of the next line in turns.
#![tactic(auto)]

mod fair_queue;
mod laws;
mod line;
mod operator_queue;
mod owner_queue;

pub use fair_queue::{Choice, FairQueue};
pub use laws::{
    limit_holds, lines_are_kept, lines_are_numbered, places_are_own, queues_run_alone, runs_agree,
    turns_are_taken,
};
pub use line::{InputCounts, Item, Line, MOST_LINE_BYTES, NumberedLine, OwnerLine};
pub use operator_queue::{OperatorQueue, ZeroLimit};
pub use owner_queue::OwnerQueue;
