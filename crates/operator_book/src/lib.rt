//! One operator's machine as code: a book, which keeps its history, or the machine alone, which keeps none. The state of a book
//! is the replay of its history.
#![tactic(auto)]

mod answering;
mod asked;
mod book;
mod boxed_verdict;
mod committing;
mod flow_fault;
mod handling;
mod history;
mod judging;
mod live;
mod logged;
mod machine;
mod opening;
mod plan;
mod planning;
mod refusal;
mod reslicing;
mod response_fault;
mod resuming;
mod row_fault;
mod share_fault;
mod state_fault;
mod state_view;
mod tick_memory;
mod ticking;
mod verdict;

pub use book::{Book, BookFault, OpenFault};
pub use handling::FirstRequest;
pub use history::History;
pub use live::{Machine, SoundMachine};
pub use logged::RecordedMachine;
pub use operator_model::{
    Action, Arrival, Cause, Entry, Heard, NextShare, Output, Outputs, Share, SliceRow, Unfit,
};
pub use plan::{Plan, SpareOutputs, output_copies};
pub use row_fault::row_faults;
pub use state_fault::StateFault;
pub use state_view::StateView;
pub use tick_memory::TickMemory;
