//! Threads that read lines of inputs into queues, and batches of these lines in turns.
//!
//! Clauses say what each call under the lock does: a line that is offered is put into its queue, and a batch is a run of the queues, so
//! the laws of `fair_queue` hold in whatever order the threads come. Only tests say that a thread goes on: that a reader that waits for
//! room is woken, that nobody else waits for it, and that all threads end.
#![tactic(auto)]

mod fault;
mod intake;
mod offering;
mod reading;
mod serving;
mod state;
mod threads;
mod tick_rule;

pub use fault::IntakeFault;
pub use intake::{ChosenLines, Intake};
pub use reading::read_line;
pub use serving::{Input, ReadsInputs, TakesBatches};
pub use state::{IntakeState, OfferFault};
pub use threads::run_inputs;
pub use tick_rule::TickRule;
