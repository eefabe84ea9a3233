//! Operators' cells, which threads share under a lock, and the run of a plant on threads.
#![tactic(auto)]

mod audit;
mod cell;
mod cell_state;
mod cells;
mod finishing;
mod following;
mod gate;
mod job;
mod part;
mod plan;
mod ranking;
mod receipt_lists;
mod receipts;
mod run_state;
mod running;
mod shared;
mod signal;
mod thread_report;
mod threads;
mod turn;

pub use audit::{
    Assembly, Placing, are_ticked, compare, placings_make_the_maps, stray_at, waiting_operator,
};
pub use cell::OperatorCell;
pub use cell_state::{CellFault, Held, Told, reslice};
pub use gate::{Gate, OpenGate};
pub use plan::{before_reslice, first_spent, first_unserved, turns_of};
pub use ranking::are_ranked;
pub use receipts::{
    Caller, Callers, Frame, Receipt, Receipts, RunFault, Settled, are_same_elements, frames_in,
    is_same_heard, settle,
};
pub use running::{run_workers, run_workers_on};
