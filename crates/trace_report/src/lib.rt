//! A trace of a script: performs its steps, and writes the check that decided each message. The check is proved to be the one
//! of the tables that held.
#![tactic(auto)]

mod checks;
mod comparison;
mod decision;
mod laws;
mod lines;
mod names;
mod remarks;
mod seen;
mod table;
mod trace;
mod words;

pub use checks::OperatorSnapshot;
pub use comparison::CheckComparison;
pub use decision::Decision;
pub use laws::check_lines_are_decisions;
pub use seen::{StepReport, decision_of, live_decision_of};
pub use table::{
    Check, MessageCheck, decided_once, handled_once, message_is_decided, opened_is_awaited,
    replay_is_awaited, step_keeps_awaited, verdict_is_decided, worked_encodings, worked_flows,
    worked_messages, worked_room, worked_sets,
};
pub use trace::write_trace;
