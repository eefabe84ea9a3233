//! The program with its options: reads the command line, and performs its command.
#![tactic(auto)]

mod answering;
mod begin_reasons;
mod command;
mod fault_count;
mod file_input;
mod front_reader;
mod head_reading;
mod noted_service;
mod number_reasons;
mod objects;
mod recording;
mod refusal_reasons;
mod restoring;
mod resuming;
mod running;
mod shared_reasons;
mod snapshot_command;
mod state_command;
mod state_reasons;
mod strict;
mod version;

pub use plant_script::{Ending, behind_name, exit_code};
pub use running::run_with_options;
