//! The commands of the program: each reads its input and writes its result. `one` processes the messages of one modem on a
//! built-in plant. `check` validates a plant file and a script. `run` performs a script and prints all outputs. `threads`
//! performs it with a thread for each operator, and prints the same operator by operator. `capture` writes the run as a pcap
//! file. `serve` keeps the plant running and answers each line as it arrives. `trace` prints the check that decided each step.
//! `history OP` prints what the operator OP did.
#![tactic(auto)]

mod answer;
mod capturing;
mod check;
mod command;
mod ending;
mod input;
mod input_outcome;
mod on_threads;
mod one;
mod operator_a;
mod program;
mod progress;
mod rankings;
mod running;
mod serving;
mod status;
mod task;
mod tracing;

pub use check::plant_line;
pub use command::{behind_name, exit_code};
pub use ending::Ending;
pub use program::{run_program, run_program_with_reasons, run_without_threads};
pub use progress::Progress;
pub use status::Status;
