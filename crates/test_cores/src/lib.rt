//! Tests of books, cores and receipts by one thread, for what no line of a script shows. Expected values are typed from the rules.
//! Tests of threads use its messages and steps, too.
#![tactic(auto)]

#[cfg(test)]
mod books;
mod fixtures;
#[cfg(test)]
mod live;
#[cfg(test)]
mod opening;
#[cfg(test)]
mod restarting;
#[cfg(test)]
mod resuming;
#[cfg(test)]
mod runs;
#[cfg(test)]
mod settling;
mod step_calls;
#[cfg(test)]
mod steps;
#[cfg(test)]
mod want_of_memory;

pub use fixtures::{
    ADDITION, ExpectedOutput, MODEM_OF_A, MODEM_OF_B, REPLY, UNKNOWN_MODEM, heard_message,
    is_output,
};
pub use step_calls::{StepCall, step_of, steps_of};
