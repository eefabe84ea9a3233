//! The check that decides a message or a request, in any state that an operator's machine can have. What the machine does is
//! proved to be what that check answers.

mod asking;
mod deciding;
mod holding;
mod messages;
mod operator_snapshot;

pub use operator_snapshot::OperatorSnapshot;
