//! A plant in service that answers by objects: before each step is done, it is noted which check decides what the step outputs. The
//! loop is that of `line_service`, which writes all else.
#![tactic(auto)]

mod notes;
mod serving;

pub use notes::CheckNotes;
pub use serving::{ServiceFault, serve_opened};
