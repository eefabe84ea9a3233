//! Objects of JSON for the lines that the program writes. Each line has one object, on a line of its own, whose member `text` is
//! the whole line.
#![tactic(auto)]

mod context;
mod members;
mod object;
mod plain_line;
mod remark;
mod trace_notes;
mod writer;

pub use context::{Comparison, DecidingCheck, OutputNote};
pub use object::{JsonObject, write_object};
pub use trace_notes::TraceNotes;
pub use writer::{JsonLines, LineSource};
