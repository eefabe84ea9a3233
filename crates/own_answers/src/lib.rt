//! Texts to a writer of each operator, in segments of a bounded size.
#![tactic(auto)]

mod laws;
mod memory;
mod plain;
mod segmented;
mod segments;
mod text_writer;
mod writing;

pub use laws::texts_are_whole;
pub use memory::MemorySegments;
pub use plain::PlainWriter;
pub use segmented::Segmented;
pub use segments::Segments;
pub use text_writer::TextWriter;
pub use writing::write_texts;
