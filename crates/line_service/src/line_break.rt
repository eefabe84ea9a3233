//! What is after a line.

/// What is after a line that was read.
#[derive(Clone, Copy, Debug, PartialEq, Eq)]
pub enum LineBreak {
    /// Another line, which may be empty.
    Another,
    /// The end of the input.
    End,
}
