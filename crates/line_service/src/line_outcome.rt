//! How a line ended.

/// How the answer to a line ended.
#[derive(Clone, Copy, Debug, PartialEq, Eq)]
pub enum LineOutcome {
    /// All its steps are done.
    Done,
    /// It says no step, or its next step is refused.
    AtFault,
    /// An allocation failed while the line was parsed, or for its next step, which is not refused.
    NoMemory,
}
