//! The callers of an operator's book.

/// Names who has actions done to an operator's book in a run on threads.
#[derive(Clone, Copy, Debug, PartialEq, Eq)]
pub enum Caller {
    /// Does the Arrives.
    Dispatcher,
    /// Does the Ticks.
    Ticker,
    /// Does the operator's Works and Collects.
    Worker,
    /// Gives new slices.
    Owner,
}
