//! Why an operator's cell refused a call.

use operator_book::BookFault;
use plant::Op;

/// Why an operator's cell refused a call.
#[derive(Clone, Copy, Debug, PartialEq, Eq)]
pub enum CellFault {
    /// The book refused the action.
    Book(BookFault),
    /// The history is longer than the place at which the action was to be done.
    Passed { op: Op, index: usize },
    /// An earlier turn was refused, or the operator's callers were stopped.
    Stopped { op: Op },
    /// The cell is closed for good, since an earlier turn was refused. Only a cell of passes is closed.
    Closed,
}
