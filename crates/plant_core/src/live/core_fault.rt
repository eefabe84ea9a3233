//! Why a step was refused.

use dsx_messages::Modem;
use map_assembly::GatherFault;
use operator_book::BookFault;
use plant::Op;

/// Why new slices were refused. Fault by fault over all operators, and of one fault the least
/// operator or pair.
#[derive(Clone, Copy, Debug, PartialEq, Eq)]
pub enum ResliceFault {
    /// There is not one row for each operator.
    Count,
    /// The first frame is not after an operator's frame number.
    NotPast { op: Op },
    /// An earlier one waits for its frame.
    Unfinished { op: Op },
    /// A slice has no minislot, begins within the head, or ends after the frame.
    OffFrame { op: Op },
    /// Two slices have a minislot in common.
    SlicesMeet { a: Op, b: Op },
    /// A budget has more minislots than its slice.
    BudgetOverSlice { op: Op },
    /// More minislots are committed than the new budget has.
    Unfit { op: Op },
}

/// For each reason for which a machine refuses a row, the least operator whose machine refuses its row so.
#[derive(Clone, Copy, Debug)]
pub struct Unfits {
    pub not_past: Option<Op>,
    pub unfinished: Option<Op>,
    pub off_frame: Option<Op>,
    pub budget_over_slice: Option<Op>,
    pub over_budget: Option<Op>,
}

/// Why a step was refused. A refused step has changed nothing.
#[derive(Clone, Copy, Debug, PartialEq, Eq)]
pub enum CoreFault {
    /// No operator has this modem.
    UnknownModem { modem: Modem },
    /// There is no such operator.
    UnknownOperator { op: Op },
    /// The operator's book refused it, and not for out of memory.
    Book(BookFault),
    /// The assembly refused it. No core answers this: each frame that waits is fit to be put.
    Gather(GatherFault),
    /// No frame of the operator waits to be collected.
    NothingToCollect { op: Op },
    /// Memory ran out before any effect.
    NoMemory,
    /// The new slices were refused.
    Reslice(ResliceFault),
}
