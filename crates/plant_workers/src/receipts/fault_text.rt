//! What faults of layers below say to a plant's owner.

use operator_book::BookFault;
use plant_core::{CoreFault, ResliceFault};
use std::fmt::{self, Display};

/// Why a book refused an action, as it is shown.
#[derive(Clone, Copy)]
struct BookText(BookFault);

impl Display for BookText {
    fn fmt<W: fmt::Write>(&self, f: &mut fmt::Formatter<W>) -> fmt::Result {
        match self.0 {
            BookFault::NotMine { modem } => write!(f, "the modem {modem} is another operator's"),
            BookFault::FramesSpent => f.write_str("the operator's frame numbers are spent"),
            BookFault::Unfit(_) => f.write_str("the operator cannot take the new slice"),
            BookFault::NoMemory => f.write_str("out of memory"),
        }
    }
}

/// Why new slices were refused, as it is shown.
#[derive(Clone, Copy)]
pub(crate) struct ResliceText(pub ResliceFault);

impl Display for ResliceText {
    fn fmt<W: fmt::Write>(&self, f: &mut fmt::Formatter<W>) -> fmt::Result {
        let (lead, op, rest) = match self.0 {
            ResliceFault::Count => {
                return f.write_str("there is not one new slice for each operator");
            }
            ResliceFault::SlicesMeet { a, b } => {
                return write!(f, "the new slices of operators {a} and {b} meet");
            }
            ResliceFault::NotPast { op } => (
                "",
                op,
                " is already past the frame from which it gets a new slice",
            ),
            ResliceFault::Unfinished { op } => {
                ("an earlier slice of ", op, " still waits for its frame")
            }
            ResliceFault::OffFrame { op } => (
                "the new slice of ",
                op,
                " does not lie in the frame behind its head",
            ),
            ResliceFault::BudgetOverSlice { op } => {
                ("the new budget of ", op, " is more than its new slice")
            }
            ResliceFault::Unfit { op } => ("", op, " has committed more than its new budget"),
        };
        write!(f, "{lead}operator {op}{rest}")
    }
}

/// Why a core refused a step, as it is shown.
#[derive(Clone, Copy)]
pub(crate) struct CoreText(pub CoreFault);

impl Display for CoreText {
    fn fmt<W: fmt::Write>(&self, f: &mut fmt::Formatter<W>) -> fmt::Result {
        match self.0 {
            CoreFault::UnknownModem { modem } => write!(f, "no operator has the modem {modem}"),
            CoreFault::UnknownOperator { op } => write!(f, "there is no operator {op}"),
            CoreFault::Book(fault) => BookText(fault).fmt(f),
            CoreFault::Gather(_) => f.write_str("the assembly of MAPs did not take a frame"),
            CoreFault::NothingToCollect { op } => {
                write!(f, "no frame of operator {op} waits to be collected")
            }
            CoreFault::NoMemory => f.write_str("out of memory"),
            CoreFault::Reslice(fault) => ResliceText(fault).fmt(f),
        }
    }
}
