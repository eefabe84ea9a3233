//! What is done to a machine.

ghost use Rattle.std.specs.Prelude.{◌≡◌, IfOk};

use crate::heard::Heard;
use crate::output::Outputs;
use dsx_messages::Modem;
use std::alloc::{AllocError, Global};

/// A slice and a budget that an operator is offered: minislots of a frame.
#[derive(Clone, Copy, Debug, PartialEq, Eq)]
pub struct SliceRow {
    /// The first minislot.
    pub start: u16,
    /// How many minislots.
    pub length: u16,
    /// How many of them may be committed.
    pub budget: u16,
}

/// Why an offered slice cannot be taken, in the order tried.
#[derive(Clone, Copy, Debug, PartialEq, Eq)]
pub enum Unfit {
    /// Its first frame is not after the operator's frame number.
    NotPast,
    /// An earlier one waits for its frame.
    Unfinished,
    /// It has no minislot, begins within the head, or ends after the frame.
    OffFrame,
    /// Its budget has more minislots than it.
    BudgetOverSlice,
    /// More minislots are committed than its budget has.
    OverBudget,
}

/// One step of an operator's machine.
#[derive(Debug, Drop)]
pub enum Action {
    /// Puts what was received of a modem at the end of the inbox.
    Arrive { modem: Modem, heard: Heard },
    /// Handles the first of the inbox.
    Work,
    /// Counts the timers one tick on, gives out one frame, and goes on to the next.
    Tick,
    /// Takes another slice and budget from a later frame on.
    Reslice { from: u32, row: SliceRow },
}

impl Action {
    /// Returns an equal value with bytes of its own.
    pub fn copy(&self, alloc: Global) -> Result<Action, AllocError>
        ensures { IfOk result (λ action. action ≡ self.now) }
    {
        match self {
            Action::Arrive { modem, heard } => Ok(Action::Arrive {
                modem: *modem,
                heard: heard.copy(alloc)?,
            }),
            Action::Work => Ok(Action::Work),
            Action::Tick => Ok(Action::Tick),
            Action::Reslice { from, row } => Ok(Action::Reslice {
                from: *from,
                row: *row,
            }),
        }
    }
}

/// An action that was done, and what it output.
#[derive(Debug, Drop)]
pub struct Entry {
    pub action: Action,
    pub outputs: Outputs,
}
