//! Steps of a plant, and what they output.

ghost use Rattle.std.specs.Prelude.{◌≡◌, IfOk};

use dsx_messages::Modem;
use lists::Listed;
use map_assembly::MapBytes;
use operator_model::{Heard, Output, SliceRow};
use plant::Op;
use std::alloc::{AllocError, Global};

/// A slice and a budget for each operator, in the plant's order.
pub type SliceRows = Listed<SliceRow>;

/// One step of a plant.
#[derive(Debug, Drop)]
pub enum Step {
    /// Something is received of a modem: it goes to the inbox of its operator.
    Arrive { modem: Modem, heard: Heard },
    /// An operator handles the first of its inbox.
    Work { op: Op },
    /// An operator's timers count on, and its frame is scheduled.
    Tick { op: Op },
    /// An operator's oldest frame that was not collected goes into the assembly.
    Collect { op: Op },
    /// From a later frame on each operator has another slice and budget.
    Reslice { from: u32, rows: SliceRows },
}

impl Step {
    /// Returns an equal step with memory of its own.
    pub fn copy(&self, alloc: Global) -> Result<Step, AllocError>
        ensures { IfOk result (λ step. step ≡ self.now) }
    {
        match self {
            Step::Arrive { modem, heard } => Ok(Step::Arrive {
                modem: *modem,
                heard: heard.copy(alloc)?,
            }),
            Step::Work { op } => Ok(Step::Work { op: *op }),
            Step::Tick { op } => Ok(Step::Tick { op: *op }),
            Step::Collect { op } => Ok(Step::Collect { op: *op }),
            Step::Reslice { from, rows } => Ok(Step::Reslice {
                from: *from,
                rows: rows.copy(alloc)?,
            }),
        }
    }
}

/// What a step of a plant outputs.
#[derive(Debug, Drop)]
pub enum Out {
    /// An output of an operator.
    Of { op: Op, output: Output },
    /// The MAP of a frame that every operator's part is there of.
    Map(MapBytes),
}
