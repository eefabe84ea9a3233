//! Steps, as the tables of tests write them.

use crate::fixtures::heard_message;
use dsx_messages::Modem;
use operator_book::SliceRow;
use plant::Op;
use run_model::{SliceRows, Step};
use std::alloc::{AllocError, Global};

/// A step, as the tables write it.
#[derive(Clone, Copy, Debug, PartialEq, Eq)]
pub enum StepCall {
    Arrive(Modem, &'static [u8]),
    Work(Op),
    Tick(Op),
    Collect(Op),
    Reslice(u32, &'static [SliceRow]),
}

/// Returns the step that a table writes so.
pub fn step_of(alloc: Global, call: StepCall) -> Result<Step, AllocError> {
    match call {
        StepCall::Arrive(modem, bytes) => Ok(Step::Arrive {
            modem,
            heard: heard_message(alloc, bytes)?,
        }),
        StepCall::Work(op) => Ok(Step::Work { op }),
        StepCall::Tick(op) => Ok(Step::Tick { op }),
        StepCall::Collect(op) => Ok(Step::Collect { op }),
        StepCall::Reslice(from, rows) => Ok(Step::Reslice {
            from,
            rows: SliceRows::from_slice(alloc, rows)?,
        }),
    }
}

/// Returns the steps that a table writes so.
pub fn steps_of(alloc: Global, calls: &[StepCall]) -> Result<Vec<Step>, AllocError> {
    let mut steps = Vec::new(alloc);
    for call in calls {
        steps.push(step_of(alloc, *call)?)?;
    }
    Ok(steps)
}
