//! The steps of a run, each with its operator and its turn.

ghost use Rattle.std.specs.Prelude.{◌≡◌, IfOk};
ghost use Rattle.plant_workers.specs.Parts.{action_in};

use crate::audit::waiting_operator;
use crate::plan::turns_of;
use operator_model::Action;
use plant::{Op, Plant};
use run_model::Step;
use std::alloc::{AllocError, Global};

/// A step, its operator, and how many entries that operator's history has when the step's turn comes.
#[derive(Clone, Copy)]
pub(crate) struct Job<'a> {
    pub step: &'a Step,
    pub op: Op,
    pub turn: usize,
}

/// Returns the job of each step, in order. A `Reslice` is not an operator's job: it is done while
/// no thread is there.
pub(crate) fn jobs_of<'a>(
    alloc: Global,
    plant: &Plant,
    steps: &'a [Step],
) -> Result<Vec<Job<'a>>, AllocError> {
    let turns = turns_of(alloc, plant, steps)?;
    let mut jobs = Vec::with_capacity(alloc, steps.len())?;
    for (step, turn) in steps.iter().zip(turns) {
        let op = waiting_operator(plant, step).unwrap_or(0);
        jobs.push(Job { step, op, turn })?;
    }
    Ok(jobs)
}

impl Job<'_> {
    /// Returns the action that the step is of its operator; none of a Collect and a `Reslice`.
    pub(crate) fn action(&self, alloc: Global) -> Result<Option<Action>, AllocError>
        ensures { IfOk result (λ action. action ≡ action_in self.now.step.now) }
    {
        match self.step {
            Step::Arrive { modem, heard } => Ok(Some(Action::Arrive {
                modem: *modem,
                heard: heard.copy(alloc)?,
            })),
            Step::Work { op: _ } => Ok(Some(Action::Work)),
            Step::Tick { op: _ } => Ok(Some(Action::Tick)),
            Step::Collect { op: _ } | Step::Reslice { from: _, rows: _ } => Ok(None),
        }
    }
}
