//! What each thread of a run does.

ghost use Rattle.std.specs.Prelude.{◌≡◌, ◌↔◌, IsTrue};
ghost use Rattle.plant_workers.specs.Parts.{caller_in, IsOfPart};

use crate::job::Job;
use crate::receipts::Caller;
use plant::Op;
use run_model::Step;
use std::alloc::{AllocError, Global};

/// How often a thread looks whether its turn has come, before it sleeps: about as long as an action takes, with what it takes to
/// fetch the operator's data from another processor.
pub(crate) const LOOKS: usize = 6_000;

/// How often the dispatcher looks. The worker that it waits for may sleep, and then the system has to wake it first.
const DISPATCHER_LOOKS: usize = 20_000;

/// What one thread of a run does, in the order of the steps.
#[derive(Clone, Copy)]
pub(crate) enum Part {
    /// The dispatcher: what is received of modems.
    Arrivals,
    /// The ticker.
    Ticks,
    /// The worker of an operator: that operator's Works and Collects.
    Worker(Op),
}

impl Part {
    /// Returns whether a job is one of this part.
    pub(crate) fn has(self, job: &Job) -> bool
        ensures { IsTrue result ↔ IsOfPart self job.now.step.now }
    {
        match (self, job.step) {
            (Part::Arrivals, Step::Arrive { modem: _, heard: _ }) => true,
            (Part::Ticks, Step::Tick { op: _ }) => true,
            (Part::Worker(op), Step::Work { op: of } | Step::Collect { op: of }) => op == *of,
            _ => false,
        }
    }

    /// Returns how often the thread of this part looks whether its turn has come, before it sleeps.
    pub(crate) fn looks(self) -> usize {
        match self {
            Part::Arrivals => DISPATCHER_LOOKS,
            Part::Ticks | Part::Worker(_) => LOOKS,
        }
    }

    /// Returns the caller that the thread of this part is.
    pub(crate) fn caller(self) -> Caller
        ensures { result ≡ caller_in self }
    {
        match self {
            Part::Arrivals => Caller::Dispatcher,
            Part::Ticks => Caller::Ticker,
            Part::Worker(_) => Caller::Worker,
        }
    }
}

/// Keeps a part of a run with its jobs, in the order of the steps.
#[derive(Drop)]
pub(crate) struct PartJobs<'a> {
    pub part: Part,
    pub jobs: Vec<Job<'a>>,
}

impl<'a> PartJobs<'a> {
    /// Makes a part with no jobs. Takes no memory.
    fn new(alloc: Global, part: Part) -> PartJobs<'a> {
        let jobs = Vec::new(alloc);
        PartJobs { part, jobs }
    }
}

/// Returns the parts of a run of so many operators, with no jobs: the dispatcher, the ticker, and one worker for each.
fn parts_without_jobs<'a>(
    alloc: Global,
    operators: usize,
) -> Result<Vec<PartJobs<'a>>, AllocError> {
    let mut parts = Vec::new(alloc);
    parts.push(PartJobs::new(alloc, Part::Arrivals))?;
    parts.push(PartJobs::new(alloc, Part::Ticks))?;
    for op in 0..operators {
        parts.push(PartJobs::new(alloc, Part::Worker(op)))?;
    }
    Ok(parts)
}

/// Returns the place of the part that a step belongs to among the parts of a run; none of a `Reslice`.
fn part_place(step: &Step) -> Option<usize> {
    match step {
        Step::Arrive { modem: _, heard: _ } => Some(0),
        Step::Tick { op: _ } => Some(1),
        Step::Work { op } | Step::Collect { op } => op.checked_add(2),
        Step::Reslice { from: _, rows: _ } => None,
    }
}

/// Divides jobs among the parts of a run of so many operators, in one walk. Each part has its jobs in the order of the steps.
pub(crate) fn parts_of<'a>(
    alloc: Global,
    operators: usize,
    jobs: &[Job<'a>],
) -> Result<Vec<PartJobs<'a>>, AllocError> {
    let mut parts = parts_without_jobs(alloc, operators)?;
    for job in jobs {
        if let Some(place) = part_place(job.step) {
            if let Some(part) = parts.get_mut(place) {
                part.jobs.push(*job)?;
            }
        }
    }
    Ok(parts)
}
