//! What is seen of a step before it is done.

ghost use Rattle.std.specs.Prelude.{◌≡◌, None, IfOk, OnErr};
ghost use Rattle.plant_core.specs.CoreView.{core_view};
ghost use Rattle.plant_core.specs.live.Faults.{step_fault};
ghost use Rattle.plant_core.specs.live.LiveView.{live_view};
ghost use Rattle.trace_report.specs.Decision.{first_message, IsDecisionOf, IsDecision};

use crate::checks::OperatorSnapshot;
use crate::comparison::{CheckComparison, comparison_of};
use crate::decision::{Decision, decision_at};
use operator_model::{Arrival, Heard};
use plant_core::{LiveCore, PlantCore};
use run_model::Step;
use std::alloc::{AllocError, Global};

/// What a step is about, as far as what it outputs does not tell that.
#[derive(Clone, Copy, Debug, PartialEq, Eq)]
pub(crate) enum About {
    /// No message and no request, or a message that ends before its transaction ID.
    Nothing,
    /// A message of this transaction ID.
    Transaction { tid: u16 },
    /// A request of this SID for so many minislots.
    Sid { sid: u16, minislots: u16 },
}

/// What is seen of a step before it is done.
#[derive(Clone, Copy, Debug, PartialEq, Eq)]
pub struct StepReport {
    /// The check that decides what it will answer.
    pub decision: Option<Decision>,
    /// The numbers that the check compares; none where it compares none.
    pub comparison: Option<CheckComparison>,
    /// What it is about.
    pub(crate) about: About,
}

impl StepReport {
    /// Returns a report of a step that no check decides.
    fn without_decision(about: About) -> StepReport
        ensures { result.decision ≡ None }
    {
        StepReport {
            decision: None,
            comparison: None,
            about,
        }
    }
}

/// Returns what a step is about that handles this.
fn about_heard(heard: &Heard) -> About {
    match heard {
        Heard::Request { sid, minislots } => About::Sid {
            sid: *sid,
            minislots: *minislots,
        },
        Heard::Message(bytes) => match bytes.as_slice() {
            [_mtype, high, low, ..] => About::Transaction {
                tid: u16::from_be_bytes([*high, *low]),
            },
            _ => About::Nothing,
        },
    }
}

/// Returns what a step is about that is not done by an operator's machine at work.
fn about_other(step: &Step) -> About {
    match step {
        Step::Arrive { modem: _, heard } => about_heard(heard),
        _ => About::Nothing,
    }
}

/// Returns the numbers that a check compares, of the first of an operator's inbox; and what that is
/// about.
fn numbers_at(
    alloc: Global,
    operator_snapshot: &OperatorSnapshot,
    decision: Option<Decision>,
) -> Result<(Option<CheckComparison>, About), AllocError> {
    match operator_snapshot.state().inbox().first() {
        None => Ok((None, About::Nothing)),
        Some(Arrival { modem: _, heard }) => {
            let comparison = comparison_of(alloc, operator_snapshot, heard, decision)?;
            Ok((comparison, about_heard(heard)))
        }
    }
}

/// Returns what is seen of the first of an operator's inbox.
fn report_at(alloc: Global, operator_snapshot: &OperatorSnapshot) -> Result<StepReport, AllocError>
    ensures { IfOk result (λ seen. IsDecisionOf (first_message operator_snapshot.now operator_snapshot.now.state.inbox) seen.decision) }
{
    let decision = decision_at(alloc, operator_snapshot)?;
    let (comparison, about) = numbers_at(alloc, operator_snapshot, decision)?;
    Ok(StepReport {
        decision,
        comparison,
        about,
    })
}

/// Returns what is seen of a step of a core without histories before it is done: the check that decides what it will answer, which
/// is that of the message that it handles, and the numbers that the check compares. No check decides a step that handles no message
/// or an acknowledgement. A step that handles a message needs memory for a copy of the operator's state; no other does.
pub fn live_decision_of(
    alloc: Global,
    core: &LiveCore,
    step: &Step,
) -> Result<StepReport, AllocError>
    ensures decision { IfOk result (λ seen. IsDecision (live_view core.now) step.now seen.decision) }
    // Only a step that the core does not refuse needs memory.
    ensures memory { OnErr result (step_fault (live_view core.now) step.now ≡ None) }
{
    let Step::Work { op } = step else {
        return Ok(StepReport::without_decision(about_other(step)));
    };
    match core.machine(*op) {
        None => Ok(StepReport::without_decision(About::Nothing)),
        Some(machine) => {
            let operator_snapshot = OperatorSnapshot::of_machine(alloc, machine)?;
            report_at(alloc, &operator_snapshot)
        }
    }
}

/// Returns the same of a step of a core with histories, as `live_decision_of` does of a core without them.
pub fn decision_of(alloc: Global, core: &PlantCore, step: &Step) -> Result<StepReport, AllocError>
    // The check of the message, or of the request if none of the message before it holds; none if no message is
    // handled. No clause says which numbers a check compares.
    ensures decision { IfOk result (λ seen. IsDecision (core_view core.now) step.now seen.decision) }
    // Only a step that the core does not refuse needs memory.
    ensures memory { OnErr result (step_fault (core_view core.now) step.now ≡ None) }
{
    live_decision_of(alloc, core.live(), step)
}
