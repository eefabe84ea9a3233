//! Runs of many steps of a plant's core.

use crate::fixtures::{ADDITION, ExpectedOutput, MODEM_OF_A, REPLY, is_output};
use crate::opening::{core, strict};
use crate::step_calls::{StepCall, steps_of};
use crate::steps::{HALF, are_outs};
use operator_book::{Cause, Output};
use plant::Op;
use plant_core::{CoreFault, PlantCore, RunStop};
use run_model::Out;
use std::alloc::{AllocError, Global};
use std::process::Abort;

/// The place of the refused step, and its fault.
type Stop = Option<(usize, CoreFault)>;

/// Returns whether the only output of a run is that an operator's inbox is empty, and whether it stops as expected.
fn idles(ran: &Result<Vec<Out>, RunStop>, op: Op, wanted: Stop) -> bool {
    let idle = ExpectedOutput::Silent(None, Cause::Idle);
    match (ran, wanted) {
        (Ok(outs), None) => are_outs(outs.as_slice(), op, idle),
        (Err(stop), Some((at, fault))) => {
            stop.at == at && stop.fault == fault && are_outs(stop.outs.as_slice(), op, idle)
        }
        _ => false,
    }
}

/// Returns whether a run of some steps does so.
fn runs_so(
    alloc: Global,
    core: &mut PlantCore,
    calls: &[StepCall],
    op: Op,
    wanted: Stop,
) -> Result<bool, AllocError> {
    let steps = steps_of(alloc, calls)?;
    Ok(idles(&core.run(alloc, steps.as_slice()), op, wanted))
}

/// The second step is refused, since there is no frame to collect. The first has its output, and the third is not done.
const STOPPED: [StepCall; 3] = [StepCall::Work(0), StepCall::Collect(0), StepCall::Work(1)];

/// Returns whether a stopped run returns the outputs before the refused step, and whether the core then goes on from there.
fn goes_on(alloc: Global, core: &mut PlantCore) -> Result<bool, AllocError> {
    let stop = Some((1, CoreFault::NothingToCollect { op: 0 }));
    let stopped = runs_so(alloc, core, &STOPPED, 0, stop)?;
    let went_on = runs_so(alloc, core, &[StepCall::Work(1)], 1, None)?;
    let lengths = (
        history_len(core, 0),
        history_len(core, 1),
        history_len(core, 2),
    );
    Ok(stopped && went_on && lengths == (Some(1), Some(1), None))
}

/// Returns how many entries the history of an operator has.
pub(crate) fn history_len(core: &PlantCore, op: Op) -> Option<usize> {
    Some(core.history(op)?.len())
}

/// Returns the same of the core of operators A and B.
fn core_goes_on(alloc: Global) -> Result<bool, AllocError> {
    match &mut core(alloc, strict!(alloc), strict!(alloc))? {
        Some(core) => goes_on(alloc, core),
        None => Ok(false),
    }
}

#[test]
fn a_run_stops_at_a_refused_step(rt: HostRuntime) -> Result<(), AllocError> {
    assert!(rt; core_goes_on(rt.alloc())?);
    Ok(())
}

/// A step of each kind, and the collection that makes the MAP.
pub(crate) const ALL_KINDS: &[StepCall] = &[
    StepCall::Reslice(1, HALF),
    StepCall::Arrive(MODEM_OF_A, ADDITION),
    StepCall::Work(0),
    StepCall::Tick(0),
    StepCall::Tick(1),
    StepCall::Collect(0),
    StepCall::Collect(1),
];

/// Returns whether outputs are the reply to the addition, a frame of each operator, and their MAP.
pub(crate) fn are_of_all_kinds(outs: &[Out]) -> bool {
    match outs {
        [
            Out::Of {
                op: 0,
                output: reply,
            },
            Out::Of {
                op: 0,
                output: Output::Frame {
                    number: 0,
                    elements: _,
                },
            },
            Out::Of {
                op: 1,
                output: Output::Frame {
                    number: 0,
                    elements: _,
                },
            },
            Out::Map(made),
        ] => is_output(reply, ExpectedOutput::Reply(REPLY)) && made.frame == 0,
        _ => false,
    }
}

/// Returns whether a run of a step of each kind has the outputs of each.
fn all_kinds_run(alloc: Global) -> Result<bool, AllocError> {
    let Some(mut core) = core(alloc, strict!(alloc), strict!(alloc))? else {
        return Ok(false);
    };
    let steps = steps_of(alloc, ALL_KINDS)?;
    match core.run(alloc, steps.as_slice()) {
        Ok(outs) => Ok(are_of_all_kinds(outs.as_slice())),
        Err(_) => Ok(false),
    }
}

#[test]
fn a_run_does_a_step_of_each_kind(rt: HostRuntime) -> Result<(), AllocError> {
    assert!(rt; all_kinds_run(rt.alloc())?);
    Ok(())
}
