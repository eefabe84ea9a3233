//! Runs on threads of which a step is refused.

use crate::threads::playing::steps_come_to;
use operator_book::SliceRow;
use plant_core::{CoreFault, ResliceFault};
use plant_workers::{OpenGate, RunFault};
use std::alloc::{AllocError, Global};
use std::process::Abort;
use std::sync::Wait;
use std::thread::Threads;
use test_cores::{StepCall, UNKNOWN_MODEM, steps_of};

/// A run in which a second frame is collected where there is one.
const COLLECTED_TWICE: &[StepCall] = &[
    StepCall::Tick(1),
    StepCall::Tick(0),
    StepCall::Collect(0),
    StepCall::Collect(0),
];

/// Slices of both operators as they are already.
const SAME: &[SliceRow] = &[
    SliceRow {
        start: 8,
        length: 32,
        budget: 32,
    },
    SliceRow {
        start: 40,
        length: 32,
        budget: 32,
    },
];

/// Runs, and the fault of the first step that cannot be served; or of the slices that are refused at their place.
const ROWS: [(&[StepCall], RunFault); 5] = [
    (
        &[StepCall::Work(0), StepCall::Arrive(UNKNOWN_MODEM, &[])],
        RunFault::Core(CoreFault::UnknownModem {
            modem: UNKNOWN_MODEM,
        }),
    ),
    (
        &[StepCall::Work(2), StepCall::Arrive(UNKNOWN_MODEM, &[])],
        RunFault::Core(CoreFault::UnknownOperator { op: 2 }),
    ),
    (
        &[StepCall::Tick(1), StepCall::Collect(0)],
        RunFault::Core(CoreFault::NothingToCollect { op: 0 }),
    ),
    (
        COLLECTED_TWICE,
        RunFault::Core(CoreFault::NothingToCollect { op: 0 }),
    ),
    (
        &[
            StepCall::Tick(0),
            StepCall::Work(1),
            StepCall::Reslice(1, SAME),
        ],
        RunFault::ResliceRefused {
            at: 2,
            fault: ResliceFault::NotPast { op: 0 },
        },
    ),
];

/// Returns whether a run of some steps is refused with this fault.
fn is_refused<R: Threads + Wait + Sync>(
    rt: &R,
    alloc: Global,
    calls: &[StepCall],
    fault: RunFault,
) -> Result<bool, AllocError> {
    let steps = steps_of(alloc, calls)?;
    steps_come_to(rt, alloc, steps, &OpenGate, &[], Err(fault))
}

#[test]
fn a_run_returns_the_fault_of_the_first_refused_step(rt: HostRuntime) -> Result<(), AllocError> {
    for (calls, fault) in ROWS {
        assert!(rt; is_refused(&rt, rt.alloc(), calls, fault)?);
    }
    Ok(())
}
