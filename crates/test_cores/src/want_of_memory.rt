//! Calls of cores and of receipts where one request for memory is refused.
//! `tools/compare/failed_library_allocations.sh` runs each test again and again, and refuses another
//! request in each run: the refused call answers out of memory by its name and leaves its value as it
//! was, and made once more it answers what it answers otherwise. Out of memory elsewhere ends a test
//! early, and it says so. Without a refusal the tests show that the calls answer at all.

use crate::opening::{core, strict};
use crate::runs::{ALL_KINDS, are_of_all_kinds, history_len};
use crate::settling::{Note, both_books, fault_of_settling};
use crate::step_calls::steps_of;
use plant_core::{CoreFault, PlantCore, RunStop};
use plant_workers::RunFault;
use run_model::{Out, Step};
use std::alloc::{AllocError, Global};
use std::process::Abort;

/// Returns how many actions of the first operator are among the first steps of `ALL_KINDS`, which
/// begin with a slice change of both operators.
fn actions_before(at: usize) -> usize {
    at.min(4)
}

/// Returns the outputs of the steps from this place on; nothing where the run is refused, or where
/// the core has done other steps than those before this place.
fn rest_of_run(alloc: Global, core: &mut PlantCore, steps: &[Step], at: usize) -> Option<Vec<Out>> {
    if history_len(core, 0)? != actions_before(at) {
        return None;
    }
    core.run(alloc, steps.get(at..)?).ok()
}

/// Returns the outputs of a run that is made again from the step that was refused memory.
fn outputs_of_both(
    alloc: Global,
    core: &mut PlantCore,
    steps: &[Step],
    stop: RunStop,
) -> Result<Option<Vec<Out>>, AllocError> {
    let mut outs = stop.outs;
    match rest_of_run(alloc, core, steps, stop.at) {
        Some(mut more) => {
            outs.append(&mut more)?;
            Ok(Some(outs))
        }
        None => Ok(None),
    }
}

/// Returns the outputs of a run, made again where memory is refused.
fn outputs_again(
    alloc: Global,
    core: &mut PlantCore,
    steps: &[Step],
) -> Result<Option<Vec<Out>>, AllocError> {
    match core.run(alloc, steps) {
        Ok(outs) => Ok(Some(outs)),
        Err(stop) => {
            if stop.fault == CoreFault::NoMemory {
                outputs_of_both(alloc, core, steps, stop)
            } else {
                Ok(None)
            }
        }
    }
}

/// Returns whether a run of a step of each kind has the outputs of each, and the histories as many
/// entries as it has actions.
fn runs_again(alloc: Global) -> Result<bool, AllocError> {
    let Some(mut core) = core(alloc, strict!(alloc), strict!(alloc))? else {
        return Err(AllocError);
    };
    let steps = steps_of(alloc, ALL_KINDS)?;
    let outs = outputs_again(alloc, &mut core, steps.as_slice())?;
    let is_right = match &outs {
        Some(outs) => are_of_all_kinds(outs.as_slice()),
        None => false,
    };
    Ok(is_right && history_len(&core, 0) == Some(4) && history_len(&core, 1) == Some(2))
}

#[test]
fn a_run_goes_on(rt: HostRuntime) -> Result<(), AllocError> {
    assert!(rt; runs_again(rt.alloc())?);
    Ok(())
}

/// Returns the fault of the receipts of operator A's two callers, if there is one.
fn settling_fault(alloc: Global) -> Result<Option<RunFault>, AllocError> {
    let Some((first, second)) = both_books(alloc, strict!(alloc), strict!(alloc))? else {
        return Err(AllocError);
    };
    fault_of_settling(alloc, first, second, &[&[Note::Arrived], &[Note::Worked]])
}

/// Returns whether receipts settle with their books, with equal ones where memory is refused.
fn settles_again(alloc: Global) -> Result<bool, AllocError> {
    match settling_fault(alloc)? {
        Some(RunFault::NoMemory) => Ok(settling_fault(alloc)?.is_none()),
        fault => Ok(fault.is_none()),
    }
}

#[test]
fn receipts_settle(rt: HostRuntime) -> Result<(), AllocError> {
    assert!(rt; settles_again(rt.alloc())?);
    Ok(())
}
