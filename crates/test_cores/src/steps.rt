//! Steps of a plant's core, and their outputs.

use crate::fixtures::{ExpectedOutput, MODEM_OF_A, REPLY, UNKNOWN_MODEM, is_output};
use crate::opening::{core, strict};
use crate::step_calls::{StepCall, step_of};
use operator_book::SliceRow;
use plant::Op;
use plant_core::{CoreFault, CoreOpenFault, PlantCore, ResliceFault};
use run_model::Out;
use slice_table::read_plant;
use std::alloc::{AllocError, Global};
use std::process::Abort;
use test_plants::PLANT;

/// Returns whether outputs are the expected one of an operator alone, or none where none is expected.
pub(crate) fn are_outs(outs: &[Out], op: Op, wanted: ExpectedOutput) -> bool {
    match outs {
        [] => wanted == ExpectedOutput::Nothing,
        [Out::Of { op: of, output }] => *of == op && is_output(output, wanted),
        _ => false,
    }
}

/// A step, and the operator and the output that are expected, or the fault.
type StepRow = (StepCall, Result<(Op, ExpectedOutput), CoreFault>);

/// Returns whether a step has the expected output or fault.
fn is_expected(
    returned: &Result<Vec<Out>, CoreFault>,
    wanted: Result<(Op, ExpectedOutput), CoreFault>,
) -> bool {
    match (returned, wanted) {
        (Ok(outs), Ok((op, wanted))) => are_outs(outs.as_slice(), op, wanted),
        (Err(fault), Err(wanted)) => *fault == wanted,
        _ => false,
    }
}

/// Returns whether a core does a step as expected.
fn does(alloc: Global, core: &mut PlantCore, row: StepRow) -> Result<bool, AllocError> {
    let (call, wanted) = row;
    let step = step_of(alloc, call)?;
    Ok(is_expected(&core.step(alloc, step), wanted))
}

/// Returns whether a core does steps as expected, one after the other.
fn does_all(alloc: Global, core: &mut PlantCore, rows: &[StepRow]) -> Result<bool, AllocError> {
    for row in rows {
        if !does(alloc, core, *row)? {
            return Ok(false);
        }
    }
    Ok(true)
}

/// Returns whether the core of operators A and B does steps as expected.
fn core_does(alloc: Global, rows: &[StepRow]) -> Result<bool, AllocError> {
    match &mut core(alloc, strict!(alloc), strict!(alloc))? {
        Some(core) => does_all(alloc, core, rows),
        None => Ok(false),
    }
}

/// The modem, the operator and the frame do not exist.
const NOT_THERE: &[StepRow] = &[
    (
        StepCall::Arrive(UNKNOWN_MODEM, &[]),
        Err(CoreFault::UnknownModem {
            modem: UNKNOWN_MODEM,
        }),
    ),
    (StepCall::Work(2), Err(CoreFault::UnknownOperator { op: 2 })),
    (
        StepCall::Collect(0),
        Err(CoreFault::NothingToCollect { op: 0 }),
    ),
];

/// Slices of operators: the first minislot, the number of minislots and the budget of each.
macro_rules! slices {
    ($(($start:expr, $length:expr, $budget:expr)),*) => {
        &[$(SliceRow { start: $start, length: $length, budget: $budget }),*]
    };
}

/// Half of A's minislots go to B.
pub(crate) const HALF: &[SliceRow] = slices![(8, 16, 16), (24, 48, 32)];

/// Slices that are refused for one reason each; then slices that are accepted, and others before these are in force.
const RESLICES: &[StepRow] = &[
    (
        StepCall::Reslice(1, slices![(8, 16, 16)]),
        Err(CoreFault::Reslice(ResliceFault::Count)),
    ),
    (
        StepCall::Reslice(0, HALF),
        Err(CoreFault::Reslice(ResliceFault::NotPast { op: 0 })),
    ),
    (
        StepCall::Reslice(1, slices![(7, 16, 16), (24, 48, 32)]),
        Err(CoreFault::Reslice(ResliceFault::OffFrame { op: 0 })),
    ),
    (
        StepCall::Reslice(1, slices![(8, 17, 16), (24, 48, 32)]),
        Err(CoreFault::Reslice(ResliceFault::SlicesMeet { a: 0, b: 1 })),
    ),
    (
        StepCall::Reslice(1, slices![(8, 16, 17), (24, 48, 32)]),
        Err(CoreFault::Reslice(ResliceFault::BudgetOverSlice { op: 0 })),
    ),
    (StepCall::Reslice(1, HALF), Ok((0, ExpectedOutput::Nothing))),
    (
        StepCall::Reslice(2, HALF),
        Err(CoreFault::Reslice(ResliceFault::Unfinished { op: 0 })),
    ),
];

/// Grants of A take its whole budget of 32 minislots. Then slices are refused that leave it 16.
const COMMITTED: &[StepRow] = &[
    (
        StepCall::Arrive(
            MODEM_OF_A,
            &[
                15, 0, 1, 24, 23, 1, 2, 0, 1, 6, 1, 6, 15, 1, 6, 19, 2, 2, 0, 20, 4, 0, 0, 7, 0xD0,
                22, 1, 1,
            ],
        ),
        Ok((0, ExpectedOutput::Nothing)),
    ),
    (StepCall::Work(0), Ok((0, ExpectedOutput::Reply(REPLY)))),
    (
        StepCall::Arrive(MODEM_OF_A, &[17, 0, 1, 0]),
        Ok((0, ExpectedOutput::Nothing)),
    ),
    (StepCall::Work(0), Ok((0, ExpectedOutput::Nothing))),
    (
        StepCall::Reslice(1, HALF),
        Err(CoreFault::Reslice(ResliceFault::Unfit { op: 0 })),
    ),
];

#[test]
fn a_refused_step_returns_its_fault(rt: HostRuntime) -> Result<(), AllocError> {
    for rows in [NOT_THERE, RESLICES, COMMITTED] {
        assert!(rt; core_does(rt.alloc(), rows)?);
    }
    Ok(())
}

/// Returns whether the core of two operators is refused with one ranking.
fn is_mismatched(alloc: Global) -> Result<bool, AllocError> {
    let rankings = Vec::from_array(alloc, [strict!(alloc)])?;
    match read_plant(alloc, PLANT) {
        Ok(plant) => match PlantCore::open(alloc, plant, rankings) {
            Ok(_) => Ok(false),
            Err(fault) => Ok(fault == CoreOpenFault::RankingsMismatch),
        },
        Err(_) => Ok(false),
    }
}

#[test]
fn a_core_is_opened_with_a_ranking_for_each_operator(rt: HostRuntime) -> Result<(), AllocError> {
    assert!(rt; is_mismatched(rt.alloc())?);
    Ok(())
}
