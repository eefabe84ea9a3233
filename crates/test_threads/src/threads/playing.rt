//! Steps of two operators, run on threads.

use crate::threads::opening::{modem, strict};
use grant_policy::Ranking;
use operator_book::Heard;
use plant::Plant;
use plant_workers::{Gate, RunFault, Settled, are_ranked, run_workers_on};
use run_model::Step;
use slice_table::read_plant;
use std::alloc::{AllocError, Global};
use std::sync::Wait;
use std::thread::Threads;
use test_plants::PLANT;

/// Returns a modem requests minislots.
fn asks(last: u8) -> Step {
    Step::Arrive {
        modem: modem(last),
        heard: Heard::Request {
            sid: 1,
            minislots: 1,
        },
    }
}

/// Whose modem is received first.
#[derive(Clone, Copy, Debug, PartialEq, Eq)]
pub(crate) enum FirstModem {
    FirstIsA,
    FirstIsB,
}

/// Returns the requests for minislots of a modem of each operator.
fn requests(order: FirstModem) -> [Step; 2] {
    match order {
        FirstModem::FirstIsA => [asks(1), asks(3)],
        FirstModem::FirstIsB => [asks(3), asks(1)],
    }
}

/// Returns the steps of a run: a modem of each operator requests minislots; then each operator
/// works, ticks, and has its frame collected.
pub(crate) fn steps_of_both(alloc: Global, order: FirstModem) -> Result<Vec<Step>, AllocError> {
    let [first, second] = requests(order);
    let steps = [
        first,
        second,
        Step::Work { op: 0 },
        Step::Tick { op: 0 },
        Step::Collect { op: 0 },
        Step::Work { op: 1 },
        Step::Tick { op: 1 },
        Step::Collect { op: 1 },
    ];
    Ok(Vec::from_array(alloc, steps)?)
}

/// Returns whether a run results in so many MAPs, or to this fault.
fn is_settled(settled: &Result<Settled, RunFault>, wanted: Result<usize, RunFault>) -> bool {
    match (settled, wanted) {
        (Ok(settled), Ok(maps)) => settled.maps.len() == maps,
        (Err(fault), Err(wanted)) => *fault == wanted,
        _ => false,
    }
}

/// Returns whether a run of the steps on threads, over a plant with these rankings, results in
/// that.
fn run_comes_to<R: Threads + Wait + Sync, G: Gate<R> + Sync>(
    rt: &R,
    alloc: Global,
    plant: Plant,
    rankings: Vec<Ranking>,
    steps: Vec<Step>,
    gate: &G,
    stacks: &[usize],
    wanted: Result<usize, RunFault>,
) -> Result<bool, AllocError> {
    if are_ranked(&plant, rankings.as_slice()) {
        let settled = run_workers_on(rt, alloc, plant, rankings, steps, gate, stacks);
        Ok(is_settled(&settled, wanted))
    } else {
        Ok(false)
    }
}

/// Returns whether a run of some steps on threads, over the plant of operators A and B, gives so many MAPs, or this fault.
pub(crate) fn steps_come_to<R: Threads + Wait + Sync, G: Gate<R> + Sync>(
    rt: &R,
    alloc: Global,
    steps: Vec<Step>,
    gate: &G,
    stacks: &[usize],
    wanted: Result<usize, RunFault>,
) -> Result<bool, AllocError> {
    let rankings = Vec::from_array(alloc, [strict!(alloc), strict!(alloc)])?;
    match read_plant(alloc, PLANT) {
        Ok(plant) => run_comes_to(rt, alloc, plant, rankings, steps, gate, stacks, wanted),
        Err(_) => Ok(false),
    }
}

/// Returns whether a run of steps of both operators gives so many MAPs, or this fault.
pub(crate) fn comes_to<R: Threads + Wait + Sync, G: Gate<R> + Sync>(
    rt: &R,
    alloc: Global,
    gate: &G,
    stacks: &[usize],
    wanted: Result<usize, RunFault>,
) -> Result<bool, AllocError> {
    let steps = steps_of_both(alloc, FirstModem::FirstIsA)?;
    steps_come_to(rt, alloc, steps, gate, stacks, wanted)
}
