//! Frames that pile up in a core with no history, since nothing collects them.

use operator_book::Output;
use plant::Op;
use plant_core::{CoreFault, LiveCore};
use run_model::{Out, Step};
use slice_table::read_plant;
use std::alloc::{AllocError, Global};
use std::process::Abort;
use test_plants::PLANT;

/// How many frames of each operator wait at the most.
const FRAMES: u32 = 9;

/// Opens the core of the plant of operators A and B.
fn live_core(alloc: Global) -> Option<LiveCore> {
    match read_plant(alloc, PLANT) {
        Ok(plant) => LiveCore::open(alloc, plant).ok(),
        Err(_) => None,
    }
}

/// Returns whether a tick of an operator outputs its frame of this number.
fn ticks(alloc: Global, core: &mut LiveCore, op: Op, frame: u32) -> bool {
    match core.step(alloc, Step::Tick { op }) {
        Ok(outs) => is_frame(outs.as_slice(), op, frame),
        Err(_) => false,
    }
}

/// Returns whether the only output is an operator's frame of this number.
fn is_frame(outs: &[Out], op: Op, frame: u32) -> bool {
    match outs {
        [
            Out::Of {
                op: of,
                output: Output::Frame {
                    number,
                    elements: _,
                },
            },
        ] => *of == op && *number == frame,
        _ => false,
    }
}

/// Returns whether a collection of an operator has this MAP as its output, or none.
fn collects(alloc: Global, core: &mut LiveCore, op: Op, map: Option<u32>) -> bool {
    match core.step(alloc, Step::Collect { op }) {
        Ok(outs) => is_map(outs.as_slice(), map),
        Err(_) => false,
    }
}

/// Returns whether the only output is the MAP of this frame, or there is none where none is expected.
fn is_map(outs: &[Out], map: Option<u32>) -> bool {
    match (outs, map) {
        ([], None) => true,
        ([Out::Map(made)], Some(frame)) => made.frame == frame,
        _ => false,
    }
}

/// Returns whether an operator outputs a frame in each of so many ticks.
fn ticks_on(alloc: Global, core: &mut LiveCore, op: Op) -> bool {
    for frame in 0..FRAMES {
        if !ticks(alloc, core, op, frame) {
            return false;
        }
    }
    true
}

/// Returns whether so many frames of an operator are collected, each with the MAP of its number, or each with none.
fn collects_all(alloc: Global, core: &mut LiveCore, op: Op, brings_maps: Brings) -> bool {
    for frame in 0..FRAMES {
        if !collects(alloc, core, op, map_of(brings_maps, frame)) {
            return false;
        }
    }
    true
}

/// What the collection of a frame brings.
#[derive(Clone, Copy, Debug, PartialEq, Eq)]
enum Brings {
    Nothing,
    Map,
}

/// Returns the MAP that the collection of a frame brings.
fn map_of(brings: Brings, frame: u32) -> Option<u32> {
    match brings {
        Brings::Nothing => None,
        Brings::Map => Some(frame),
    }
}

/// Returns whether the frames of both operators wait until they are collected, the oldest first, and then none waits.
fn frames_wait(alloc: Global, core: &mut LiveCore) -> bool {
    ticks_on(alloc, core, 0)
        && ticks_on(alloc, core, 1)
        && collects_all(alloc, core, 0, Brings::Nothing)
        && collects_all(alloc, core, 1, Brings::Map)
        && core.step(alloc, Step::Collect { op: 1 }).err()
            == Some(CoreFault::NothingToCollect { op: 1 })
}

/// Returns the same of the core of operators A and B.
fn frames_of_a_core_wait(alloc: Global) -> bool {
    match &mut live_core(alloc) {
        Some(core) => frames_wait(alloc, core),
        None => false,
    }
}

#[test]
fn frames_wait_until_they_are_collected(rt: HostRuntime) -> Result<(), AllocError> {
    assert!(rt; frames_of_a_core_wait(rt.alloc()));
    Ok(())
}
