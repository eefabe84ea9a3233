//! Inputs that end: all their lines are taken, each in its order, and all threads end.

use crate::inputs::{Sender, TestInputs};
use crate::queues::intake_of;
use crate::tally::Tally;
use line_intake::run_inputs;
use std::alloc::{AllocError, Global};
use std::process::Abort;
use std::sync::Wait;
use std::thread::Threads;

/// Returns what is taken of so many operators, or nothing if memory runs out or a thread cannot be made.
pub(crate) fn tally_of<R: Threads + Wait + Sync>(
    rt: &R,
    alloc: Global,
    operators: usize,
    inputs: &TestInputs<'_>,
    most_ticks: usize,
) -> Result<Option<Tally>, AllocError> {
    // As many lines as an operator sends, so that none is held back after the last tick.
    let Some(intake) = intake_of(alloc, operators, 4) else {
        return Ok(None);
    };
    let mut tally = Tally::new(alloc, operators, most_ticks)?;
    if run_inputs(rt, alloc, &intake, inputs, &mut tally).is_err() {
        return Ok(None);
    }
    Ok(Some(tally))
}

/// Returns whether each operator has these lines.
fn have_lines(tally: &Tally, wanted: &[u8]) -> bool {
    for lines in tally.lines.iter() {
        if lines.as_slice() != wanted {
            return false;
        }
    }
    true
}

/// Returns whether so many operators have these lines, and the owner has its own, with ticks at the ends of batches alone.
fn takes_all<R: Threads + Wait + Sync>(
    rt: &R,
    alloc: Global,
    operators: usize,
) -> Result<bool, AllocError> {
    let inputs = TestInputs::new(b"K\nT\nT\nP", b"one\n\ntwo\nthree", &[]);
    match tally_of(rt, alloc, operators, &inputs, 3)? {
        Some(tally) => Ok(
            have_lines(&tally, b"one||two|three|")
                && tally.owner.as_slice() == b"K|T|T|P|".as_slice()
                && tally.is_numbered
                && tally.early_ticks == 0
                && tally.failures == 0,
        ),
        None => Ok(false),
    }
}

#[test]
fn all_lines_of_ended_inputs_are_taken(rt: HostRuntime) -> Result<(), AllocError> {
    assert!(rt; takes_all(&rt, rt.alloc(), 2)?);
    Ok(())
}

#[test]
fn thirty_two_inputs_are_read_at_once(rt: HostRuntime) -> Result<(), AllocError> {
    assert!(rt; takes_all(&rt, rt.alloc(), 32)?);
    Ok(())
}

/// Returns whether an input that cannot be read is reported once, and the lines before that and of others are taken.
fn reports_failure<R: Threads + Wait + Sync>(rt: &R, alloc: Global) -> Result<bool, AllocError> {
    let inputs = TestInputs::new(b"T\nT\n", b"one\ntwo\n", &[Sender::Failure]);
    match tally_of(rt, alloc, 2, &inputs, 3)? {
        Some(tally) => Ok(have_lines(&tally, b"one|two|") && tally.failures == 1),
        None => Ok(false),
    }
}

#[test]
fn a_failed_read_is_reported_once(rt: HostRuntime) -> Result<(), AllocError> {
    assert!(rt; reports_failure(&rt, rt.alloc())?);
    Ok(())
}

/// Returns whether a reader of an intake that stops before it begins reads nothing.
fn reads_nothing<R: Wait>(rt: &R, alloc: Global) -> bool {
    let Some(intake) = intake_of(alloc, 1, 1) else {
        return false;
    };
    intake.stop(rt);
    let mut text = b"one\n".as_slice();
    intake.read_operator(rt, alloc, 0, &mut text).is_ok() && text == b"one\n".as_slice()
}

#[test]
fn nothing_is_read_before_all_threads_are_made(rt: HostRuntime) {
    assert!(rt; reads_nothing(&rt, rt.alloc()));
}
