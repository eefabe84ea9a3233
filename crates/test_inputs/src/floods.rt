//! An operator that sends without an end, and one whose writer never comes: the others are served, and all threads end.

use crate::ends::tally_of;
use crate::inputs::{Sender, TestInputs};
use crate::tally::Tally;
use std::alloc::{AllocError, Global};
use std::process::Abort;
use std::sync::Wait;
use std::thread::Threads;

/// Returns whether the lines of an operator are a beginning of these.
fn has_beginning(tally: &Tally, op: usize, wanted: &[u8]) -> bool {
    match tally.lines.get(op) {
        Some(lines) => lines.len() <= wanted.len() && lines.as_slice() == &wanted[..lines.len()],
        None => false,
    }
}

/// Returns whether all ticks are taken, and lines of another operator in order, though one operator sends so.
fn serves_others<R: Threads + Wait + Sync>(
    rt: &R,
    alloc: Global,
    sender: Sender,
) -> Result<bool, AllocError> {
    let senders = [sender];
    let inputs = TestInputs::new(b"T\nT\nT\nT\n", b"one\ntwo\n", &senders);
    match tally_of(rt, alloc, 2, &inputs, 4)? {
        Some(tally) => Ok(
            has_beginning(&tally, 1, b"one|two|")
                && tally.owner.as_slice() == b"T|T|T|T|".as_slice()
                && tally.is_numbered
                && tally.early_ticks == 0,
        ),
        None => Ok(false),
    }
}

#[test]
fn a_flood_delays_no_tick(rt: HostRuntime) -> Result<(), AllocError> {
    assert!(rt; serves_others(&rt, rt.alloc(), Sender::Flood)?);
    Ok(())
}

#[test]
fn an_input_without_a_writer_delays_nobody(rt: HostRuntime) -> Result<(), AllocError> {
    assert!(rt; serves_others(&rt, rt.alloc(), Sender::Silence)?);
    Ok(())
}
