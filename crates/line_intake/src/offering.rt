//! Lines of an input, put into its queue one after the other.

use crate::intake::Intake;
use crate::reading::read_line;
use crate::state::OfferFault;
use crate::tick_rule::TickRule;
use fair_queue::{Line, OwnerLine};
use std::alloc::Global;
use std::io;
use std::io::BufRead;
use std::sync::Wait;

/// Returns whether more lines may be offered, or why none may.
fn goes_on(offered: Result<(), OfferFault>) -> io::Result<bool> {
    match offered {
        Ok(()) => Ok(true),
        Err(OfferFault::Stopped) => Ok(false),
        Err(OfferFault::Full) => Err(io::Error::from(io::ErrorKind::InvalidInput)),
        Err(OfferFault::NoMemory) => Err(io::Error::from(io::ErrorKind::OutOfMemory)),
    }
}

/// Puts each line of the reader into the queue of this operator, up to the end of the input or until the intake stops.
pub(crate) fn offer_lines<R: Wait, B: BufRead>(
    rt: &R,
    alloc: Global,
    intake: &Intake,
    op: usize,
    reader: &mut B,
) -> io::Result<()> {
    let Some(room) = intake.room.get(op) else {
        return Err(io::Error::from(io::ErrorKind::InvalidInput));
    };
    for _ in rt.forever() {
        let Some(line) = read_line(alloc, reader)? else {
            return Ok(());
        };
        let bytes = line.len();
        let mut state = room.wait_while(rt, intake.state.lock(rt), |state| {
            state.must_wait(op, bytes)
        });
        let offered = state.offer(op, Line::new(line));
        drop(state);
        if !goes_on(offered)? {
            return Ok(());
        }
        intake.arrived.notify_one();
    }
    unreachable!()
}

/// Puts each line of the reader into the owner's queue, up to the end of the input or until the intake stops.
pub(crate) fn offer_owner_lines<R: Wait, B: BufRead, K: TickRule>(
    rt: &R,
    alloc: Global,
    intake: &Intake,
    rule: &K,
    reader: &mut B,
) -> io::Result<()> {
    for _ in rt.forever() {
        let Some(line) = read_line(alloc, reader)? else {
            return Ok(());
        };
        let bytes = line.len();
        let is_tick = rule.is_tick(line.as_slice());
        let mut state = intake
            .owner_room
            .wait_while(rt, intake.state.lock(rt), |state| {
                state.must_owner_wait(bytes)
            });
        let offered = state.offer_owner(OwnerLine {
            line: Line::new(line),
            is_tick,
        });
        drop(state);
        if !goes_on(offered)? {
            return Ok(());
        }
        intake.arrived.notify_one();
    }
    unreachable!()
}
