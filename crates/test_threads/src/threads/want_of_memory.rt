//! Calls of an operator's cell where one request for memory is refused: the refused call answers out
//! of memory by its name and leaves the cell as it was, and made once more it answers what it answers
//! otherwise. A turn that is refused stops the turns, and the call without a turn then does it. Out of
//! memory elsewhere ends a test early. Without a refusal the tests show that the calls answer at all.

use crate::threads::cells::{
    ADDITION, arrives, collects, collects_behind, has_arrived, has_frame, has_replied, has_stopped,
    is_taken, replies, ticks,
};
use crate::threads::opening::{modem, opened_cell, strict};
use operator_book::{Action, BookFault, Heard};
use plant_workers::{CellFault, OpenGate, OperatorCell, Receipt};
use std::alloc::{AllocError, Global};
use std::sync::Wait;
use std::test::Fail;
use tlv24::Bytes;

/// Returns whether a call was refused memory.
fn is_refused(answer: &Result<Receipt, CellFault>) -> bool {
    match answer {
        Ok(_) => false,
        Err(fault) => *fault == CellFault::Book(BookFault::NoMemory),
    }
}

/// Returns whether an addition is the first entry.
fn arrives_again<R: Wait>(rt: &R, alloc: Global, cell: &OperatorCell) -> Result<bool, AllocError> {
    let heard = Heard::Message(Bytes::from_slice(alloc, &ADDITION)?);
    let answer = cell.arrive(rt, alloc, modem(1), heard);
    if is_refused(&answer) {
        arrives(rt, alloc, cell, 0)
    } else {
        Ok(has_arrived(&answer, 0))
    }
}

/// Returns whether work gives the reply as the second entry.
fn replies_again<R: Wait>(rt: &R, alloc: Global, cell: &OperatorCell) -> bool {
    let answer = cell.work(rt, alloc);
    if is_refused(&answer) {
        replies(rt, alloc, cell, 1)
    } else {
        has_replied(&answer, 1)
    }
}

/// Returns whether a tick gives the first frame as the third entry.
fn ticks_again<R: Wait>(rt: &R, alloc: Global, cell: &OperatorCell) -> bool {
    let answer = cell.tick(rt, alloc);
    if is_refused(&answer) {
        ticks(rt, alloc, cell, 2, 0)
    } else {
        has_frame(&answer, 2, 0)
    }
}

/// Returns whether the first frame is collected.
fn collects_again<R: Wait>(rt: &R, alloc: Global, cell: &OperatorCell) -> bool {
    match &cell.collect(rt, alloc) {
        Ok(taken) => is_taken(taken, 0),
        Err(_) => collects(rt, alloc, cell, 0),
    }
}

/// Returns whether the frame of a tick in a turn is collected after it.
fn collects_behind_again<R: Wait>(rt: &R, alloc: Global, cell: &OperatorCell) -> bool {
    match &cell.collect_after(rt, alloc, 4) {
        Ok(taken) => is_taken(taken, 1),
        Err(fault) => {
            *fault == CellFault::Book(BookFault::NoMemory) && collects_behind(rt, alloc, cell, 4, 1)
        }
    }
}

/// Returns whether the turns have stopped, and a tick without a turn is the fourth entry.
fn ticks_without_turn<R: Wait>(rt: &R, alloc: Global, cell: &OperatorCell) -> bool {
    has_stopped(rt, alloc, cell, 3) && ticks(rt, alloc, cell, 3, 1) && collects(rt, alloc, cell, 1)
}

/// Returns whether a tick in a turn gives the second frame as the fourth entry.
fn takes_turn_again<R: Wait>(rt: &R, alloc: Global, cell: &OperatorCell) -> bool {
    let answer = cell.in_turn(rt, alloc, 3, Action::Tick, &OpenGate);
    if is_refused(&answer) {
        ticks_without_turn(rt, alloc, cell)
    } else {
        has_frame(&answer, 3, 1) && collects_behind_again(rt, alloc, cell)
    }
}

/// Returns whether the calls of a cell answer what they do with memory.
fn calls_again<R: Wait>(rt: &R, alloc: Global, cell: &OperatorCell) -> Result<bool, AllocError> {
    Ok(
        arrives_again(rt, alloc, cell)?
            && replies_again(rt, alloc, cell)
            && ticks_again(rt, alloc, cell)
            && collects_again(rt, alloc, cell)
            && takes_turn_again(rt, alloc, cell),
    )
}

#[test]
fn each_call_of_a_cell(rt: HostRuntime) -> Result<(), Fail> {
    let alloc = rt.alloc();
    let cell = opened_cell(alloc, strict!(alloc)).ok_or("no cell")?;
    assert!(rt; calls_again(&rt, alloc, &cell)?);
    Ok(())
}
