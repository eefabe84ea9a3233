//! What no clause says: that calls on a cell succeed and a turn comes, and what they answer.

ghost use Rattle.std.specs.Prelude.{◌<◌, ◌^◌};

use crate::passes::cells::{FIRST, LAST, book_from};
use crate::threads::opening::{modem, opened_cell, strict};
use dsx_messages::Modem;
use operator_book::{Action, BookFault, Cause, Heard, Output, SliceRow, Unfit};
use plant_workers::{CellFault, OpenGate, OperatorCell, Receipt};
use slice_scheduler::{Elements, Iuc, Span};
use std::alloc::{AllocError, Global};
use std::process::Abort;
use std::sync::Wait;
use tlv24::Bytes;

/// A message that adds a flow.
pub(crate) const ADDITION: [u8; 15] = [15, 0, 1, 24, 10, 1, 2, 0, 1, 6, 1, 6, 15, 1, 2];

/// The reply: the first addition gets the least SFID and SID, 257 both.
const REPLY: [u8; 20] = [
    16, 0, 1, 0, 24, 14, 1, 2, 0, 1, 2, 4, 0, 0, 1, 1, 3, 2, 1, 1,
];

/// An idle frame is one span of the whole slice.
const IDLE: [Span; 1] = [Span {
    sid: 0,
    iuc: Iuc::Long,
    start: 8,
    len: 32,
}];

/// Returns whether an addition of the operator's first modem is answered by a receipt at this place
/// that outputs nothing.
pub(crate) fn arrives<R: Wait>(
    rt: &R,
    alloc: Global,
    cell: &OperatorCell,
    index: usize,
) -> Result<bool, AllocError> {
    let heard = Heard::Message(Bytes::from_slice(alloc, &ADDITION)?);
    Ok(has_arrived(&cell.arrive(rt, alloc, modem(1), heard), index))
}

/// Returns whether this is a receipt at this place that outputs nothing.
pub(crate) fn has_arrived(answer: &Result<Receipt, CellFault>, index: usize) -> bool {
    match answer {
        Ok(receipt) => receipt.index == index && receipt.outputs.as_slice().is_empty(),
        Err(_) => false,
    }
}

/// Returns whether the reply is all that is output.
fn is_reply(outputs: &[Output]) -> bool {
    match outputs {
        [Output::Reply { modem: _, bytes }] => bytes.as_slice() == REPLY.as_slice(),
        _ => false,
    }
}

/// Returns whether work is answered by a receipt at this place with the reply.
pub(crate) fn replies<R: Wait>(rt: &R, alloc: Global, cell: &OperatorCell, index: usize) -> bool {
    has_replied(&cell.work(rt, alloc), index)
}

/// Returns whether this is a receipt at this place with the reply.
pub(crate) fn has_replied(answer: &Result<Receipt, CellFault>, index: usize) -> bool {
    match answer {
        Ok(receipt) => receipt.index == index && is_reply(receipt.outputs.as_slice()),
        Err(_) => false,
    }
}

/// Returns whether silence at an empty inbox is all that is output.
fn is_idle(outputs: &[Output]) -> bool {
    match outputs {
        [Output::Silent { modem: _, cause }] => *cause == Cause::Idle,
        _ => false,
    }
}

/// Returns whether this is a receipt at this place for which there was nothing to do.
pub(crate) fn has_idled(answer: &Result<Receipt, CellFault>, index: usize) -> bool {
    match answer {
        Ok(receipt) => receipt.index == index && is_idle(receipt.outputs.as_slice()),
        Err(_) => false,
    }
}

/// Returns whether work is answered by a receipt at this place: there is nothing to do.
fn idles<R: Wait>(rt: &R, alloc: Global, cell: &OperatorCell, index: usize) -> bool {
    has_idled(&cell.work(rt, alloc), index)
}

/// Returns whether a frame is all that is output.
fn is_frame(outputs: &[Output], wanted: u32) -> bool {
    match outputs {
        [
            Output::Frame {
                number,
                elements: _,
            },
        ] => *number == wanted,
        _ => false,
    }
}

/// Returns whether an answer is a receipt at this place with a frame.
pub(crate) fn has_frame(answer: &Result<Receipt, CellFault>, index: usize, number: u32) -> bool {
    match answer {
        Ok(receipt) => receipt.index == index && is_frame(receipt.outputs.as_slice(), number),
        Err(_) => false,
    }
}

/// Returns whether a tick is answered so.
pub(crate) fn ticks<R: Wait>(
    rt: &R,
    alloc: Global,
    cell: &OperatorCell,
    index: usize,
    number: u32,
) -> bool {
    has_frame(&cell.tick(rt, alloc), index, number)
}

/// Returns whether a tick in this turn is answered so.
fn ticks_at<R: Wait>(
    rt: &R,
    alloc: Global,
    cell: &OperatorCell,
    index: usize,
    number: u32,
) -> bool {
    let answer = cell.in_turn(rt, alloc, index, Action::Tick, &OpenGate);
    has_frame(&answer, index, number)
}

/// Returns whether what is taken is an idle frame.
pub(crate) fn is_taken(taken: &Option<(u32, Elements)>, wanted: u32) -> bool {
    match taken {
        Some((number, elements)) => { *number == wanted && elements.get_spans() == IDLE.as_slice() }
        None => false,
    }
}

/// Returns whether an idle frame is collected.
pub(crate) fn collects<R: Wait>(rt: &R, alloc: Global, cell: &OperatorCell, number: u32) -> bool {
    match &cell.collect(rt, alloc) {
        Ok(taken) => is_taken(taken, number),
        Err(_) => false,
    }
}

/// Returns whether no frame waits to be collected.
fn collects_none<R: Wait>(rt: &R, alloc: Global, cell: &OperatorCell) -> bool {
    matches!(&cell.collect(rt, alloc), Ok(None))
}

/// Returns whether an idle frame is collected after so many actions.
pub(crate) fn collects_behind<R: Wait>(
    rt: &R,
    alloc: Global,
    cell: &OperatorCell,
    index: usize,
    number: u32,
) -> bool {
    match &cell.collect_after(rt, alloc, index) {
        Ok(taken) => is_taken(taken, number),
        Err(_) => false,
    }
}

/// Returns whether a turn is refused by this.
fn refuses<R: Wait>(
    rt: &R,
    alloc: Global,
    cell: &OperatorCell,
    index: usize,
    action: Action,
    wanted: CellFault,
) -> bool {
    match &cell.in_turn(rt, alloc, index, action, &OpenGate) {
        Ok(_) => false,
        Err(fault) => *fault == wanted,
    }
}

/// Returns whether work in this turn is refused since the turns have stopped.
pub(crate) fn has_stopped<R: Wait>(
    rt: &R,
    alloc: Global,
    cell: &OperatorCell,
    index: usize,
) -> bool {
    refuses(
        rt,
        alloc,
        cell,
        index,
        Action::Work,
        CellFault::Stopped { op: 0 },
    )
}

/// Returns whether a frame after so many actions is refused since the turns have stopped.
fn has_stopped_collecting<R: Wait>(
    rt: &R,
    alloc: Global,
    cell: &OperatorCell,
    index: usize,
) -> bool {
    match &cell.collect_after(rt, alloc, index) {
        Ok(_) => false,
        Err(fault) => *fault == CellFault::Stopped { op: 0 },
    }
}

/// Checks that receipts and frames are returned.
fn answers<R: Wait>(rt: &R, alloc: Global, cell: &OperatorCell) -> Result<bool, AllocError> {
    Ok(
        arrives(rt, alloc, cell, 0)?
            && replies(rt, alloc, cell, 1)
            && ticks(rt, alloc, cell, 2, 0)
            && collects(rt, alloc, cell, 0)
            && ticks_at(rt, alloc, cell, 3, 1)
            && collects_behind(rt, alloc, cell, 4, 1),
    )
}

/// Returns a place that the history has passed is reported, with the operator and the place. The
/// turns go on.
fn refuses_the_past<R: Wait>(rt: &R, alloc: Global, cell: &OperatorCell) -> bool {
    let passed = CellFault::Passed { op: 0, index: 0 };
    idles(rt, alloc, cell, 0)
        && refuses(rt, alloc, cell, 0, Action::Work, passed)
        && ticks_at(rt, alloc, cell, 1, 0)
}

/// Returns where the turns have stopped each is refused, also one that would be past; what waits
/// for no turn goes on.
fn stops<R: Wait>(rt: &R, alloc: Global, cell: &OperatorCell) -> bool {
    let begun = idles(rt, alloc, cell, 0);
    cell.stop(rt);
    begun
        && has_stopped(rt, alloc, cell, 0)
        && has_stopped(rt, alloc, cell, 1)
        && has_stopped(rt, alloc, cell, 9)
        && has_stopped_collecting(rt, alloc, cell, 9)
        && idles(rt, alloc, cell, 1)
}

/// Returns whether the arrival of a modem of another operator is refused in this turn.
fn refuses_a_stranger<R: Wait>(rt: &R, alloc: Global, cell: &OperatorCell, index: usize) -> bool {
    let arrival = Action::Arrive {
        modem: modem(3),
        heard: request(),
    };
    let stranger = CellFault::Book(BookFault::NotMine { modem: modem(3) });
    refuses(rt, alloc, cell, index, arrival, stranger)
}

/// Returns a turn that is refused stops the cell: a modem of another operator, and then the turn
/// that would have been next.
fn is_stopped_by_a_stranger<R: Wait>(rt: &R, alloc: Global, cell: &OperatorCell) -> bool {
    refuses_a_stranger(rt, alloc, cell, 0) && has_stopped(rt, alloc, cell, 0)
}

/// Returns a cell with the book and the frames of another, which is taken apart.
fn again(cell: OperatorCell) -> OperatorCell
    requires { cell.op < 2 ^ 64 }
{
    let (book, taken) = cell.into_parts();
    OperatorCell::again(0, book, taken)
}

/// Returns two frames, of which the first is collected.
fn begins<R: Wait>(rt: &R, alloc: Global, cell: &OperatorCell) -> bool {
    ticks(rt, alloc, cell, 0, 0) && ticks(rt, alloc, cell, 1, 1) && collects(rt, alloc, cell, 0)
}

/// Checks that a cell that is taken apart and put together again goes on where it was: the frame that was collected is not given again.
fn goes_on<R: Wait>(rt: &R, alloc: Global, cell: &OperatorCell) -> bool {
    collects(rt, alloc, cell, 1) && collects_none(rt, alloc, cell)
}

/// Returns a new cell with the book of another, which is taken apart, and how many frames that one had collected.
fn renew_cell(cell: OperatorCell) -> (OperatorCell, usize)
    requires { cell.op < 2 ^ 64 }
{
    let (book, taken) = cell.into_parts();
    (OperatorCell::new(0, book), taken)
}

/// Returns whether a new cell collects none of the frames in its history, but the frame of a later tick.
fn collects_later<R: Wait>(rt: &R, alloc: Global, cell: &OperatorCell) -> bool {
    collects_none(rt, alloc, cell) && ticks(rt, alloc, cell, 2, 2) && collects(rt, alloc, cell, 2)
}

/// Returns whether one frame of two counts as collected, and a new cell with their book collects only a later frame.
fn renews<R: Wait>(rt: &R, alloc: Global, cell: OperatorCell) -> bool {
    let begun = begins(rt, alloc, &cell);
    let (cell, taken) = renew_cell(cell);
    begun && taken == 1 && collects_later(rt, alloc, &cell)
}

/// What a cell is tried on.
enum Case {
    Answers,
    Past,
    Stop,
    Stranger,
    Parts,
}

/// Returns whether a cell with nothing done does what is wanted of it, taken apart and put together
/// again in the midst.
fn does<R: Wait>(
    rt: &R,
    alloc: Global,
    cell: OperatorCell,
    case: &Case,
) -> Result<bool, AllocError> {
    let done = match case {
        Case::Answers => answers(rt, alloc, &cell)?,
        Case::Past => refuses_the_past(rt, alloc, &cell),
        Case::Stop => stops(rt, alloc, &cell),
        Case::Stranger => is_stopped_by_a_stranger(rt, alloc, &cell),
        Case::Parts => begins(rt, alloc, &cell),
    };
    let cell = again(cell);
    match case {
        Case::Parts => Ok(done && goes_on(rt, alloc, &cell)),
        _ => Ok(done),
    }
}

/// Returns whether the cell of operator A does what is wanted of it.
fn cell_does<R: Wait>(rt: &R, alloc: Global, case: &Case) -> Result<bool, AllocError> {
    match opened_cell(alloc, strict!(alloc)) {
        Some(cell) => does(rt, alloc, cell, case),
        None => Ok(false),
    }
}

/// Returns whether the cell of operator A counts what it collects.
fn cell_renews<R: Wait>(rt: &R, alloc: Global) -> Result<bool, AllocError> {
    match opened_cell(alloc, strict!(alloc)) {
        Some(cell) => Ok(renews(rt, alloc, cell)),
        None => Ok(false),
    }
}

/// A call that the book refuses, as the table writes it.
#[derive(Clone, Copy, Debug, PartialEq, Eq)]
enum RefusedCall {
    Arrive,
    Tick,
    ArriveInTurn,
    TickInTurn,
    ResliceInTurn,
}

/// The first frame of a plant, a call, and the book's fault.
const REFUSALS: [(&str, RefusedCall, BookFault); 5] = [
    (FIRST, RefusedCall::Arrive, STRANGER),
    (FIRST, RefusedCall::ArriveInTurn, STRANGER),
    (LAST, RefusedCall::Tick, BookFault::FramesSpent),
    (LAST, RefusedCall::TickInTurn, BookFault::FramesSpent),
    (
        FIRST,
        RefusedCall::ResliceInTurn,
        BookFault::Unfit(Unfit::NotPast),
    ),
];

/// The fault of an arrival of operator B's modem.
const STRANGER: BookFault = BookFault::NotMine {
    modem: Modem([2, 0, 0, 0, 0, 3]),
};

/// Returns a request for a minislot.
fn request() -> Heard {
    Heard::Request {
        sid: 257,
        minislots: 1,
    }
}

/// Returns the receipt or the fault of an action in the first turn.
fn in_first_turn<R: Wait>(
    rt: &R,
    alloc: Global,
    cell: &OperatorCell,
    action: Action,
) -> Result<Receipt, CellFault> {
    cell.in_turn(rt, alloc, 0, action, &OpenGate)
}

/// Returns the receipt or the fault of a call.
fn make_call<R: Wait>(
    rt: &R,
    alloc: Global,
    cell: &OperatorCell,
    call: RefusedCall,
) -> Result<Receipt, CellFault> {
    let modem = modem(3);
    let row = SliceRow {
        start: 8,
        length: 32,
        budget: 32,
    };
    match call {
        RefusedCall::Arrive => cell.arrive(rt, alloc, modem, request()),
        RefusedCall::Tick => cell.tick(rt, alloc),
        RefusedCall::ArriveInTurn => {
            let heard = request();
            in_first_turn(rt, alloc, cell, Action::Arrive { modem, heard })
        }
        RefusedCall::TickInTurn => in_first_turn(rt, alloc, cell, Action::Tick),
        RefusedCall::ResliceInTurn => in_first_turn(
            rt,
            alloc,
            cell,
            Action::Reslice { from: 0, row },
        ),
    }
}

/// Returns whether a call on a cell that begins at this frame is refused with this fault of the book.
fn is_refused<R: Wait>(
    rt: &R,
    alloc: Global,
    first_frame: &str,
    call: RefusedCall,
    wanted: BookFault,
) -> Result<bool, AllocError> {
    let Some(book) = book_from(alloc, first_frame, strict!(alloc)) else {
        return Ok(false);
    };
    match &make_call(rt, alloc, &OperatorCell::new(0, book), call) {
        Ok(_) => Ok(false),
        Err(fault) => Ok(*fault == CellFault::Book(wanted)),
    }
}

#[test]
fn a_refused_call_returns_the_fault_of_the_book(rt: HostRuntime) -> Result<(), AllocError> {
    for (first_frame, call, wanted) in REFUSALS {
        assert!(rt; is_refused(&rt, rt.alloc(), first_frame, call, wanted)?);
    }
    Ok(())
}

#[test]
fn calls_on_a_cell_are_answered(rt: HostRuntime) -> Result<(), AllocError> {
    assert!(rt; cell_does(&rt, rt.alloc(), &Case::Answers)?);
    assert!(rt; cell_does(&rt, rt.alloc(), &Case::Past)?);
    assert!(rt; cell_does(&rt, rt.alloc(), &Case::Stop)?);
    assert!(rt; cell_does(&rt, rt.alloc(), &Case::Stranger)?);
    assert!(rt; cell_does(&rt, rt.alloc(), &Case::Parts)?);
    assert!(rt; cell_renews(&rt, rt.alloc())?);
    Ok(())
}
