//! Actions on an operator's book, and their outputs.

use crate::fixtures::{
    ADDITION, ExpectedOutput, MODEM_OF_A, MODEM_OF_B, REPLY, heard_message, is_output,
};
use crate::opening::{book_of, strict};
use dsx_messages::Modem;
use operator_book::{Action, Book, BookFault, Cause, Output};
use param_sets::ParamSet;
use std::alloc::{AllocError, Global};
use std::process::Abort;

/// An action, as the tables write it.
#[derive(Clone, Copy, Debug, PartialEq, Eq)]
enum BookCall {
    Arrive(Modem, &'static [u8]),
    Work,
    Tick,
}

/// Returns the action that a table writes so.
fn action(alloc: Global, call: BookCall) -> Result<Action, AllocError> {
    match call {
        BookCall::Arrive(modem, bytes) => Ok(Action::Arrive {
            modem,
            heard: heard_message(alloc, bytes)?,
        }),
        BookCall::Work => Ok(Action::Work),
        BookCall::Tick => Ok(Action::Tick),
    }
}

/// Returns whether outputs are the expected one alone, or none where none is expected.
fn are_outputs(outputs: &[Output], wanted: ExpectedOutput) -> bool {
    match outputs {
        [] => wanted == ExpectedOutput::Nothing,
        [output] => is_output(output, wanted),
        _ => false,
    }
}

/// Returns whether an action has the expected output or fault.
fn is_expected(
    returned: &Result<Vec<Output>, BookFault>,
    wanted: Result<ExpectedOutput, BookFault>,
) -> bool {
    match (returned, wanted) {
        (Ok(outputs), Ok(wanted)) => are_outputs(outputs.as_slice(), wanted),
        (Err(fault), Err(wanted)) => *fault == wanted,
        _ => false,
    }
}

/// An action, and its expected output or fault.
type BookRow = (BookCall, Result<ExpectedOutput, BookFault>);

/// Returns whether a book acts as expected.
fn does(alloc: Global, book: &mut Book, row: BookRow) -> Result<bool, AllocError> {
    let (call, wanted) = row;
    let action = action(alloc, call)?;
    Ok(is_expected(&book.act(alloc, action), wanted))
}

/// Returns whether a book acts as expected, action after action.
fn does_all(alloc: Global, book: &mut Book, rows: &[BookRow]) -> Result<bool, AllocError> {
    for row in rows {
        if !does(alloc, book, *row)? {
            return Ok(false);
        }
    }
    Ok(true)
}

/// Returns how many entries the history has, and how many responses are kept.
fn counts(alloc: Global, book: &Book) -> Result<(usize, usize), AllocError> {
    let view = book.state_view(alloc)?;
    Ok((book.history().len(), view.cached_responses().len()))
}

/// Returns whether the book of operator A acts as expected, and then has so many entries and cached
/// responses.
fn book_does(
    alloc: Global,
    keys: &str,
    rows: &[BookRow],
    wanted: (usize, usize),
) -> Result<bool, AllocError> {
    match &mut book_of(alloc, keys, 0, strict!(alloc)) {
        Some(book) => Ok(does_all(alloc, book, rows)? && counts(alloc, book)? == wanted),
        None => Ok(false),
    }
}

/// The inbox is empty, then takes four messages and drops a fifth. A modem of another operator is refused without an entry.
const INBOX: &[BookRow] = &[
    (
        BookCall::Work,
        Ok(ExpectedOutput::Silent(None, Cause::Idle)),
    ),
    (
        BookCall::Arrive(MODEM_OF_A, ADDITION),
        Ok(ExpectedOutput::Nothing),
    ),
    (
        BookCall::Arrive(MODEM_OF_A, ADDITION),
        Ok(ExpectedOutput::Nothing),
    ),
    (
        BookCall::Arrive(MODEM_OF_A, ADDITION),
        Ok(ExpectedOutput::Nothing),
    ),
    (
        BookCall::Arrive(MODEM_OF_A, ADDITION),
        Ok(ExpectedOutput::Nothing),
    ),
    (
        BookCall::Arrive(MODEM_OF_A, ADDITION),
        Ok(ExpectedOutput::Silent(Some(MODEM_OF_A), Cause::InboxFull)),
    ),
    (
        BookCall::Arrive(MODEM_OF_B, ADDITION),
        Err(BookFault::NotMine { modem: MODEM_OF_B }),
    ),
];

/// Frame numbers are used up, so that ticks are refused without an entry. A message is still served.
const LAST: &[BookRow] = &[
    (BookCall::Tick, Err(BookFault::FramesSpent)),
    (BookCall::Tick, Err(BookFault::FramesSpent)),
    (
        BookCall::Arrive(MODEM_OF_A, ADDITION),
        Ok(ExpectedOutput::Nothing),
    ),
    (BookCall::Work, Ok(ExpectedOutput::Reply(REPLY))),
];

/// The transaction ID is one of the CMTS's half: the refusal is not kept.
const NOT_KEPT: &[BookRow] = &[
    (
        BookCall::Arrive(
            MODEM_OF_A,
            &[15, 128, 0, 24, 10, 1, 2, 0, 1, 6, 1, 6, 15, 1, 2],
        ),
        Ok(ExpectedOutput::Nothing),
    ),
    (BookCall::Work, Ok(ExpectedOutput::Reply(&[16, 128, 0, 10]))),
];

#[test]
fn a_book_returns_the_output_of_each_action(rt: HostRuntime) -> Result<(), AllocError> {
    let last = "first_frame = 4294967295\n";
    for (keys, rows, wanted) in [
        ("", INBOX, (6, 0)),
        (last, LAST, (2, 1)),
        ("", NOT_KEPT, (2, 0)),
    ] {
        assert!(rt; book_does(rt.alloc(), keys, rows, wanted)?);
    }
    Ok(())
}

/// Lines of a plant file: a class of priority 5.
const GOLD: &str = "\n[[class]]\nname = \"gold\"\nencoding = \"0F0102070105\"\n";

/// An addition that names the class and has no priority of its own.
const OF_GOLD: &[BookRow] = &[
    (
        BookCall::Arrive(
            MODEM_OF_A,
            &[
                15, 0, 1, 24, 14, 1, 2, 0, 1, 4, 5, 0x67, 0x6F, 0x6C, 0x64, 0, 6, 1, 6,
            ],
        ),
        Ok(ExpectedOutput::Nothing),
    ),
    (BookCall::Work, Ok(ExpectedOutput::Reply(REPLY))),
];

/// Returns the SFID and the priority of the first flow, of the set that becomes active at its acknowledgement.
fn first_priority(alloc: Global, book: &Book) -> Result<Option<(u32, u8)>, AllocError> {
    let view = book.state_view(alloc)?;
    let [(sfid, flow), ..] = view.flows() else {
        return Ok(None);
    };
    match flow.pending {
        Some(pending) => Ok(priority_of(*sfid, pending.sets.get_active())),
        None => Ok(None),
    }
}

/// Returns an SFID with the priority of a set, if there is one.
fn priority_of(sfid: u32, set: Option<ParamSet>) -> Option<(u32, u8)> {
    Some((sfid, set?.get_priority()))
}

/// Returns whether the addition is accepted and its flow gets the priority of its class.
fn gets_its_class(alloc: Global) -> Result<bool, AllocError> {
    match &mut book_of(alloc, GOLD, 0, strict!(alloc)) {
        Some(book) => {
            Ok(does_all(alloc, book, OF_GOLD)? && first_priority(alloc, book)? == Some((257, 5)))
        }
        None => Ok(false),
    }
}

#[test]
fn a_flow_gets_the_priority_of_its_class(rt: HostRuntime) -> Result<(), AllocError> {
    assert!(rt; gets_its_class(rt.alloc())?);
    Ok(())
}
