//! Receipts that settle with their books, and receipts that do not.

use crate::fixtures::{ADDITION, MODEM_OF_A, REPLY, heard_message};
use crate::opening::{book_of, strict};
use grant_policy::Ranking;
use map_assembly::MapBytes;
use operator_book::{Action, Book, Output, Outputs};
use plant_workers::{Callers, Receipt, Receipts, RunFault, settle};
use std::alloc::{AllocError, Global};
use std::process::Abort;
use tlv24::Bytes;

/// A receipt of an operator with two entries: an addition's arrival, and the work on it.
#[derive(Clone, Copy, Debug, PartialEq, Eq)]
pub(crate) enum Note {
    Arrived,
    Worked,
    /// The work, with no output.
    WorkedSilently,
}

/// Returns the output of the work: the reply to the addition.
fn reply_outputs(alloc: Global) -> Result<Outputs, AllocError> {
    let mut outputs = Outputs::new(alloc);
    let bytes = Bytes::from_slice(alloc, REPLY)?;
    outputs.push(Output::Reply {
        modem: MODEM_OF_A,
        bytes,
    })?;
    Ok(outputs)
}

/// Returns the receipt that a table writes so.
fn receipt(alloc: Global, note: Note) -> Result<Receipt, AllocError> {
    match note {
        Note::Arrived => Ok(Receipt {
            index: 0,
            action: arrival(alloc)?,
            outputs: Outputs::new(alloc),
        }),
        Note::Worked => Ok(Receipt {
            index: 1,
            action: Action::Work,
            outputs: reply_outputs(alloc)?,
        }),
        Note::WorkedSilently => Ok(Receipt {
            index: 1,
            action: Action::Work,
            outputs: Outputs::new(alloc),
        }),
    }
}

/// Returns the arrival of the addition.
fn arrival(alloc: Global) -> Result<Action, AllocError> {
    Ok(Action::Arrive {
        modem: MODEM_OF_A,
        heard: heard_message(alloc, ADDITION)?,
    })
}

/// Returns the receipts of one caller.
fn receipts(alloc: Global, notes: &[Note]) -> Result<Receipts, AllocError> {
    let mut receipts = Receipts::new(alloc);
    for note in notes {
        receipts.push(receipt(alloc, *note)?)?;
    }
    Ok(receipts)
}

/// Returns the receipts of an operator's callers.
fn callers(alloc: Global, lists: &[&[Note]]) -> Result<Callers, AllocError> {
    let mut callers = Callers::new(alloc);
    for notes in lists {
        callers.push(receipts(alloc, notes)?)?;
    }
    Ok(callers)
}

/// The MAP of frame 0, in which both slices are idle.
const IDLE: [u8; 32] = [
    1, 1, 4, 0, 0, 0, 0, 0, 0, 0, 0, 0, 0, 0, 0, 0, 0xFF, 0xFC, 0x40, 0x00, 0, 1, 0x80, 0x08, 0, 1,
    0x80, 0x28, 0, 1, 0xC0, 0x48,
];

/// The MAPs that are settled with the books.
#[derive(Clone, Copy, Debug, PartialEq, Eq)]
enum Maps {
    None,
    /// One, of frame 0.
    Idle,
}

/// Returns the MAPs of this name.
fn maps_of(alloc: Global, maps: Maps) -> Result<Vec<MapBytes>, AllocError> {
    match maps {
        Maps::None => Ok(Vec::new(alloc)),
        Maps::Idle => Ok(Vec::from_array(
            alloc,
            [MapBytes {
                frame: 0,
                bytes: Bytes::from_slice(alloc, &IDLE)?,
            }],
        )?),
    }
}

/// Returns the fault of operator A's receipts with the books of A and B and no MAP, if there is one.
pub(crate) fn fault_of_settling(
    alloc: Global,
    first: Book,
    second: Book,
    lists: &[&[Note]],
) -> Result<Option<RunFault>, AllocError> {
    let books = Vec::from_array(alloc, [first, second])?;
    let receipts = Vec::from_array(alloc, [callers(alloc, lists)?, Callers::new(alloc)])?;
    Ok(settle(alloc, books, receipts, Vec::new(alloc)).err())
}

/// The receipts of operator A's callers, the MAPs, and the expected fault, if there is one.
type SettleRow = (&'static [&'static [Note]], Maps, Option<RunFault>);

/// Returns whether books, receipts and MAPs settle or are refused as expected.
fn settles(alloc: Global, first: Book, second: Book, row: SettleRow) -> Result<bool, AllocError> {
    let (lists, maps, wanted) = row;
    let books = Vec::from_array(alloc, [first, second])?;
    let receipts = Vec::from_array(alloc, [callers(alloc, lists)?, Callers::new(alloc)])?;
    let maps = maps_of(alloc, maps)?;
    Ok(settle(alloc, books, receipts, maps).err() == wanted)
}

/// Returns whether an addition arrives and is handled, which gives the history two entries.
fn answers(alloc: Global, book: &mut Book) -> Result<bool, AllocError> {
    let arrived = book.act(alloc, arrival(alloc)?).is_ok();
    Ok(arrived && book.act(alloc, Action::Work).is_ok())
}

/// Opens the book of operator A, and lets it handle the addition.
fn book_after_addition(alloc: Global, ranking: Ranking) -> Result<Option<Book>, AllocError> {
    let Some(mut book) = book_of(alloc, "", 0, ranking) else {
        return Ok(None);
    };
    if answers(alloc, &mut book)? {
        Ok(Some(book))
    } else {
        Ok(None)
    }
}

/// Opens the books of operators A and B, and lets A's handle the addition.
pub(crate) fn both_books(
    alloc: Global,
    of_first: Ranking,
    of_second: Ranking,
) -> Result<Option<(Book, Book)>, AllocError> {
    let first = book_after_addition(alloc, of_first)?;
    let second = book_of(alloc, "", 1, of_second);
    match (first, second) {
        (Some(first), Some(second)) => Ok(Some((first, second))),
        _ => Ok(None),
    }
}

/// Returns whether receipts settle as expected with the books of operators A and B, of which A's has handled the addition.
fn both_settle(alloc: Global, row: SettleRow) -> Result<bool, AllocError> {
    match both_books(alloc, strict!(alloc), strict!(alloc))? {
        Some((first, second)) => settles(alloc, first, second, row),
        None => Ok(false),
    }
}

/// Two callers have a receipt each. Then a receipt has other outputs, a caller has the later entry first, an entry has no receipt, and
/// there is a MAP of a frame that no book has scheduled.
const ROWS: [SettleRow; 5] = [
    (&[&[Note::Arrived], &[Note::Worked]], Maps::None, None),
    (
        &[&[Note::Arrived], &[Note::WorkedSilently]],
        Maps::None,
        Some(RunFault::Strayed { op: 0, index: 1 }),
    ),
    (
        &[&[Note::Worked, Note::Arrived]],
        Maps::None,
        Some(RunFault::Strayed { op: 0, index: 0 }),
    ),
    (
        &[&[Note::Arrived]],
        Maps::None,
        Some(RunFault::Short { op: 0 }),
    ),
    (
        &[&[Note::Arrived], &[Note::Worked]],
        Maps::Idle,
        Some(RunFault::MapStrayed { frame: 0 }),
    ),
];

#[test]
fn receipts_of_a_book_settle_and_others_do_not(rt: HostRuntime) -> Result<(), AllocError> {
    for row in ROWS {
        assert!(rt; both_settle(rt.alloc(), row)?);
    }
    Ok(())
}
