//! Cells that threads share, and the one history to which all that they were reported belongs.

ghost use Rattle.std.specs.Prelude.{All, IfSome};
ghost use Rattle.plant_passes.specs.Passes.{IsOfCell};
ghost use Rattle.plant_passes.specs.Histories.{StartsWith};
ghost use Rattle.plant_passes.specs.ViewOf.{cell_of, pass_of};

use crate::passes::cells::{REPLY, book, next_of, open_cell, strict};
use crate::passes::teams::race_calls;
use hex::encode_upper;
use operator_book::{Book, Entry, Output};
use plant_passes::{Pass, PassedCell, Receipt};
use plant_workers::{Callers, Receipts, settle};
use std::alloc::Global;
use std::process::Abort;
use std::sync::Wait;
use std::test::Fail;

/// Returns whether the entry at its place is just what a receipt reports.
fn stands(alloc: Global, history: &[Entry], receipt: &Receipt) -> Option<bool> {
    let Some(entry) = history.get(receipt.index) else {
        return Some(false);
    };
    let told = format!(in alloc; "{:?} {:?}", receipt.action, receipt.outputs).ok()?;
    let kept = format!(in alloc; "{:?} {:?}", entry.action, entry.outputs).ok()?;
    Some(told.as_str() == kept.as_str())
}

/// Returns whether each receipt is in a history, and each entry has one.
fn fit(alloc: Global, history: &[Entry], receipts: &[Receipt]) -> Option<bool> {
    let mut told = vec![in alloc; false; history.len()].ok()?;
    for receipt in receipts {
        match told.get_mut(receipt.index) {
            Some(place) if !*place => *place = true,
            _ => return Some(false),
        }
        if !stands(alloc, history, receipt)? {
            return Some(false);
        }
    }
    Some(receipts.len() == history.len())
}

/// Returns whether an entry is of one reply of these digits.
fn is_reply(alloc: Global, entry: &Entry, digits: &str) -> Option<bool> {
    match entry.outputs.as_slice() {
        [Output::Reply { modem: _, bytes }] => {
            Some(encode_upper(alloc, bytes.as_slice()).ok()?.as_str() == digits)
        }
        _ => Some(false),
    }
}

/// Returns how many entries are of the addition's reply.
fn replies(alloc: Global, history: &[Entry]) -> Option<usize> {
    let mut count = 0usize;
    for entry in history {
        if is_reply(alloc, entry, REPLY)? {
            count = count.checked_add(1)?;
        }
    }
    Some(count)
}

/// Returns whether all entries that gave out a frame did so in the order of frames, from this one
/// on, up to that one.
fn frames_follow(history: &[Entry], first: u32, end: u32) -> bool {
    let mut next = first;
    for entry in history {
        if let [
            Output::Frame {
                number,
                elements: _,
            },
        ] = entry.outputs.as_slice()
        {
            if *number != next || next == end {
                return false;
            }
            next = next.wrapping_add(1);
        }
    }
    next == end
}

/// Splits receipts into those of callers that made so many calls each, one caller after the other.
fn callers_of(alloc: Global, receipts: Vec<Receipt>, calls: usize) -> Option<Callers> {
    let mut callers = Callers::new(alloc);
    let mut own = Receipts::new(alloc);
    for receipt in receipts {
        own.push(receipt).ok()?;
        if own.len() == calls {
            callers.push(own).ok()?;
            own = Receipts::new(alloc);
        }
    }
    Some(callers)
}

/// Returns whether the receipts of these callers settle over a book.
fn settles(alloc: Global, book: Book, callers: Callers) -> Option<bool> {
    let books = Vec::from_array(alloc, [book]).ok()?;
    let receipts = Vec::from_array(alloc, [callers]).ok()?;
    Some(settle(alloc, books, receipts, Vec::new(alloc)).is_ok())
}

/// Returns the history of a cell whose passes are handed back.
fn close_cell(cell: PassedCell, passes: Vec<Pass>) -> Option<Book>
    requires { All (λ p. IsOfCell (cell_of cell) (pass_of p)) passes.items }
{
    cell.close(passes)
}

#[test]
fn two_threads_make_three_calls_each(rt: HostRuntime) -> Result<(), Fail> {
    let alloc = rt.alloc();
    let book = book(alloc, strict!(alloc)).ok_or("no book")?;
    let (cell, passes) = open_cell(alloc, book, 2).ok_or("no cell")?;
    let (passes, receipts) = race_calls(&rt, alloc, &cell, passes, 2, 3).ok_or("no race")?;
    let book = close_cell(cell, passes).ok_or("no book")?;
    let history = book.history();
    assert_eq!(rt; history.len(), 6);
    assert_eq!(rt; fit(alloc, history, receipts.as_slice()), Some(true));
    assert_eq!(rt; replies(alloc, history), Some(2));
    assert!(rt; frames_follow(history, 0, 2));
    Ok(())
}

/// Receipts of passes go to `settle` as those of other callers do.
#[test]
fn receipts_of_two_passes_settle(rt: HostRuntime) -> Result<(), Fail> {
    let alloc = rt.alloc();
    let book = book(alloc, strict!(alloc)).ok_or("no book")?;
    let (cell, passes) = open_cell(alloc, book, 2).ok_or("no cell")?;
    let (passes, receipts) = race_calls(&rt, alloc, &cell, passes, 2, 3).ok_or("no race")?;
    let book = close_cell(cell, passes).ok_or("no book")?;
    let callers = callers_of(alloc, receipts, 3).ok_or("no callers")?;
    assert_eq!(rt; callers.len(), 2);
    assert_eq!(rt; settles(alloc, book, callers), Some(true));
    Ok(())
}

#[test]
fn eight_threads_with_sixty_four_passes(rt: HostRuntime) -> Result<(), Fail> {
    let alloc = rt.alloc();
    let book = book(alloc, strict!(alloc)).ok_or("no book")?;
    let (cell, passes) = open_cell(alloc, book, 64).ok_or("no cell")?;
    let (passes, receipts) = race_calls(&rt, alloc, &cell, passes, 8, 1_000).ok_or("no race")?;
    let book = close_cell(cell, passes).ok_or("no book")?;
    let history = book.history();
    assert_eq!(rt; history.len(), 64_000);
    assert_eq!(rt; fit(alloc, history, receipts.as_slice()), Some(true));
    Ok(())
}

/// Shows a pass what two others have seen, so that what it has seen begins with what either had.
fn tell_both(cell: &PassedCell, told: &mut Pass, one: &mut Pass, other: &mut Pass) -> Option<()>
    requires told { IsOfCell (cell_of cell.now) (pass_of told.old) }
    requires one { IsOfCell (cell_of cell.now) (pass_of one.old) }
    requires other { IsOfCell (cell_of cell.now) (pass_of other.old) }
    ensures of { IsOfCell (cell_of cell.now) (pass_of told.new) }
    ensures one { IfSome result (λ _. StartsWith (pass_of told.new).seen (pass_of one.old).seen) }
    ensures other { IfSome result (λ _. StartsWith (pass_of told.new).seen (pass_of other.old).seen) }
{
    cell.meet(told, one).ok()?;
    cell.meet(told, other).ok()?;
    Some(())
}

/// Returns the place of an action of a pass that was reported what two others have seen.
fn after_both<R: Wait>(
    rt: &R,
    alloc: Global,
    cell: &PassedCell,
    mut told: Pass,
    mut passes: Vec<Pass>,
) -> Option<usize>
    requires told { IsOfCell (cell_of cell.now) (pass_of told) }
    requires passes { All (λ p. IsOfCell (cell_of cell.now) (pass_of p)) passes.items }
{
    let mut one = next_of(cell, &mut passes)?;
    let mut other = next_of(cell, &mut passes)?;
    tell_both(cell, &mut told, &mut one, &mut other)?;
    Some(cell.tick(rt, alloc, &mut told).ok()?.index)
}

#[test]
fn a_third_is_told_what_two_threads_saw(rt: HostRuntime) -> Result<(), Fail> {
    let alloc = rt.alloc();
    let book = book(alloc, strict!(alloc)).ok_or("no book")?;
    let (cell, mut passes) = open_cell(alloc, book, 3).ok_or("no cell")?;
    let third = next_of(&cell, &mut passes).ok_or("no pass")?;
    let (passes, receipts) = race_calls(&rt, alloc, &cell, passes, 2, 3).ok_or("no race")?;
    assert_eq!(rt; receipts.len(), 6);
    let place = after_both(&rt, alloc, &cell, third, passes).ok_or("no place")?;
    assert!(rt; receipts.iter().all(|receipt| receipt.index < place));
    assert_eq!(rt; place, 6);
    Ok(())
}
