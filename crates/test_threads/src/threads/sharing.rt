//! Two threads on one cell.

use crate::threads::opening::{modem, opened_cell, strict};
use dsx_messages::Modem;
use operator_book::{Book, Heard};
use plant_workers::{Callers, CellFault, OperatorCell, Receipt, Receipts, settle};
use std::alloc::{AllocError, Global};
use std::process::Abort;
use std::sync::Wait;
use std::thread;
use std::thread::{Builder, Threads};

/// What a thread does with what threads share. A trait of its own, so that a thread that borrows it asks for no more of it
/// than that it may be shared.
trait PlaysShared<R: Wait> {
    /// Makes three calls, and returns their receipts, or None if one is refused.
    fn play(&self, rt: &R, alloc: Global, modem: Modem) -> Option<Receipts>;
}

/// Keeps the receipt that is answered; whether there is one, and memory for it.
fn keeps(receipts: &mut Receipts, answer: Result<Receipt, CellFault>) -> bool {
    match answer {
        Ok(receipt) => receipts.push(receipt).is_ok(),
        Err(_) => false,
    }
}

impl<R: Wait> PlaysShared<R> for OperatorCell {
    fn play(&self, rt: &R, alloc: Global, modem: Modem) -> Option<Receipts> {
        let heard = Heard::Request {
            sid: 257,
            minislots: 1,
        };
        let mut receipts = Receipts::new(alloc);
        let done = keeps(&mut receipts, self.arrive(rt, alloc, modem, heard))
            && keeps(&mut receipts, self.work(rt, alloc))
            && keeps(&mut receipts, self.tick(rt, alloc));
        if done { Some(receipts) } else { None }
    }
}

/// Returns two threads play, each for a modem.
fn race<R: Threads + Wait + Sync, P: PlaysShared<R> + Sync>(
    rt: &R,
    alloc: Global,
    plays: &P,
) -> Option<(Receipts, Receipts)> {
    thread::scope(
        thread::scope_env(),
        rt,
        |scope| -> Option<(Receipts, Receipts)> {
            let first = Builder::new()
                .spawn_scoped(scope, move || { plays.play(rt, alloc, modem(1)) })
                .ok()?;
            let second = Builder::new()
                .spawn_scoped(scope, move || { plays.play(rt, alloc, modem(2)) })
                .ok()?;
            let (first, second) = (first.join(rt), second.join(rt));
            Some((first?, second?))
        },
    )
}

/// Returns two threads play on a cell.
fn race_on<R: Threads + Wait + Sync>(
    rt: &R,
    alloc: Global,
    cell: &OperatorCell,
) -> Option<(Receipts, Receipts)> {
    race(rt, alloc, cell)
}

/// Returns whether these receipts of two callers settle over a book.
fn settles(
    alloc: Global,
    book: Book,
    first: Receipts,
    second: Receipts,
) -> Result<bool, AllocError> {
    let callers = Vec::from_array(alloc, [first, second])?;
    let books = Vec::from_array(alloc, [book])?;
    let receipts = Vec::from_array(alloc, [Callers::from_vec(callers)])?;
    Ok(settle(alloc, books, receipts, Vec::new(alloc)).is_ok())
}

/// Returns whether two threads that play on a cell make six entries, whose receipts settle.
fn two_threads_settle<R: Threads + Wait + Sync>(
    rt: &R,
    alloc: Global,
    cell: OperatorCell,
) -> Result<bool, AllocError> {
    let Some((first, second)) = race_on(rt, alloc, &cell) else {
        return Ok(false);
    };
    let (book, _) = cell.into_parts();
    Ok(book.history().len() == 6 && settles(alloc, book, first, second)?)
}

/// Returns whether two threads do so on the cell of operator A.
fn receipts_settle<R: Threads + Wait + Sync>(rt: &R, alloc: Global) -> Result<bool, AllocError> {
    match opened_cell(alloc, strict!(alloc)) {
        Some(cell) => two_threads_settle(rt, alloc, cell),
        None => Ok(false),
    }
}

/// Each thread makes three calls: six entries, whose receipts settle.
#[test]
fn receipts_of_two_threads_settle(rt: HostRuntime) -> Result<(), AllocError> {
    assert!(rt; receipts_settle(&rt, rt.alloc())?);
    Ok(())
}
