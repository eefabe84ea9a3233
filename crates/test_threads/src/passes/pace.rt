//! Many calls by many threads, on a cell of passes and on a book behind a lock. The test asserts that each call has its entry. It also
//! prints how many calls a second were made, which nothing asserts: `tools/measure/passes.sh` makes a table of that.

use crate::passes::cells::{MODEM, addition, book, open_cell, strict};
use crate::passes::teams::race_calls;
use grant_policy::Ranking;
use operator_book::{Action, Book, BookFault, Output};
use std::alloc::{AllocError, Global};
use std::process::Abort;
use std::sync::{Mutex, Wait};
use std::test::Fail;
use std::thread;
use std::thread::Threads;
use std::time::{Clock, Instant};

/// The calls of a run, with all threads.
const CALLS: usize = 48_000;

/// Returns how many calls a second were made, or `None` where one of them has no entry.
fn per_second(calls: usize, micros: u128) -> Option<u128> {
    if calls != CALLS {
        return None;
    }
    48_000_000_000_u128.checked_div(micros)
}

/// Returns an arrival of a modem's addition, work or a tick, in turn.
fn action(alloc: Global, turn: usize) -> Option<Action> {
    match turn % 3 {
        0 => Some(Action::Arrive {
            modem: MODEM,
            heard: addition(alloc)?,
        }),
        1 => Some(Action::Work),
        _ => Some(Action::Tick),
    }
}

/// Acts on the book under its lock.
fn act_locked<R: Wait>(
    rt: &R,
    alloc: Global,
    lock: &Mutex<Book>,
    turn: usize,
) -> Result<Vec<Output>, BookFault> {
    match action(alloc, turn) {
        Some(action) => lock.lock(rt).act(alloc, action),
        None => Err(BookFault::NoMemory),
    }
}

/// How many calls a thread makes, and what they output.
#[derive(Drop)]
struct Shift {
    calls: usize,
    outputs: Vec<Vec<Output>>,
}

/// Makes the calls of a shift on a book behind a lock, up to one that is refused.
fn work_on<R: Wait>(rt: &R, alloc: Global, book: &Mutex<Book>, mut shift: Shift) -> Shift {
    for turn in 0..shift.calls {
        let Ok(outputs) = act_locked(rt, alloc, book, turn) else {
            return shift;
        };
        if shift.outputs.push(outputs).is_err() {
            return shift;
        }
    }
    shift
}

/// Threads share a book behind a lock.
fn work_locked<R: Threads + Wait + Sync>(
    rt: &R,
    alloc: Global,
    book: &Mutex<Book>,
    shifts: Vec<Shift>,
) -> Result<Vec<Shift>, AllocError> {
    thread::map_vec(rt, shifts, &|shift| work_on(rt, alloc, book, shift))
}

/// Returns so many shifts, each of as many calls.
fn shifts_of(alloc: Global, threads: usize) -> Option<Vec<Shift>> {
    let calls = CALLS.checked_div(threads)?;
    let mut shifts = Vec::new(alloc);
    for _ in 0..threads {
        let outputs = Vec::new(alloc);
        shifts.push(Shift { calls, outputs }).ok()?;
    }
    Some(shifts)
}

/// Returns how many calls were answered in all.
fn made_in(shifts: &[Shift]) -> Option<usize> {
    let mut made = 0usize;
    for shift in shifts {
        made = made.checked_add(shift.outputs.len())?;
    }
    Some(made)
}

/// Returns the calls a second of so many threads on a book behind a lock.
fn locked_pace<R: Threads + Wait + Sync + Clock>(
    rt: &R,
    alloc: Global,
    book: &Mutex<Book>,
    threads: usize,
) -> Option<u128> {
    let shifts = shifts_of(alloc, threads)?;
    let start = Instant::now(rt).ok()?;
    let shifts = work_locked(rt, alloc, book, shifts).ok()?;
    let took = start.elapsed(rt).ok()?.as_micros();
    per_second(made_in(shifts.as_slice())?, took)
}

/// Returns the calls a second of so many threads on a cell, each with a pass.
fn passed_pace<R: Threads + Wait + Sync + Clock>(
    rt: &R,
    alloc: Global,
    ranking: Ranking,
    threads: usize,
) -> Option<u128> {
    if threads == 0 || threads > 64 {
        return None;
    }
    let calls = CALLS.checked_div(threads)?;
    let (cell, passes) = open_cell(alloc, book(alloc, ranking)?, threads)?;
    let start = Instant::now(rt).ok()?;
    let (passes, _receipts) = race_calls(rt, alloc, &cell, passes, threads, calls)?;
    let took = start.elapsed(rt).ok()?.as_micros();
    per_second(cell.close(passes)?.history().len(), took)
}

/// Each of 48,000 calls is answered, by 1, 2, 4 and 8 threads, on a cell and on a book behind a lock.
#[test]
fn each_call_of_many_threads_is_answered(rt: HostRuntime) -> Result<(), Fail> {
    let alloc = rt.alloc();
    for threads in [1, 2, 4, 8] {
        let passed = passed_pace(&rt, alloc, strict!(alloc), threads).ok_or("no pace")?;
        let lock = Mutex::new(book(alloc, strict!(alloc)).ok_or("no book")?);
        let locked = locked_pace(&rt, alloc, &lock, threads).ok_or("no pace")?;
        println!(rt; "| {threads} | {passed} | {locked} |")
            .ok()
            .ok_or("no line")?;
    }
    Ok(())
}
